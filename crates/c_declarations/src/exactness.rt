//! Laws on declared names and parameters.

ghost use Rattle.c_declarations.specs.Exactness.{ReadsDeclarations, ReadsParameters, HaveOneDeclaration};

/// What `all_declared` and `params` read is what the grammar says, at every nesting, and leaves spell what is declared in
/// at most one way.
pub fn one_declaration()
    ensures reads { ReadsDeclarations }
    ensures parameters { ReadsParameters }
    ensures one { HaveOneDeclaration }
{}
