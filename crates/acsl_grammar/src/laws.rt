ghost use Rattle.acsl_grammar.specs.Exactness.{OneTree};

/// Tokens are spelled by one tree at most, of a term or of a predicate, and by one exactly where reading gives it.
pub fn one_tree()
    ensures { OneTree }
{}
