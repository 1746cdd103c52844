//! Laws on blocks.

ghost use Rattle.c_statements.specs.Exactness.{ReadsBlocks, HaveOneBlock};

/// What `block` reads is what the grammar says, at every nesting, and leaves spell at most one block.
pub fn one_block()
    ensures reads { ReadsBlocks }
    ensures one { HaveOneBlock }
{}
