//! What stands before the body of a statement.

use c_grammar::statement::ForFirst;
use c_grammar::whole::Expression;
use c_words::word::Leaf;

/// A word, and a condition in parentheses.
#[derive(Drop)]
pub struct Head {
    pub first: Leaf,
    pub opening: Leaf,
    pub test: Expression,
    pub closing: Leaf,
}

/// `for`, and what stands in parentheses after it.
#[derive(Drop)]
pub struct Control {
    pub first: Leaf,
    pub opening: Leaf,
    pub start: ForFirst,
    pub test: Option<Expression>,
    pub semicolon: Leaf,
    pub step: Option<Expression>,
    pub closing: Leaf,
}
