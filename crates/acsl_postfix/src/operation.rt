//! Operations of a postfix form.

use c_words::word::Leaf;

/// What is done with the parts that the operations before it have made.
#[derive(Clone, Copy)]
pub enum Operation {
    /// A name alone.
    Name(Leaf),
    /// A number, a character, or another word that is a term by itself.
    Constant(Leaf),
    /// A term in parentheses, the first of which this is.
    Parenthesis(Leaf),
    /// `\at` with a term before it, and its label.
    At(Leaf, Leaf),
    /// `f().x` or `f().\result`: the function's name, and what stands after the `.`.
    EventValue(Leaf, Leaf),
    /// `.name`: the operator and the name.
    Member(Leaf, Leaf),
    /// `->name`: the operator and the name.
    Arrow(Leaf, Leaf),
    /// The term before it stands before `[ ]`.
    Base,
    /// `[ ]` after a term, with another term inside.
    Index(Leaf),
    /// `-`, `*` or `&`.
    Prefix(Leaf),
    /// The term before it is used as a value.
    Value,
    /// An operator between two terms.
    Operator(Leaf),
    /// The term before it stands beside this relation.
    Side(Leaf),
    /// A relation between two terms.
    Relation(Leaf),
    /// The conjunction of two relations of one chain.
    Both,
    /// `\true` or `\false`.
    Truth(Leaf),
    /// `!`
    Not,
    /// A connective between two predicates.
    Connective(Leaf),
    /// The term before it is a location.
    Object,
    /// The three terms before it are a location: `p + (a .. b)`.
    Objects,
    /// `\valid` or `\valid_read` of the location before it.
    Valid,
    /// `\separated` of the locations before it.
    Separated,
    /// `CALL`, `RETURN` or `COR`, and the function's name.
    Event(Leaf, Leaf),
}
