//! Declarators, initialisers and parameters (C11 6.7.6, 6.7.9).

use crate::types::{Base, Star};
use crate::whole::{Conditional, Expression};
use c_words::chain::Chain;
use c_words::word::Leaf;
use sqlite_items::{Boxed, Items};

#[cycle(declarator)]
#[derive(Drop)]
pub struct Declarator {
    pub stars: Items<Star>,
    pub direct: Direct,
}

#[cycle(declarator)]
#[derive(Drop)]
pub enum Direct {
    Name(Leaf),
    /// A name and an empty `[`, `]` right after it.
    Unsized(Leaf, Leaf, Leaf),
    Paren(Leaf, Boxed<Declarator>, Leaf),
    /// `[`, a size, `]` after a declarator.
    Array(Boxed<Direct>, Leaf, Conditional, Leaf),
}

#[derive(Drop)]
pub enum Init {
    Value(Expression),
    /// `{`, the elements, a last comma, `}`.
    Braces(Leaf, Boxed<Chain<Init>>, Option<Leaf>, Leaf),
}

pub enum Declared {
    Plain(Declarator),
    /// A declarator, `=` and the initialiser.
    Initialised(Declarator, Leaf, Init),
}

impl Drop for Declared {
    fn drop(self) {
        match self {
            Declared::Plain(_declarator) => {}
            Declared::Initialised(_declarator, _equals, _init) => {}
        }
    }
}

/// The sizes of a parameter that has no name, of which the first may be empty.
#[derive(Drop)]
pub enum Sizes {
    Unsized(Leaf, Leaf),
    First(Leaf, Conditional, Leaf),
    More(Boxed<Sizes>, Leaf, Conditional, Leaf),
}

pub enum Parameter {
    /// Each `const`, the base, the declarator.
    Named(Items<Leaf>, Base, Declarator),
    /// Each `const`, the base, the stars, the sizes.
    Nameless(Items<Leaf>, Base, Items<Star>, Option<Sizes>),
}

impl Drop for Parameter {
    fn drop(self) {
        match self {
            Parameter::Named(_consts, _base, _declarator) => {}
            Parameter::Nameless(_consts, _base, _stars, _sizes) => {}
        }
    }
}

pub enum Params {
    Empty,
    Void(Leaf),
    List(Chain<Parameter>),
}

impl Drop for Params {
    fn drop(self) {
        match self {
            Params::Empty => {}
            Params::Void(_void) => {}
            Params::List(_all) => {}
        }
    }
}
