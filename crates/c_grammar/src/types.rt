//! Names of types (C11 6.7.2, 6.7.7).

use c_words::word::Leaf;
use sqlite_items::Items;

/// The spellings of the integer types. `int` may be left out where a variant has it as an option, and so may `signed`.
#[derive(Clone, Copy)]
pub enum Integer {
    Char(Leaf),
    SignedChar(Leaf, Leaf),
    UnsignedChar(Leaf, Leaf),
    Short(Option<Leaf>, Leaf, Option<Leaf>),
    UnsignedShort(Leaf, Leaf, Option<Leaf>),
    Int(Leaf),
    Signed(Leaf, Option<Leaf>),
    Unsigned(Leaf, Option<Leaf>),
    Long(Option<Leaf>, Leaf, Option<Leaf>),
    UnsignedLong(Leaf, Leaf, Option<Leaf>),
}

#[derive(Clone, Copy)]
pub enum Specifier {
    Integer(Integer),
    Void(Leaf),
    /// `struct` and the tag.
    Struct(Leaf, Leaf),
}

/// What a declaration begins with: a type, and each `const` after it.
pub struct Base {
    pub specifier: Specifier,
    pub consts: Items<Leaf>,
}

impl Drop for Base {
    fn drop(self) {
        let Base {
            specifier: _specifier,
            consts: _consts,
        } = self;
    }
}

/// A `*`, and each `const` after it.
pub struct Star {
    pub star: Leaf,
    pub consts: Items<Leaf>,
}

impl Drop for Star {
    fn drop(self) {
        let Star {
            star: _star,
            consts: _consts,
        } = self;
    }
}

/// The type in a cast, or after `sizeof`.
pub struct TypeName {
    pub base: Base,
    pub stars: Items<Star>,
}

impl Drop for TypeName {
    fn drop(self) {
        let TypeName {
            base: _base,
            stars: _stars,
        } = self;
    }
}
