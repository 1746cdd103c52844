//! Programs (C11 6.9).

use crate::declaration::{Declarator, Declared, Params};
use crate::statement::Block;
use crate::types::{Base, Star};
use c_words::chain::Chain;
use c_words::word::Leaf;
use sqlite_items::Items;

/// Each `const`, the base, the declarators, `;`.
pub struct Member {
    pub consts: Items<Leaf>,
    pub base: Base,
    pub declarators: Chain<Declarator>,
    pub semicolon: Leaf,
}

impl Drop for Member {
    fn drop(self) {
        let Member {
            consts: _consts,
            base: _base,
            declarators: _declarators,
            semicolon: _semicolon,
        } = self;
    }
}

pub enum Body {
    /// `;`: there is none.
    Absent(Leaf),
    Block(Block),
}

impl Drop for Body {
    fn drop(self) {
        match self {
            Body::Absent(_semicolon) => {}
            Body::Block(_block) => {}
        }
    }
}

pub enum Item {
    /// `struct`, the tag, `{`, the members, `}`, what is declared, `;`.
    Struct(Leaf, Leaf, Leaf, Items<Member>, Leaf, Option<Chain<Declared>>, Leaf),
    /// Each `static` and `const`, the base, what is declared, `;`.
    Variables(Items<Leaf>, Base, Chain<Declared>, Leaf),
    /// Each `static`, `extern` and `const`, the base, the stars, the name, `(`, the parameters, `)`, the body.
    Function(Items<Leaf>, Base, Items<Star>, Leaf, Leaf, Params, Leaf, Body),
    /// A rule of a source.
    Meta(Leaf),
    /// A ghost variable of a woven text.
    Ghost(Leaf),
}

impl Drop for Item {
    fn drop(self) {
        match self {
            Item::Struct(_word, _tag, _opening, _members, _closing, _declared, _semicolon) => {}
            Item::Variables(_prefixes, _base, _declared, _semicolon) => {}
            Item::Function(_prefixes, _base, _stars, _name, _opening, _params, _closing, _body) =>
                {}
            Item::Meta(_annotation) => {}
            Item::Ghost(_annotation) => {}
        }
    }
}

pub struct ProgramTree {
    pub items: Items<Item>,
}

impl Drop for ProgramTree {
    fn drop(self) {
        let ProgramTree { items: _items } = self;
    }
}
