//! Statements (C11 6.8) and the declarations among them.

use crate::declaration::Declared;
use crate::types::Base;
use crate::whole::Expression;
use c_words::chain::Chain;
use c_words::word::Leaf;
use sqlite_items::{Boxed, Items};

/// A declaration in a function.
pub enum Local {
    /// Each `const`, the base, what is declared, `;`.
    Variables(Items<Leaf>, Base, Chain<Declared>, Leaf),
    /// `register`, the base, what is declared, `;`, in woven texts alone.
    Registers(Leaf, Base, Chain<Declared>, Leaf),
}

impl Drop for Local {
    fn drop(self) {
        match self {
            Local::Variables(_consts, _base, _all, _semicolon) => {}
            Local::Registers(_register, _base, _all, _semicolon) => {}
        }
    }
}

/// What stands before the first `;` of a `for`, with the `;`.
pub enum ForFirst {
    Local(Local),
    Expression(Option<Expression>, Leaf),
}

impl Drop for ForFirst {
    fn drop(self) {
        match self {
            ForFirst::Local(_local) => {}
            ForFirst::Expression(_value, _semicolon) => {}
        }
    }
}

#[cycle(statement)]
#[derive(Drop)]
pub enum Stmt {
    Empty(Leaf),
    Expression(Expression, Leaf),
    Block(Boxed<Block>),
    /// `if`, `(`, the condition, `)`, the statement.
    If(Leaf, Leaf, Expression, Leaf, Boxed<Stmt>),
    /// The same, and `else` and its statement.
    IfElse(Leaf, Leaf, Expression, Leaf, Boxed<Stmt>, Leaf, Boxed<Stmt>),
    /// `while`, `(`, the condition, `)`, the statement.
    While(Leaf, Leaf, Expression, Leaf, Boxed<Stmt>),
    /// `do`, the statement, `while`, `(`, the condition, `)`, `;`.
    Do(Leaf, Boxed<Stmt>, Leaf, Leaf, Expression, Leaf, Leaf),
    /// `for`, `(`, the first part, the condition, `;`, the step, `)`, the statement.
    For(Leaf, Leaf, ForFirst, Option<Expression>, Leaf, Option<Expression>, Leaf, Boxed<Stmt>),
    Break(Leaf, Leaf),
    Continue(Leaf, Leaf),
    Return(Leaf, Option<Expression>, Leaf),
    /// A ghost annotation of a woven text.
    Ghost(Leaf),
    /// An assertion of a woven text.
    Assert(Leaf),
}

#[cycle(statement)]
#[derive(Drop)]
pub struct Block {
    pub opening: Leaf,
    pub parts: Items<BlockPart>,
    pub closing: Leaf,
}

#[cycle(statement)]
#[derive(Drop)]
pub enum BlockPart {
    Local(Local),
    Stmt(Stmt),
}
