//! Expressions (C11 6.5). A level of binary operators is a chain of the next level.

use crate::types::TypeName;
use c_words::chain::Chain;
use c_words::word::Leaf;
use sqlite_items::{Boxed, Items};

pub type Expr = Assign;

#[cycle(expression)]
#[derive(Drop)]
pub enum Assign {
    Choice(Choice),
    /// The left side, `=` or `op=`, and the right side.
    Assign(Unary, Leaf, Boxed<Assign>),
}

#[cycle(expression)]
#[derive(Drop)]
pub enum Choice {
    /// In a box, so that an expression is small to move.
    Or(Boxed<Or>),
    /// A condition, `?`, the second part, `:` and the third part.
    Choose(Boxed<Or>, Leaf, Boxed<Assign>, Leaf, Boxed<Choice>),
}

#[cycle(expression)]
#[derive(Drop)]
pub struct Or(pub Chain<And>);

#[cycle(expression)]
#[derive(Drop)]
pub struct And(pub Chain<BitOr>);

#[cycle(expression)]
#[derive(Drop)]
pub struct BitOr(pub Chain<BitXor>);

#[cycle(expression)]
#[derive(Drop)]
pub struct BitXor(pub Chain<BitAnd>);

#[cycle(expression)]
#[derive(Drop)]
pub struct BitAnd(pub Chain<Equal>);

#[cycle(expression)]
#[derive(Drop)]
pub struct Equal(pub Chain<Relation>);

#[cycle(expression)]
#[derive(Drop)]
pub struct Relation(pub Chain<Shift>);

#[cycle(expression)]
#[derive(Drop)]
pub struct Shift(pub Chain<Sum>);

#[cycle(expression)]
#[derive(Drop)]
pub struct Sum(pub Chain<Product>);

#[cycle(expression)]
#[derive(Drop)]
pub struct Product(pub Chain<Unary>);

#[cycle(expression)]
#[derive(Drop)]
pub enum Unary {
    Postfix(Postfix),
    /// `++`, `--`, `&`, `*`, `+`, `-`, `~` or `!`, and its operand.
    Prefix(Leaf, Boxed<Unary>),
    /// `(`, a type, `)` and the operand.
    Cast(Leaf, Boxed<TypeName>, Leaf, Boxed<Unary>),
    /// `sizeof` and its operand, which is no cast (C11 6.5.3.4).
    SizeOf(Leaf, Boxed<Unary>),
    /// `sizeof`, `(`, a type, `)`.
    SizeOfType(Leaf, Leaf, Boxed<TypeName>, Leaf),
}

#[cycle(expression)]
#[derive(Drop)]
pub struct Postfix {
    pub primary: Primary,
    pub suffixes: Items<Suffix>,
}

#[cycle(expression)]
#[derive(Drop)]
pub enum Suffix {
    /// `[`, an index, `]`.
    Index(Leaf, Boxed<Assign>, Leaf),
    /// `.` and a member.
    Member(Leaf, Leaf),
    /// `->` and a member.
    Arrow(Leaf, Leaf),
    Increment(Leaf),
    Decrement(Leaf),
}

#[cycle(expression)]
#[derive(Drop)]
pub enum Primary {
    Name(Leaf),
    /// A function's name, `(`, the arguments, `)`.
    Call(Leaf, Leaf, Option<Boxed<Chain<Assign>>>, Leaf),
    Number(Leaf),
    Character(Leaf),
    Paren(Leaf, Boxed<Assign>, Leaf),
}
