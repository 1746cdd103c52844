use crate::expr::{Expr, Variable};
use crate::predicate::{Predicate, Term};
use crate::value::CType;
use sqlite_items::{Boxed, Items};

/// What a verdict is about.
#[derive(Clone, Copy, PartialEq, Eq)]
pub enum VerdictKind {
    /// The monitor is met so far.
    Safe,
    /// The automaton accepts.
    Accept,
}

/// Ghost code (ACSL, ghost variables and statements).
#[derive(Drop)]
pub enum GhostStmt {
    /// The ghost variable takes the value of the term.
    Set(Variable, Term),
    /// `if` over a predicate, with both branches.
    When(Predicate, Items<GhostStmt>, Items<GhostStmt>),
}

/// A statement (C11 6.8).
#[derive(Drop)]
pub enum Stmt {
    /// The null statement, and a declaration without initialiser (C11 6.8.3, 6.8.2).
    Empty,
    /// An expression statement (C11 6.8.3).
    Eval(Expr),
    /// One cell of a local's initialiser: the cell at the offset, of this type (C11 6.7.9).
    Init(Variable, u32, CType, Expr),
    /// A compound statement (C11 6.8.2).
    Block(Items<Stmt>),
    /// `if`, with an empty second part where the text has none (C11 6.8.4.1).
    If(Expr, Boxed<Stmt>, Boxed<Stmt>),
    /// `while` (C11 6.8.5.1).
    While(Expr, Boxed<Stmt>),
    /// `do` (C11 6.8.5.2).
    Do(Boxed<Stmt>, Expr),
    /// `for`: its test and its step; the first part stands before it (C11 6.8.5.3).
    For(Option<Expr>, Option<Expr>, Boxed<Stmt>),
    /// `break` (C11 6.8.6.3).
    Break,
    /// `continue` (C11 6.8.6.2).
    Continue,
    /// `return` (C11 6.8.6.4).
    Return(Option<Expr>),
    /// Ghost code.
    Ghost(GhostStmt),
    /// An assertion, whose truth is a verdict of the monitor with this number (ACSL, assertions).
    Assert(VerdictKind, u32, Predicate),
}
