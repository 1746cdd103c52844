//! The meaning of a program of the C subset: its core tree, and in `specs/` its memory, steps, runs and predicates.
#![tactic(auto)]

mod expr;
mod integers;
mod laws;
mod letting_go;
mod parts;
mod pointers;
mod predicate;
mod program;
mod stmt;
mod text;
mod value;
mod view;

pub use expr::{Answer, CompareOp, Expr, IntOp, Place_, Side, UnaryOp, UpdateOp, Variable};
pub use integers::{convert, int_binary, int_unary};
pub use laws::{
    faults_halt, fits_bounded, flows_agree, folds_prefixes, outcome_is_computed, runs_are_traced,
    same_first_steps, strict_runs_agree, traced_prefixes, traced_sights_typed,
};
pub use parts::{ExprPart, ExprsPart, PlacePart, PredicatePart, StmtPart, StmtsPart, TermPart};
pub use pointers::{pointer_add, pointer_diff};
pub use predicate::{Event, EventKind, Location, Predicate, Term, TermPlace};
pub use program::{Core, Declared, Function, HookPlace, HookPoint, Hooks, Layout};
pub use stmt::{GhostStmt, Stmt, VerdictKind};
pub use text::Text;
pub use value::{Action, CType, Cell, IntKind, Name, NameKind, RunFault, Value};
pub use view::View;

#[cfg(test)]
mod tests;
