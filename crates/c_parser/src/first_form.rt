//! The first form: the trees of its texts, and their reader.

mod fault;
mod fixed;
mod lexeme;
mod names;
mod reader;
mod scope;
mod statement;
mod text;
mod tree;

pub use text::{first_tree, one_program};
pub use tree::{FirstFunction, FirstProperty, FirstStmt, FirstTree};
