//! Concrete trees of C, and their reader. The first form stands in a folder of its own.
#![tactic(auto)]

mod first_form;
mod item;
mod look;
mod program;

pub use c_grammar::program::ProgramTree;
pub use c_words::fault::ParseFault;
pub use c_words::word::Mode;
pub use first_form::{FirstFunction, FirstProperty, FirstStmt, FirstTree, first_tree, one_program};
pub use program::{one_tree, parse_program};
