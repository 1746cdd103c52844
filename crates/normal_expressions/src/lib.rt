//! Expressions, lvalues and arguments in normal form: the statements that make their values, and the registers that these
//! take. Code goes to the end of what is there.
#![tactic(auto)]

mod expressions;
mod objects;
mod registers;
mod scope;
mod steps;

pub use expressions::{expression_code, place_code};
pub use objects::object;
pub use registers::{Registers, set};
pub use scope::{Place, Scope};
pub use steps::{element_part, member_part};
