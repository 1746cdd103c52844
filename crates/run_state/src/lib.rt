//! The state of the machine that runs programs: what is to be done, what was told, who acts, and what is kept in memory and registers.
#![tactic(auto)]

mod machine;
mod registers;
mod stack;
mod values;
mod work;

pub use machine::{Machine, Waiting, designated};
pub use registers::{Register, Registers};
pub use stack::Stack;
pub use values::{integer, truth, truth_value};
pub use work::{
    Access, Awaiting, Designation, Left, Located, Operand, Selection, Stage, Told, Work,
};
