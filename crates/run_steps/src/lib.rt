//! The turns of the machine: what it makes of the part that it has before it, at what the part before has told.
#![tactic(auto)]

mod dispatch;
mod endings;
mod entries;
mod ready;
mod values;

pub use dispatch::turn;
pub use entries::enter;
