//! The typing rules of C: the core that a tree stands for, or the first broken rule (C11 6.2 to 6.9).
#![tactic(auto)]

mod bodies;
mod elaboration;
mod items;
mod library;
mod whole;

pub use elaboration::elaborate;
