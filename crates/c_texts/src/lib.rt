//! From the bytes of a text to its core (C11 6.4 to 6.9).
#![tactic(auto)]

mod fault;
mod text;

pub use fault::TextFault;
pub use text::core_of_text;
