//! What the operations of a postfix form make, one after another, as definitions; and the law that a form makes what its tree stands for.
#![tactic(auto)]

mod laws;

pub use laws::forms_make_meanings;
