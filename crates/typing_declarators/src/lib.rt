//! Declarators: the types that they give to names, and the rules on a declared name (C11 6.7.6, 6.2.5).
#![tactic(auto)]

pub mod declared_name;
pub mod element_count;
pub mod layer;
pub mod modifiers;
pub mod name;
pub mod object_type;
