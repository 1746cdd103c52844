//! Reading of declarators, initialisers and parameters.
#![tactic(auto)]

pub mod bracket;
pub mod declarator;
pub mod declared;
mod deepest;
pub mod exactness;
pub mod init;
pub mod parameter;
pub mod sizes;
