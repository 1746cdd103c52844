//! What the rules of C on objects make, in code: assignments, elements, members, and blocks of the heap (C11 6.5.2, 6.5.16, 7.22.3). Parts go in, and parts come out.
#![tactic(auto)]

pub mod allocated_type;
pub mod allocation;
pub mod assignment;
pub mod member;
pub mod subobject;
