//! The typing rules of C: in `specs/` what core a tree stands for, or the first rule that it breaks; faults, operands, and the judgements on types.
#![tactic(auto)]

pub mod fault;
pub mod judgement;
pub mod operand;
pub mod spelling;
