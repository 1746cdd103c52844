//! The nodes of normal forms: operands and targets, and the expressions and statements over them.
#![tactic(auto)]

mod expressions;
mod nodes;
mod operands;
mod statements;
mod types;

pub use expressions::{
    address, allocated, compared, computed, computed_from, converted, converted_part, difference,
    element_address, expression, integer_operator, loaded, member_address, moved, negated_value,
    output, place, released, truth_value,
};
pub use operands::{Operand, RegisterType, Target};
pub use statements::{
    break_from, choose, continue_from, evaluate, forever, leave, put_block, put_empty,
    return_value, set_to, store,
};
pub use types::{
    chosen_type, common_operand, copied, element_of, moved_type, object_type, operand_type,
    pointed, written,
};
