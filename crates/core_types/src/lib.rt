//! What every layer needs of the types of a core: when two are the same, how many cells an object has, and the members of structs. Nothing here takes memory.
#![tactic(auto)]

mod laws;
mod members;
mod sizes;
mod types;

pub use laws::{earlier_cells, member_types, same_types};
pub use members::{element_type, member_named, member_offset, member_type};
pub use sizes::cells;
pub use types::same_type;
