//! The normal form of a core, as a definition in `specs/`, and the laws on it. It has no code.
#![tactic(auto)]

mod laws;

pub use laws::{
    normal_cores_agree, normal_cores_have_blocks, normal_cores_keep_programs,
    normal_cores_return_registers, normal_cores_set_registers, normal_runs_agree,
    sources_have_source_code,
};
