//! Laws on weaving hooks into the normal form of a source. It has no code.
#![tactic(auto)]

ghost use Rattle.woven_sources.specs.WovenSources.{WovenSourcesPrint, WovenSourcesSimulate};

use normal_laws::{
    normal_cores_have_blocks, normal_cores_return_registers, normal_cores_set_registers,
    normal_runs_agree, sources_have_source_code,
};
use normal_shapes::{normal_cores_are_formed, normal_cores_are_small};
use weaver_laws::{woven_cores_are_printable, woven_cores_simulate};

/// A source's core, and hooks that fit together for it: for every input and bound what comes of weaving the hooks into its
/// normal form has the end and the steps of the core, and the verdicts of each hooks' fold along these steps.
pub fn woven_sources_simulate()
    ensures { WovenSourcesSimulate }
{
    woven_cores_simulate();
    normal_cores_are_formed();
    normal_cores_have_blocks();
    normal_cores_set_registers();
    normal_runs_agree();
    sources_have_source_code();
}

/// It is well formed, in normal form, and small enough for its text to be read again.
pub fn woven_sources_are_printable()
    ensures { WovenSourcesPrint }
{
    woven_cores_are_printable();
    normal_cores_are_formed();
    normal_cores_have_blocks();
    normal_cores_return_registers();
    normal_cores_are_small();
}
