ghost use Rattle.normal_laws.specs.Agreement.{NormalAgrees, NormalRunsAgree, NormalSetsRegisters, SourcesHaveSourceCode};
ghost use Rattle.normal_laws.specs.Shape.{NormalHasBlocks, NormalKeepsProgram, NormalReturnsRegisters};

use step_meaning::strict_runs_agree;

/// The core of a source names variables of file scope and locals alone in its code, has no annotation, initialises cells of
/// its locals, and its `main` gives back an `int`: what the laws on runs ask of a core.
pub fn sources_have_source_code()
    ensures { SourcesHaveSourceCode }
{}

/// The normal form of a source's core has the runs of the core: for every input and bound the same items, with the same
/// numbers of functions, and the same end.
pub fn normal_runs_agree()
    ensures { NormalRunsAgree }
{}

/// So it agrees with the core in what their runs show outside.
pub fn normal_cores_agree()
    ensures { NormalAgrees }
{}

/// No run of the normal form of a source's core uses a register that holds nothing, nor one at another type than its own.
pub fn normal_cores_set_registers()
    ensures { NormalSetsRegisters }
{
    strict_runs_agree();
}

/// Each `return` with a value in a normal form returns a register of the type of its function's result.
pub fn normal_cores_return_registers()
    ensures { NormalReturnsRegisters }
{}

/// Each branch and each body of a loop in a normal form is a block, and it has no ghost code and no assertion.
pub fn normal_cores_have_blocks()
    ensures { NormalHasBlocks }
{}

/// A normal form keeps the structs, the variables of file scope with their initial values, the number of `main`, and of
/// each function its number, name, result, parameters and locals, and whether it has a body.
pub fn normal_cores_keep_programs()
    ensures { NormalKeepsProgram }
{}
