//! Laws on the typing rules: what elaboration gives is small enough to be counted in 32 bits.
#![tactic(auto)]

ghost use Rattle.typing_laws.specs.SmallPrograms.{ProgramsAreSmall};
ghost use Rattle.typing_laws.specs.Soundness.{CoresAreFormed, CoresAreSources};
ghost use Rattle.typing_laws.specs.SmallTypes.{OperandsAreSmall};

/// Where the names in view have small types and the structs are small, so has each operand of an expression.
pub fn operands_are_small()
    ensures { OperandsAreSmall }
{}

/// What the next item of a text sees is small, wherever no rule was broken before it.
pub fn programs_are_small()
    ensures { ProgramsAreSmall }
{}

/// The core of a parsed text that breaks no rule is well formed.
pub fn cores_are_formed()
    ensures { CoresAreFormed }
{}

/// That of a parsed text of a source, which nests at most 64 deep, is the core of a source.
pub fn cores_are_sources()
    ensures { CoresAreSources }
{}
