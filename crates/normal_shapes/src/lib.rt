//! Laws on the form of normal forms: they are well formed, normal and small. It has no code.
#![tactic(auto)]

ghost use Rattle.normal_shapes.specs.Form.{NormalIsFormed, NormalIsSmall};

/// The normal form of a source's core is well formed and in normal form.
pub fn normal_cores_are_formed()
    ensures { NormalIsFormed }
{}

/// Its expressions have at most 1,200 nodes and depth 64, its statements nest at most 500 deep, each of its branches and
/// bodies of loops is a block, and its types nest at most 100 deep.
pub fn normal_cores_are_small()
    ensures { NormalIsSmall }
{}
