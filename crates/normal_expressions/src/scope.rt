use normal_trees::Target;
use step_meaning::{CType, Core, Function};

/// The function whose code is made, in its program.
#[derive(Clone, Copy)]
pub struct Scope<'a> {
    /// The program.
    pub core: &'a Core,
    /// The function.
    pub function: &'a Function,
}

/// What stands for an lvalue, with the type of its object.
#[derive(Clone, Copy)]
pub struct Place<'a> {
    /// What stands for it.
    pub target: Target<'a>,
    /// The type of the object, where it is known.
    pub object: Option<&'a CType>,
}
