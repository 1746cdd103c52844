use step_meaning::{CType, IntKind, Variable};

/// The type of an operand or a register. Each is `void`, an integer type, a type that stands in the source, or a pointer to
/// one. A program that breaks no rule has no register of type `void`, and no pointer to nothing but null.
#[derive(Clone, Copy)]
pub enum RegisterType<'a> {
    /// `void`.
    Void,
    /// An integer of the kind.
    Int(IntKind),
    /// A type of the source.
    Of(&'a CType),
    /// A pointer to a type of the source, or to `void`.
    To(Option<&'a CType>),
}

/// What stands for a value.
#[derive(Clone, Copy)]
pub enum Operand<'a> {
    /// A number.
    Number(IntKind, i128),
    /// Null.
    Null,
    /// A register, by its number, with its type.
    Held(u32, RegisterType<'a>),
    /// Nothing, for an expression of type `void`.
    Absent,
}

/// What stands for an lvalue.
#[derive(Clone, Copy)]
pub enum Target<'a> {
    /// A variable.
    Named(Variable),
    /// What the operand points to.
    Pointed(Operand<'a>),
}
