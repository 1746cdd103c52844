//! What is still to be done of a run.
use step_meaning::{
    Answer, CType, CompareOp, Expr, IntKind, IntOp, Place_, RunFault, Side, Stmt, UnaryOp,
    UpdateOp, Value,
};

/// What an lvalue designates: a register of the activation, or the object at a pointer.
#[derive(Clone, Copy)]
pub enum Located {
    /// The register with this number.
    Register(u32),
    /// The object at the pointer.
    At(Value),
}

/// How a statement was left (C11 6.8.6).
#[derive(Clone, Copy)]
pub enum Left {
    /// At its end.
    Next,
    /// By `break`.
    Broken,
    /// By `continue`.
    Continued,
    /// By `return`.
    Returned(Option<Value>),
}

/// What the part before has told.
#[derive(Clone, Copy)]
pub enum Told {
    /// A value.
    Gave(Value),
    /// What an lvalue designates.
    Found(Located),
    /// How a statement was left.
    Left(Left),
}

/// An operator whose second operand is to come.
#[derive(Clone, Copy)]
pub enum Awaiting {
    /// An operator on integers.
    Binary(IntOp, IntKind),
    /// A comparison.
    Compare(CompareOp),
    /// `&&`
    Both,
    /// `||`
    Either,
    /// A pointer and an integer in elements of so many cells.
    Move(u32, Side),
    /// A difference of pointers in units of so many cells.
    Difference(u32),
}

/// Waits for a value, and gives one.
#[derive(Clone, Copy)]
pub enum Operand<'a> {
    /// Brings it to the kind.
    Convert(IntKind),
    /// Applies the operator.
    Unary(UnaryOp, IntKind),
    /// The first operand is there, the second one to come.
    Right(Awaiting, &'a Expr),
    /// The second operand is there too.
    BinaryNow(IntOp, IntKind, Value),
    /// Both operands of a comparison are.
    CompareNow(CompareOp, Value),
    /// `!`
    Negated,
    /// Its truth as a number.
    Truth,
    /// `? :`
    Choose(&'a Expr, &'a Expr),
    /// A cast to `void`.
    Discard,
    /// A pointer and an integer in elements of so many cells are both there.
    MoveNow(u32, Side, Value),
    /// Both pointers of a difference in units of so many cells are.
    DifferenceNow(u32, Value),
    /// Writes it.
    Store(&'a CType, Located),
    /// A compound assignment: the old value of the place is there.
    UpdateRight(&'a CType, UpdateOp, &'a Expr, Answer, Located),
    /// Both values are there.
    UpdateNow(&'a CType, UpdateOp, Answer, Located, Value),
    /// This value in place of the one that was given.
    Instead(Value),
    /// `malloc` of so many objects of the type.
    Allocate(&'a CType),
    /// `free`
    Release,
}

/// Waits for what an lvalue designates, and gives a value.
#[derive(Clone, Copy)]
pub enum Access<'a> {
    /// Reads it.
    LoadAt(&'a CType),
    /// Its address.
    AddressOf,
    /// The right side is to come, and then it is written.
    AssignRight(&'a CType, &'a Expr),
    /// A compound assignment: the old value is read, then the right side is to come.
    UpdateOld(&'a CType, UpdateOp, &'a Expr, Answer),
}

/// Waits for what an lvalue designates, and gives what a part of it designates.
#[derive(Clone, Copy)]
pub enum Selection<'a> {
    /// The member after so many cells.
    MemberAt(u32),
    /// The element of so many cells with this index, which is to come.
    ElementAt(&'a Expr, u32),
}

/// Waits for a value, and gives what an lvalue designates.
#[derive(Clone, Copy)]
pub enum Designation {
    /// `*` of a pointer.
    Dereference,
    /// The element of so many cells with this index.
    ElementNow(Located, u32),
}

/// How far a statement has come.
#[derive(Clone, Copy)]
pub enum Stage {
    /// It is to come.
    Execute,
    /// The value of its expression is to come.
    Conclude,
    /// The statements of a block from this one on.
    Rest(usize),
    /// A loop, at its start or after a turn.
    Again,
    /// What ends a turn of a loop.
    TurnEnd,
}

/// A pending part.
#[derive(Clone, Copy)]
pub enum Work<'a> {
    /// An expression.
    Evaluate(&'a Expr),
    /// An lvalue.
    Locate(&'a Place_),
    /// A statement at a stage.
    Statement(Stage, &'a Stmt),
    /// The statements of the function's body from this one on.
    Body(u32, usize),
    /// An operator on a value.
    Operate(Operand<'a>),
    /// An access to what an lvalue designates.
    Accessed(Access<'a>),
    /// A part of what an lvalue designates.
    Select(Selection<'a>),
    /// What a value designates.
    Designate(Designation),
    /// A value that isn't used.
    Ignore,
    /// `getchar`
    Input,
    /// `putchar`
    Output,
    /// The arguments of a call, of which so many have been evaluated.
    Arguments(u32, &'a [Expr], usize),
    /// The same, where one is being evaluated.
    Argument(u32, &'a [Expr], usize),
    /// The start of an activation with so many arguments.
    Enter(u32, usize),
    /// The end of an activation.
    Leave(u32, &'a CType),
    /// A fault that is due.
    Halt(RunFault),
    /// The run is over by the fault.
    Over(RunFault),
}
