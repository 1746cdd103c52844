use crate::value::{CType, IntKind, NameKind};
use sqlite_items::{Boxed, Items};

/// A binary operator on integers (C11 6.5.5 to 6.5.7, 6.5.10 to 6.5.12).
#[derive(Clone, Copy, PartialEq, Eq)]
pub enum IntOp {
    /// `+`
    Add,
    /// `-`
    Sub,
    /// `*`
    Mul,
    /// `/`
    Div,
    /// `%`
    Rem,
    /// `<<`
    Shl,
    /// `>>`
    Shr,
    /// `&`
    And,
    /// `|`
    Or,
    /// `^`
    Xor,
}

/// A unary operator on integers (C11 6.5.3.3). Unary plus leaves nothing in a core.
#[derive(Clone, Copy, PartialEq, Eq)]
pub enum UnaryOp {
    /// `-`
    Neg,
    /// `~`
    Invert,
}

/// A relational or equality operator (C11 6.5.8, 6.5.9).
#[derive(Clone, Copy, PartialEq, Eq)]
pub enum CompareOp {
    /// `==`
    Equal,
    /// `!=`
    Unequal,
    /// `<`
    Less,
    /// `<=`
    LessEqual,
    /// `>`
    Greater,
    /// `>=`
    GreaterEqual,
}

/// A variable in the text, by its number among those of its kind.
#[derive(Clone, Copy, PartialEq, Eq)]
pub struct Variable {
    /// What the variable is.
    pub kind: NameKind,
    /// Its number from 0, in the program or in its function.
    pub index: u32,
}

/// How a pointer and an integer stand in an addition or subtraction (C11 6.5.6).
#[derive(Clone, Copy, PartialEq, Eq)]
pub enum Side {
    /// pointer `+` integer
    PointerFirst,
    /// integer `+` pointer
    PointerLast,
    /// pointer `-` integer
    Minus,
}

/// The operation of a compound assignment, `++` or `--` (C11 6.5.16.2, 6.5.2.4, 6.5.3.1).
#[derive(Clone, Copy, PartialEq, Eq)]
pub enum UpdateOp {
    /// On integers, computed in the kind.
    Integer(IntOp, IntKind),
    /// A pointer goes forward by elements of so many cells.
    Forward(u32),
    /// A pointer goes back by elements of so many cells.
    Backward(u32),
}

/// Which value a compound assignment, `++` or `--` has.
#[derive(Clone, Copy, PartialEq, Eq)]
pub enum Answer {
    /// That before it: postfix `++` and `--`.
    Before,
    /// That after it: all others.
    After,
}

/// An lvalue (C11 6.3.2.1). Offsets and sizes count cells.
#[cycle(expr)]
#[derive(Drop)]
pub enum Place_ {
    /// A variable.
    Own(Variable),
    /// `*e`, and with a `Member` around it `e->m` (C11 6.5.3.2, 6.5.2.3).
    Deref(Boxed<Expr>),
    /// The member at the offset, `p.m` (C11 6.5.2.3).
    Member(Boxed<Place_>, u32),
    /// The element of an array, `a[e]`; the number is the element's size (C11 6.5.2.1).
    Index(Boxed<Place_>, Boxed<Expr>, u32),
}

/// An expression with all its conversions written out (C11 6.5, 6.3).
#[cycle(expr)]
#[derive(Drop)]
pub enum Expr {
    /// An integer constant of the kind (C11 6.4.4).
    Literal(IntKind, i128),
    /// A null pointer constant as a pointer (C11 6.3.2.3).
    Null,
    /// The value at the place, of this scalar type (C11 6.3.2.1).
    Load(Place_, CType),
    /// The address of the place, a pointer to this type: `&`, or an array as a value (C11 6.5.3.2, 6.3.2.1).
    Address(Place_, CType),
    /// An integer brought to the kind (C11 6.3.1.3).
    Convert(IntKind, Boxed<Expr>),
    /// A unary operator in the kind (C11 6.5.3.3).
    Unary(UnaryOp, IntKind, Boxed<Expr>),
    /// A binary operator in the kind (C11 6.5.5 to 6.5.7, 6.5.10 to 6.5.12).
    Binary(IntOp, IntKind, Boxed<Expr>, Boxed<Expr>),
    /// A comparison of integers or of pointers (C11 6.5.8, 6.5.9).
    Compare(CompareOp, Boxed<Expr>, Boxed<Expr>),
    /// A pointer moved by elements of so many cells; the operands stand as in the text (C11 6.5.6).
    Move(Boxed<Expr>, Boxed<Expr>, u32, Side),
    /// The difference of two pointers in elements of so many cells (C11 6.5.6).
    Difference(Boxed<Expr>, Boxed<Expr>, u32),
    /// `!` (C11 6.5.3.3).
    Not(Boxed<Expr>),
    /// `&&` (C11 6.5.13).
    Both(Boxed<Expr>, Boxed<Expr>),
    /// `||` (C11 6.5.14).
    Either(Boxed<Expr>, Boxed<Expr>),
    /// `? :` (C11 6.5.15).
    Choose(Boxed<Expr>, Boxed<Expr>, Boxed<Expr>),
    /// `=`, at a place of this type (C11 6.5.16.1).
    Assign(Place_, CType, Boxed<Expr>),
    /// A compound assignment, `++` or `--`, at a place of this type (C11 6.5.16.2).
    Update(Place_, CType, UpdateOp, Boxed<Expr>, Answer),
    /// A call of the function with this number, which has a body (C11 6.5.2.2).
    Invoke(u32, Items<Expr>),
    /// `getchar()` (C11 7.21.7.6).
    GetChar,
    /// `putchar(e)` (C11 7.21.7.8).
    PutChar(Boxed<Expr>),
    /// `malloc(e * sizeof(T))`: a new block for so many objects of the type, with the count as an `unsigned long` (C11 7.22.3.4).
    Malloc(Boxed<Expr>, CType),
    /// `free(e)` (C11 7.22.3.3).
    Free(Boxed<Expr>),
    /// A cast to `void` (C11 6.5.4).
    Discard(Boxed<Expr>),
}
