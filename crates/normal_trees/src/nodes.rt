//! One node over parts.

ghost use Rattle.std.specs.Prelude.{◌≡◌};
ghost use Rattle.normal_laws.specs.NormalForm as form;

use sqlite_items::Boxed;
use step_meaning::{
    CType, CompareOp, Expr, ExprPart, IntKind, IntOp, NameKind, Place_, PlacePart, Side, Stmt,
    StmtPart, UnaryOp, Variable,
};

/// The register with this number, as an lvalue.
pub fn register(index: u32) -> Place_
    ensures { result ≡ form.register index }
{
    Place_::Own(Variable {
        kind: NameKind::Register,
        index,
    })
}

/// A pointer to the type.
pub fn pointer_to(inner: Boxed<CType>) -> CType
    ensures { result ≡ form.pointer_to inner }
{
    CType::Pointer(inner)
}

/// A conversion.
pub fn convert(kind: IntKind, value: ExprPart) -> Expr
    ensures { result ≡ form.convert kind value }
{
    Expr::Convert(kind, value.into_boxed())
}

/// A unary operator.
pub fn unary(op: UnaryOp, kind: IntKind, value: ExprPart) -> Expr
    ensures { result ≡ form.unary op kind value }
{
    Expr::Unary(op, kind, value.into_boxed())
}

/// A binary operator.
pub fn binary(op: IntOp, kind: IntKind, left: ExprPart, right: ExprPart) -> Expr
    ensures { result ≡ form.binary op kind left right }
{
    Expr::Binary(op, kind, left.into_boxed(), right.into_boxed())
}

/// A comparison.
pub fn compare(op: CompareOp, left: ExprPart, right: ExprPart) -> Expr
    ensures { result ≡ form.compare op left right }
{
    Expr::Compare(op, left.into_boxed(), right.into_boxed())
}

/// A pointer and an integer added or subtracted.
pub fn shift(left: ExprPart, right: ExprPart, size: u32, side: Side) -> Expr
    ensures { result ≡ form.move left right size side }
{
    Expr::Move(left.into_boxed(), right.into_boxed(), size, side)
}

/// The difference of two pointers.
pub fn subtract(left: ExprPart, right: ExprPart, unit: u32) -> Expr
    ensures { result ≡ form.difference left right unit }
{
    Expr::Difference(left.into_boxed(), right.into_boxed(), unit)
}

/// A negation.
pub fn negate(value: ExprPart) -> Expr
    ensures { result ≡ form.negated value }
{
    Expr::Not(value.into_boxed())
}

/// A call of `putchar`.
pub fn put_char(value: ExprPart) -> Expr
    ensures { result ≡ form.put_char value }
{
    Expr::PutChar(value.into_boxed())
}

/// A call of `malloc`.
pub fn allocate(ctype: CType, count: ExprPart) -> Expr
    ensures { result ≡ form.allocated ctype count }
{
    Expr::Malloc(count.into_boxed(), ctype)
}

/// A call of `free`.
pub fn release(value: ExprPart) -> Expr
    ensures { result ≡ form.released value }
{
    Expr::Free(value.into_boxed())
}

/// What a pointer points to.
pub fn deref(pointer: ExprPart) -> Place_
    ensures { result ≡ form.deref pointer }
{
    Place_::Deref(pointer.into_boxed())
}

/// A member of a struct.
pub fn member(object: PlacePart, offset: u32) -> Place_
    ensures { result ≡ form.member object offset }
{
    Place_::Member(object.into_boxed(), offset)
}

/// An element of an array.
pub fn element(array: PlacePart, index: ExprPart, size: u32) -> Place_
    ensures { result ≡ form.index array index size }
{
    Place_::Index(array.into_boxed(), index.into_boxed(), size)
}

/// An assignment as a statement.
pub fn assign(place: PlacePart, ctype: CType, value: ExprPart) -> Stmt
    ensures { result ≡ form.assign place ctype value }
{
    Stmt::Eval(Expr::Assign(place.into_boxed().into_inner(), ctype, value.into_boxed()))
}

/// `if` over two statements.
pub fn branch(test: ExprPart, yes: StmtPart, no: StmtPart) -> Stmt
    ensures { result ≡ form.choice_of test yes no }
{
    Stmt::If(
        test.into_boxed().into_inner(),
        yes.into_boxed(),
        no.into_boxed(),
    )
}

/// `while (1)`.
pub fn repeat(body: StmtPart) -> Stmt
    ensures { result ≡ form.repeat_of body }
{
    Stmt::While(Expr::Literal(IntKind::Int, 1), body.into_boxed())
}
