//! Expressions over operands and targets. An error is want of memory.

ghost use Rattle.std.specs.Prelude.{◌≡◌, IfOk};
ghost use Rattle.normal_laws.specs.NormalForm as form;
ghost use Rattle.normal_trees.specs.Operands.{object_of, operand_of, target_of};

use crate::nodes::{
    allocate, binary, compare, convert, deref, element, member, negate, put_char, register,
    release, shift, subtract, unary,
};
use crate::operands::{Operand, Target};
use crate::types::{copied, object_type, written};
use std::alloc::{AllocError, Global};
use step_meaning::{
    CType, CompareOp, Expr, ExprPart, IntKind, IntOp, Place_, PlacePart, Side, UnaryOp,
};

/// An operand as an expression.
pub fn expression(alloc: Global, a: Operand<'_>) -> Result<ExprPart, AllocError>
    ensures { IfOk result (λ e. e ≡ form.expression_of (operand_of a.entry)) }
{
    match a {
        Operand::Number(kind, value) => ExprPart::new(alloc, Expr::Literal(kind, value)),
        Operand::Null => ExprPart::new(alloc, Expr::Null),
        Operand::Held(index, ctype) => {
            let ctype = written(alloc, ctype)?;
            ExprPart::new(alloc, Expr::Load(register(index), ctype))
        }
        Operand::Absent => ExprPart::new(alloc, Expr::Literal(IntKind::Int, 0)),
    }
}

/// A conversion of a value.
pub fn converted_part(alloc: Global, kind: IntKind, value: ExprPart) -> Result<ExprPart, AllocError>
    ensures { IfOk result (λ e. e ≡ form.convert kind value) }
{
    ExprPart::new(alloc, convert(kind, value))
}

/// A conversion of an operand.
pub fn converted(alloc: Global, kind: IntKind, a: Operand<'_>) -> Result<ExprPart, AllocError>
    ensures { IfOk result (λ e. e ≡ form.convert kind (form.expression_of (operand_of a.entry))) }
{
    let value = expression(alloc, a)?;
    converted_part(alloc, kind, value)
}

/// A unary operator on an operand.
pub fn integer_operator(
    alloc: Global,
    op: UnaryOp,
    kind: IntKind,
    a: Operand<'_>,
) -> Result<ExprPart, AllocError>
    ensures { IfOk result (λ e. e ≡ form.unary op kind (form.expression_of (operand_of a.entry))) }
{
    let value = expression(alloc, a)?;
    ExprPart::new(alloc, unary(op, kind, value))
}

/// A binary operator on a value and an operand.
pub fn computed_from(
    alloc: Global,
    op: IntOp,
    kind: IntKind,
    left: ExprPart,
    b: Operand<'_>,
) -> Result<ExprPart, AllocError>
    ensures { IfOk result (λ e. e ≡ form.binary op kind left (form.expression_of (operand_of b.entry))) }
{
    let right = expression(alloc, b)?;
    ExprPart::new(alloc, binary(op, kind, left, right))
}

/// A binary operator on operands.
pub fn computed(
    alloc: Global,
    op: IntOp,
    kind: IntKind,
    a: Operand<'_>,
    b: Operand<'_>,
) -> Result<ExprPart, AllocError>
    ensures { IfOk result (λ e. e ≡ form.binary op kind (form.expression_of (operand_of a.entry)) (form.expression_of (operand_of b.entry))) }
{
    let left = expression(alloc, a)?;
    computed_from(alloc, op, kind, left, b)
}

/// A comparison of operands.
pub fn compared(
    alloc: Global,
    op: CompareOp,
    a: Operand<'_>,
    b: Operand<'_>,
) -> Result<ExprPart, AllocError>
    ensures { IfOk result (λ e. e ≡ form.compare op (form.expression_of (operand_of a.entry)) (form.expression_of (operand_of b.entry))) }
{
    let left = expression(alloc, a)?;
    let right = expression(alloc, b)?;
    ExprPart::new(alloc, compare(op, left, right))
}

/// A pointer moved by an integer, as the operands stand.
pub fn moved(
    alloc: Global,
    a: Operand<'_>,
    b: Operand<'_>,
    size: u32,
    side: Side,
) -> Result<ExprPart, AllocError>
    ensures { IfOk result (λ e. e ≡ form.move (form.expression_of (operand_of a.entry)) (form.expression_of (operand_of b.entry)) size side) }
{
    let left = expression(alloc, a)?;
    let right = expression(alloc, b)?;
    ExprPart::new(alloc, shift(left, right, size, side))
}

/// The difference of two pointers.
pub fn difference(
    alloc: Global,
    a: Operand<'_>,
    b: Operand<'_>,
    unit: u32,
) -> Result<ExprPart, AllocError>
    ensures { IfOk result (λ e. e ≡ form.difference (form.expression_of (operand_of a.entry)) (form.expression_of (operand_of b.entry)) unit) }
{
    let left = expression(alloc, a)?;
    let right = expression(alloc, b)?;
    ExprPart::new(alloc, subtract(left, right, unit))
}

/// The negation of an operand.
pub fn negated_value(alloc: Global, a: Operand<'_>) -> Result<ExprPart, AllocError>
    ensures { IfOk result (λ e. e ≡ form.negated (form.expression_of (operand_of a.entry))) }
{
    let value = expression(alloc, a)?;
    ExprPart::new(alloc, negate(value))
}

/// 1 where the operand holds as a condition, 0 elsewhere.
pub fn truth_value(alloc: Global, a: Operand<'_>) -> Result<ExprPart, AllocError>
    ensures { IfOk result (λ e. e ≡ form.as_truth_value (form.expression_of (operand_of a.entry))) }
{
    let opposite = negated_value(alloc, a)?;
    ExprPart::new(alloc, negate(opposite))
}

/// A call of `putchar` with an operand.
pub fn output(alloc: Global, a: Operand<'_>) -> Result<ExprPart, AllocError>
    ensures { IfOk result (λ e. e ≡ form.put_char (form.expression_of (operand_of a.entry))) }
{
    let value = expression(alloc, a)?;
    ExprPart::new(alloc, put_char(value))
}

/// A call of `malloc` for so many objects of the type.
pub fn allocated(alloc: Global, ctype: &CType, a: Operand<'_>) -> Result<ExprPart, AllocError>
    ensures { IfOk result (λ e. e ≡ form.allocated ctype.now (form.expression_of (operand_of a.entry))) }
{
    let count = expression(alloc, a)?;
    let ctype = copied(alloc, ctype)?;
    ExprPart::new(alloc, allocate(ctype, count))
}

/// A call of `free` with an operand.
pub fn released(alloc: Global, a: Operand<'_>) -> Result<ExprPart, AllocError>
    ensures { IfOk result (λ e. e ≡ form.released (form.expression_of (operand_of a.entry))) }
{
    let value = expression(alloc, a)?;
    ExprPart::new(alloc, release(value))
}

// ---- lvalues

/// A target as an lvalue.
pub fn place(alloc: Global, target: Target<'_>) -> Result<PlacePart, AllocError>
    ensures { IfOk result (λ p. p ≡ form.place_of (target_of target.entry)) }
{
    match target {
        Target::Named(variable) => PlacePart::new(alloc, Place_::Own(variable)),
        Target::Pointed(pointer) => {
            let pointer = expression(alloc, pointer)?;
            PlacePart::new(alloc, deref(pointer))
        }
    }
}

/// The value at a target, of this type.
pub fn loaded(alloc: Global, target: Target<'_>, ctype: &CType) -> Result<ExprPart, AllocError>
    ensures { IfOk result (λ e. e ≡ form.load_of (form.place_of (target_of target.entry)) ctype.now) }
{
    let place = place(alloc, target)?;
    let ctype = copied(alloc, ctype)?;
    ExprPart::new(alloc, Expr::Load(place.into_boxed().into_inner(), ctype))
}

/// The address of an lvalue, a pointer to this type.
fn address_of(
    alloc: Global,
    place: PlacePart,
    object: Option<&CType>,
) -> Result<ExprPart, AllocError>
    ensures { IfOk result (λ e. e ≡ Expr.Address place (object_of object.entry)) }
{
    let ctype = object_type(alloc, object)?;
    ExprPart::new(alloc, Expr::Address(place.into_boxed().into_inner(), ctype))
}

/// The address of a target, a pointer to this type.
pub fn address(alloc: Global, target: Target<'_>, ctype: &CType) -> Result<ExprPart, AllocError>
    ensures { IfOk result (λ e. e ≡ Expr.Address (form.place_of (target_of target.entry)) ctype.now) }
{
    let place = place(alloc, target)?;
    address_of(alloc, place, Some(ctype))
}

/// The address of the member at the offset of a target, a pointer to the member's type.
pub fn member_address(
    alloc: Global,
    target: Target<'_>,
    offset: u32,
    object: Option<&CType>,
) -> Result<ExprPart, AllocError>
    ensures { IfOk result (λ e. e ≡ Expr.Address (form.member (form.place_of (target_of target.entry)) offset) (object_of object.entry)) }
{
    let whole = place(alloc, target)?;
    let part = PlacePart::new(alloc, member(whole, offset))?;
    address_of(alloc, part, object)
}

/// The address of an element of a target, a pointer to the element's type. The element has so many cells.
pub fn element_address(
    alloc: Global,
    target: Target<'_>,
    index: Operand<'_>,
    size: u32,
    object: Option<&CType>,
) -> Result<ExprPart, AllocError>
    ensures { IfOk result (λ e. e ≡ Expr.Address (form.index (form.place_of (target_of target.entry)) (form.expression_of (operand_of index.entry)) size) (object_of object.entry)) }
{
    let array = place(alloc, target)?;
    let index = expression(alloc, index)?;
    let part = PlacePart::new(alloc, element(array, index, size))?;
    address_of(alloc, part, object)
}
