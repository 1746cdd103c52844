//! Judgements on types: what an operator does with operands of these types.

ghost use Rattle.std.specs.Prelude.{◌≡◌, ◌&&◌};
ghost use Rattle.step_meaning.specs.Types.{where_true};
ghost use Rattle.step_meaning.specs.Conversions as kinds;
ghost use Rattle.step_meaning.specs.ExpressionTypes as types;
ghost use Rattle.typing_rules.specs.Judgements as spec;

use crate::operand::Origin;
use step_meaning::{CType, CompareOp, IntKind, IntOp, Side};

/// What the judgements see of a type.
#[derive(Clone, Copy)]
pub enum Shape {
    Integer(IntKind),
    /// A pointer to an object.
    ToObject,
    /// A pointer to `void`.
    ToVoid,
    /// `void`.
    NoValue,
    /// An array or a struct.
    Aggregate,
}

/// A binary operator of the text (C11 6.5.5 to 6.5.14).
#[derive(Clone, Copy)]
pub enum Operator {
    /// An arithmetic or bitwise operator, or a shift.
    Compute(IntOp),
    /// A relational or equality operator.
    Relate(CompareOp),
    /// `&&`
    Both,
    /// `||`
    Either,
}

/// What a binary operator does with its operands.
#[derive(Clone, Copy)]
pub enum Operation {
    /// Both operands are brought to the kind (C11 6.3.1.8).
    Arithmetic(IntOp, IntKind),
    /// Each operand is promoted by itself, to these kinds (C11 6.5.7, 3).
    Shift(IntOp, IntKind, IntKind),
    /// The pointer is moved by the integer (C11 6.5.6, 8).
    MovePointer(Side),
    /// The difference of two pointers (C11 6.5.6, 9).
    PointerDifference,
    /// Two integers, brought to the kind.
    CompareIntegers(CompareOp, IntKind),
    /// Two pointers of one type.
    ComparePointers(CompareOp),
    /// A pointer, and a null pointer constant on the right.
    CompareWithNull(CompareOp),
    /// A null pointer constant on the left, and a pointer.
    CompareNullWith(CompareOp),
    LogicalAnd,
    LogicalOr,
}

/// How a value is brought to a type, as if by assignment (C11 6.5.16.1).
#[derive(Clone, Copy)]
pub enum Conversion {
    /// An integer is brought to the kind.
    ToKind(IntKind),
    /// A null pointer constant becomes the null pointer.
    ToNull,
    /// A pointer of that type stays.
    Unchanged,
}

/// Which operands `?:` selects from (C11 6.5.15).
#[derive(Clone, Copy)]
pub enum Selection {
    /// Two integers, brought to the kind.
    OfIntegers(IntKind),
    /// Two pointers of one type, or two operands of type `void`.
    OfOneType,
    /// A pointer, and a null pointer constant after it.
    NullLast,
    /// A null pointer constant, and a pointer after it.
    NullFirst,
}

/// What a cast does (C11 6.5.4).
#[derive(Clone, Copy)]
pub enum CastConversion {
    /// An integer is brought to the kind.
    ToKind(IntKind),
    /// The value is dropped.
    ToVoid,
    /// The literal `0` becomes the null pointer.
    ToNull,
    /// A call of `malloc` of that type stays.
    Unchanged,
}

/// What a compound assignment, `++` or `--` does at an lvalue (C11 6.5.16.2).
#[derive(Clone, Copy)]
pub enum CompoundOperation {
    /// It is computed in the first kind; the right side is brought to the second.
    OnIntegers(IntOp, IntKind, IntKind),
    /// A pointer goes forward by the integer.
    Forward,
    /// A pointer goes back by the integer.
    Backward,
}

fn is_promoted(kind: IntKind) -> bool
    ensures { result ≡ kinds.is_promoted kind }
{
    match kind {
        IntKind::Int | IntKind::UInt | IntKind::Long | IntKind::ULong => true,
        IntKind::Char | IntKind::SChar | IntKind::UChar | IntKind::Short | IntKind::UShort => false,
    }
}

/// The kind that the integer promotions leave (C11 6.3.1.1, 2).
pub fn promoted(kind: IntKind) -> IntKind
    ensures { result ≡ kinds.promoted kind }
{
    if is_promoted(kind) {
        kind
    } else {
        IntKind::Int
    }
}

fn common_of_promoted(k: IntKind, l: IntKind) -> IntKind
    ensures { result ≡ kinds.common k l }
{
    match (promoted(k), promoted(l)) {
        (IntKind::ULong, _) | (_, IntKind::ULong) => IntKind::ULong,
        (IntKind::Long, _) | (_, IntKind::Long) => IntKind::Long,
        (IntKind::UInt, _) | (_, IntKind::UInt) => IntKind::UInt,
        _ => IntKind::Int,
    }
}

/// The common kind of two operands, by the usual arithmetic conversions (C11 6.3.1.8).
pub fn common(k: IntKind, l: IntKind) -> IntKind
    ensures { result ≡ kinds.common k l }
{
    common_of_promoted(k, l)
}

fn is_shift(op: IntOp) -> bool
    ensures { result ≡ types.is_shift op }
{
    matches!(op, IntOp::Shl | IntOp::Shr)
}

fn on_integers(op: IntOp, k: IntKind, l: IntKind) -> Operation
    ensures { result ≡ spec.on_integers op k l }
{
    if is_shift(op) {
        Operation::Shift(op, promoted(k), promoted(l))
    } else {
        Operation::Arithmetic(op, common(k, l))
    }
}

/// The shape of a pointer to the type.
#[tactic(auto, using(crate::proofs::Shapes::shapes))]
fn shape_behind(t: &CType) -> Shape
    ensures { result ≡ spec.shape (types.pointer_to t.now) }
{
    match t {
        CType::Void => Shape::ToVoid,
        CType::Int(_) | CType::Pointer(_) | CType::Array(_, _) | CType::Struct(_) =>
            Shape::ToObject,
    }
}

/// The shape of the type.
#[tactic(auto, using(crate::proofs::Shapes::shapes))]
pub fn shape_of(t: &CType) -> Shape
    ensures { result ≡ spec.shape t.now }
{
    match t {
        CType::Void => Shape::NoValue,
        CType::Int(k) => Shape::Integer(*k),
        CType::Pointer(t) => shape_behind(t.get()),
        CType::Array(_, _) | CType::Struct(_) => Shape::Aggregate,
    }
}

/// Whether the type is an integer or a pointer type (C11 6.2.5, 21).
pub fn is_scalar_shape(t: Shape) -> bool
    ensures { result ≡ spec.is_scalar_shape t }
{
    match t {
        Shape::Integer(_) | Shape::ToObject | Shape::ToVoid => true,
        Shape::NoValue | Shape::Aggregate => false,
    }
}

/// Whether the type is a pointer type.
pub fn is_pointer(t: Shape) -> bool
    ensures { result ≡ spec.is_pointer t }
{
    matches!(t, Shape::ToObject | Shape::ToVoid)
}

fn is_equality(op: CompareOp) -> bool
    ensures { result ≡ types.is_equality op }
{
    matches!(op, CompareOp::Equal | CompareOp::Unequal)
}

#[tactic(auto, unfolding(crate::specs::Judgements::on_pointers))]
fn on_pointers(op: IntOp, t: Shape, u: Shape, alike: bool) -> Option<Operation>
    ensures { result ≡ spec.on_pointers op t u alike }
{
    match (op, t, u) {
        (IntOp::Add, Shape::ToObject, Shape::Integer(_)) => Some(Operation::MovePointer(
            Side::PointerFirst,
        )),
        (IntOp::Add, Shape::Integer(_), Shape::ToObject) => Some(Operation::MovePointer(
            Side::PointerLast,
        )),
        (IntOp::Sub, Shape::ToObject, Shape::Integer(_)) => Some(Operation::MovePointer(
            Side::Minus,
        )),
        (IntOp::Sub, Shape::ToObject, Shape::ToObject) => {
            if alike {
                Some(Operation::PointerDifference)
            } else {
                None
            }
        }
        _ => None,
    }
}

#[tactic(auto, unfolding(crate::specs::Judgements::arithmetic))]
fn arithmetic(op: IntOp, t: Shape, u: Shape, alike: bool) -> Option<Operation>
    ensures { result ≡ spec.arithmetic op t u alike }
{
    match (t, u) {
        (Shape::Integer(k), Shape::Integer(l)) => Some(on_integers(op, k, l)),
        _ => on_pointers(op, t, u, alike),
    }
}

fn relation_of_pointers(
    op: CompareOp,
    t: Shape,
    first: bool,
    u: Shape,
    second: bool,
    alike: bool,
) -> Option<Operation>
    ensures { result ≡ spec.relation_of_pointers op t first u second alike }
{
    if is_pointer(t) && alike {
        Some(Operation::ComparePointers(op))
    } else if is_equality(op) && (is_pointer(t) && second) {
        Some(Operation::CompareWithNull(op))
    } else if is_equality(op) && (first && is_pointer(u)) {
        Some(Operation::CompareNullWith(op))
    } else {
        None
    }
}

#[tactic(auto, unfolding(crate::specs::Judgements::relation))]
fn relation(
    op: CompareOp,
    t: Shape,
    first: bool,
    u: Shape,
    second: bool,
    alike: bool,
) -> Option<Operation>
    ensures { result ≡ spec.relation op t first u second alike }
{
    match (t, u) {
        (Shape::Integer(k), Shape::Integer(l)) => Some(Operation::CompareIntegers(
            op,
            common(k, l),
        )),
        _ => relation_of_pointers(op, t, first, u, second, alike),
    }
}

fn taking(t: Shape, u: Shape, operation: Operation) -> Option<Operation>
    ensures { result ≡ where_true (spec.is_scalar_shape t && spec.is_scalar_shape u) operation }
{
    if is_scalar_shape(t) && is_scalar_shape(u) {
        Some(operation)
    } else {
        None
    }
}

/// What the operator does with operands of these types, each of which may be a null pointer constant.
#[tactic(auto, unfolding(crate::specs::Judgements::operation))]
pub fn binary_operation(
    op: Operator,
    t: Shape,
    first: bool,
    u: Shape,
    second: bool,
    alike: bool,
) -> Option<Operation>
    ensures { result ≡ spec.operation op t first u second alike }
{
    match op {
        Operator::Compute(op) => arithmetic(op, t, u, alike),
        Operator::Relate(op) => relation(op, t, first, u, second, alike),
        Operator::Both => taking(t, u, Operation::LogicalAnd),
        Operator::Either => taking(t, u, Operation::LogicalOr),
    }
}

/// How a value of the second type is brought to the first, as if by assignment; none where it isn't (C11 6.5.16.1, 1).
#[tactic(auto, unfolding(crate::specs::Judgements::conversion))]
pub fn assignment_conversion(to: Shape, t: Shape, null: bool, alike: bool) -> Option<Conversion>
    ensures { result ≡ spec.conversion to t null alike }
{
    match (to, t) {
        (Shape::Integer(k), Shape::Integer(_)) => Some(Conversion::ToKind(k)),
        (Shape::ToObject | Shape::ToVoid, _) => {
            if alike {
                Some(Conversion::Unchanged)
            } else if null {
                Some(Conversion::ToNull)
            } else {
                None
            }
        }
        _ => None,
    }
}

fn are_alike(t: Shape, alike: bool) -> bool
    ensures { result ≡ spec.are_alike t alike }
{
    match t {
        Shape::NoValue | Shape::ToObject | Shape::ToVoid => alike,
        Shape::Integer(_) | Shape::Aggregate => false,
    }
}

/// Which operands of these types `?:` selects from; none where it takes none such (C11 6.5.15, 3).
#[tactic(auto, unfolding(crate::specs::Judgements::selection))]
pub fn selection_of(t: Shape, first: bool, u: Shape, second: bool, alike: bool) -> Option<Selection>
    ensures { result ≡ spec.selection t first u second alike }
{
    if let (Shape::Integer(k), Shape::Integer(l)) = (t, u) {
        Some(Selection::OfIntegers(common(k, l)))
    } else if are_alike(t, alike) {
        Some(Selection::OfOneType)
    } else if is_pointer(t) && second {
        Some(Selection::NullLast)
    } else if first && is_pointer(u) {
        Some(Selection::NullFirst)
    } else {
        None
    }
}

/// Whether a value of this origin is a null pointer constant (C11 6.3.2.3, 3).
pub fn is_null(origin: Origin) -> bool
    ensures { result ≡ spec.is_null origin }
{
    matches!(origin, Origin::ZeroLiteral | Origin::NullPointer)
}

fn unchanged_where(alike: bool) -> Option<CastConversion>
    ensures { result ≡ where_true alike CastConversion.Unchanged }
{
    if alike {
        Some(CastConversion::Unchanged)
    } else {
        None
    }
}

/// What a cast of a value to the first type does; none where there is no such cast.
#[tactic(auto, unfolding(crate::specs::Judgements::cast_conversion))]
pub fn cast_conversion(to: Shape, t: Shape, origin: Origin, alike: bool) -> Option<CastConversion>
    ensures { result ≡ spec.cast_conversion to t origin alike }
{
    match (to, t, origin) {
        (Shape::NoValue, _, _) => Some(CastConversion::ToVoid),
        (Shape::Integer(k), Shape::Integer(_), _) => Some(CastConversion::ToKind(k)),
        (Shape::ToVoid, _, Origin::ZeroLiteral) => Some(CastConversion::ToNull),
        (Shape::ToObject, _, Origin::Allocation) => unchanged_where(alike),
        _ => None,
    }
}

fn compound_on_integers(op: IntOp, k: IntKind, l: IntKind) -> CompoundOperation
    ensures { result ≡ spec.compound_on_integers op k l }
{
    if is_shift(op) {
        CompoundOperation::OnIntegers(op, promoted(k), promoted(l))
    } else {
        CompoundOperation::OnIntegers(op, common(k, l), common(k, l))
    }
}

/// What a compound assignment does at an lvalue of the first type; none where it takes no such operands.
#[tactic(auto, unfolding(crate::specs::Judgements::compound_operation))]
pub fn compound_operation(op: IntOp, t: Shape, u: Shape) -> Option<CompoundOperation>
    ensures { result ≡ spec.compound_operation op t u }
{
    match (op, t, u) {
        (_, Shape::Integer(k), Shape::Integer(l)) => Some(compound_on_integers(op, k, l)),
        (IntOp::Add, Shape::ToObject, Shape::Integer(_)) => Some(CompoundOperation::Forward),
        (IntOp::Sub, Shape::ToObject, Shape::Integer(_)) => Some(CompoundOperation::Backward),
        _ => None,
    }
}
