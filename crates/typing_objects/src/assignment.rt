//! Assignments, compound assignments, `++` and `--` (C11 6.5.16, 6.5.2.4, 6.5.3.1).

ghost use Rattle.std.specs.Prelude.{◌≡◌, ◌<◌, ◌^◌, pos, Ok};
ghost use Rattle.typing_objects.specs.Parts.{updated_at};
ghost use Rattle.typing_rules.specs.Allocation.{type_of_object};
ghost use Rattle.typing_rules.specs.Assignments as rules;
ghost use Rattle.typing_rules.specs.Checked.{Gives};
ghost use Rattle.typing_rules.specs.Judgements as judgements;
ghost use Rattle.typing_rules.specs.Operands as spec;
ghost use Rattle.typing_rules.specs.Operators.{unit as unit_of};
ghost use Rattle.step_meaning.specs.ExpressionTypes as types;

use c_lexer::Place;
use std::alloc::Global;
use step_meaning::{Answer, CType, Expr, ExprPart, IntKind, IntOp, Layout, PlacePart, UpdateOp};
use typing_operands::conversion::{brought, fitted};
use typing_operands::part::{copied, made, plain_value, type_part};
use typing_operands::size::unit;
use typing_rules::fault::TypeFault;
use typing_rules::judgement::{
    CompoundOperation, Shape, compound_operation, is_scalar_shape, shape_of,
};
use typing_rules::operand::{Operand, TypePart, Value, What};

fn assignment(
    alloc: Global,
    first: Place,
    place: PlacePart,
    ctype: TypePart,
    x: ExprPart,
) -> Result<Operand, TypeFault>
    ensures { Gives (Ok (spec.made first (Expr.Assign place ctype x) ctype)) result }
{
    let again = copied(alloc, ctype.get())?;
    made(
        alloc,
        first,
        Expr::Assign(
            place.into_boxed().into_inner(),
            again.into_boxed().into_inner(),
            x.into_boxed(),
        ),
        ctype,
    )
}

/// An assignment to the lvalue.
#[tactic(auto, unfolding(typing_rules::specs::Assignments::assigned, typing_rules::specs::Checked::kept))]
fn assigned_at(
    alloc: Global,
    at: Place,
    first: Place,
    place: PlacePart,
    ctype: TypePart,
    v: Value,
) -> Result<Operand, TypeFault>
    ensures { Gives (rules.assigned at (spec.at_place first place ctype) v) result }
{
    if is_scalar_shape(shape_of(ctype.get())) {
        let x = fitted(alloc, at, ctype.get(), v)?;
        assignment(alloc, first, place, ctype, x)
    } else {
        Err(TypeFault::NotPlace(at))
    }
}

/// `=`, at this place (C11 6.5.16.1).
#[tactic(auto, unfolding(typing_rules::specs::Assignments::assigned, typing_rules::specs::Checked::kept))]
pub fn assigned(alloc: Global, at: Place, a: Operand, v: Value) -> Result<Operand, TypeFault>
    ensures { Gives (rules.assigned at a v) result }
{
    let Operand { first, what } = a;
    match what {
        What::At(place, ctype) => assigned_at(alloc, at, first, place, ctype, v),
        What::Made(_, _, _) => Err(TypeFault::NotPlace(at)),
    }
}

// ---- compound assignments

fn update(
    alloc: Global,
    first: Place,
    place: PlacePart,
    ctype: TypePart,
    op: UpdateOp,
    x: ExprPart,
    answer: Answer,
) -> Result<Operand, TypeFault>
    ensures { Gives (Ok (spec.made first (Expr.Update place ctype op x answer) ctype)) result }
{
    let again = copied(alloc, ctype.get())?;
    made(
        alloc,
        first,
        Expr::Update(
            place.into_boxed().into_inner(),
            again.into_boxed().into_inner(),
            op,
            x.into_boxed(),
            answer,
        ),
        ctype,
    )
}

#[tactic(auto, unfolding(typing_rules::specs::Assignments::updated))]
fn updated(
    alloc: Global,
    layouts: &[Layout],
    first: Place,
    how: CompoundOperation,
    place: PlacePart,
    ctype: TypePart,
    v: Value,
    answer: Answer,
) -> Result<Operand, TypeFault>
    requires { unit_of layouts.now ctype < 2 ^ 32 }
    ensures { Gives (Ok (rules.updated layouts.now first how (record { place = place; ctype = ctype }) v answer)) result }
{
    match how {
        CompoundOperation::OnIntegers(op, k, l) => {
            let x = brought(alloc, l, v)?;
            update(
                alloc,
                first,
                place,
                ctype,
                UpdateOp::Integer(op, k),
                x,
                answer,
            )
        }
        CompoundOperation::Forward => {
            let cells = unit(layouts, ctype.get());
            update(
                alloc,
                first,
                place,
                ctype,
                UpdateOp::Forward(cells),
                v.expr,
                answer,
            )
        }
        CompoundOperation::Backward => {
            let cells = unit(layouts, ctype.get());
            update(
                alloc,
                first,
                place,
                ctype,
                UpdateOp::Backward(cells),
                v.expr,
                answer,
            )
        }
    }
}

/// The shape of a pointer to the type.
#[tactic(auto, using(typing_rules::proofs::Shapes::shapes))]
fn shape_behind(t: &CType) -> Shape
    ensures { result ≡ judgements.shape (types.pointer_to t.now) }
{
    match t {
        CType::Void => Shape::ToVoid,
        CType::Int(_) | CType::Pointer(_) | CType::Array(_, _) | CType::Struct(_) =>
            Shape::ToObject,
    }
}

/// The shape of the type in a sum, where an array stands as a pointer.
#[tactic(auto, using(crate::proofs::Objects::decays))]
fn decayed_shape(t: &CType) -> Shape
    ensures { result ≡ judgements.shape (rules.decayed t.now) }
{
    match t {
        CType::Array(element, _) => shape_behind(element.get()),
        CType::Void | CType::Int(_) | CType::Pointer(_) | CType::Struct(_) => shape_of(t),
    }
}

fn operand_shape(what: &What) -> Shape
    ensures { result ≡ judgements.shape (rules.type_of_what what.now) }
{
    match what {
        What::At(_, ctype) => decayed_shape(ctype.get()),
        What::Made(_, _, ctype) => shape_of(ctype.get()),
    }
}

/// A compound assignment by an operation that the types allow.
#[tactic(auto, unfolding(typing_rules::specs::Checked::kept))]
fn compound_by(
    alloc: Global,
    layouts: &[Layout],
    at: Place,
    how: CompoundOperation,
    a: Operand,
    v: Value,
) -> Result<Operand, TypeFault>
    requires { unit_of layouts.now (type_of_object a.what) < 2 ^ 32 }
    ensures { Gives (updated_at layouts.now at how a v) result }
{
    let Operand { first, what } = a;
    match what {
        What::At(place, ctype) => {
            if is_scalar_shape(shape_of(ctype.get())) {
                updated(alloc, layouts, first, how, place, ctype, v, Answer::After)
            } else {
                Err(TypeFault::NotPlace(at))
            }
        }
        What::Made(_, _, _) => Err(TypeFault::NotPlace(at)),
    }
}

/// A compound assignment by the operator, at this place (C11 6.5.16.2). What a pointer points to has fewer than 2^32 cells.
#[tactic(auto, unfolding(typing_rules::specs::Assignments::compound, typing_rules::specs::Checked::kept))]
pub fn compound(
    alloc: Global,
    layouts: &[Layout],
    at: Place,
    op: IntOp,
    a: Operand,
    v: Value,
) -> Result<Operand, TypeFault>
    requires { unit_of layouts.now (type_of_object a.what) < 2 ^ 32 }
    ensures { Gives (rules.compound layouts.now at op a v) result }
{
    match compound_operation(op, operand_shape(&a.what), shape_of(v.ctype.get())) {
        Some(how) => compound_by(alloc, layouts, at, how, a, v),
        None => Err(TypeFault::Mismatch(at)),
    }
}

// ---- `++` and `--`

/// The `int` 1.
fn one(alloc: Global, first: Place) -> Result<Value, TypeFault>
    ensures { Gives (Ok (spec.plain_value first (Expr.Literal IntKind.Int (pos 1)) spec.int)) result }
{
    let ctype = type_part(alloc, CType::Int(IntKind::Int))?;
    plain_value(alloc, first, Expr::Literal(IntKind::Int, 1), ctype)
}

fn stepped_by(
    alloc: Global,
    layouts: &[Layout],
    first: Place,
    how: CompoundOperation,
    place: PlacePart,
    ctype: TypePart,
    answer: Answer,
) -> Result<Operand, TypeFault>
    requires { unit_of layouts.now ctype < 2 ^ 32 }
    ensures { Gives (Ok (rules.updated layouts.now first how (record { place = place; ctype = ctype }) (spec.plain_value first (Expr.Literal IntKind.Int (pos 1)) spec.int) answer)) result }
{
    let v = one(alloc, first)?;
    updated(alloc, layouts, first, how, place, ctype, v, answer)
}

#[tactic(auto, unfolding(typing_rules::specs::Assignments::stepped, typing_rules::specs::Checked::kept), using(typing_rules::proofs::Shapes::shapes))]
fn stepped_at(
    alloc: Global,
    layouts: &[Layout],
    at: Place,
    first: Place,
    op: IntOp,
    place: PlacePart,
    ctype: TypePart,
    answer: Answer,
) -> Result<Operand, TypeFault>
    requires { unit_of layouts.now ctype < 2 ^ 32 }
    ensures { Gives (rules.stepped layouts.now at first op (spec.at_place first place ctype) answer) result }
{
    if is_scalar_shape(shape_of(ctype.get())) {
        match compound_operation(op, shape_of(ctype.get()), Shape::Integer(IntKind::Int)) {
            Some(how) => stepped_by(alloc, layouts, first, how, place, ctype, answer),
            None => Err(TypeFault::Mismatch(at)),
        }
    } else {
        Err(TypeFault::NotPlace(at))
    }
}

/// `++` and `--`, at `at`, whose expression begins at `first`: the `int` 1 is added or subtracted (C11 6.5.2.4, 6.5.3.1).
/// What a pointer points to has fewer than 2^32 cells.
#[tactic(auto, unfolding(typing_rules::specs::Assignments::stepped, typing_rules::specs::Checked::kept))]
pub fn stepped(
    alloc: Global,
    layouts: &[Layout],
    at: Place,
    first: Place,
    op: IntOp,
    a: Operand,
    answer: Answer,
) -> Result<Operand, TypeFault>
    requires { unit_of layouts.now (type_of_object a.what) < 2 ^ 32 }
    ensures { Gives (rules.stepped layouts.now at first op a answer) result }
{
    match a.what {
        What::At(place, ctype) => stepped_at(alloc, layouts, at, first, op, place, ctype, answer),
        What::Made(_, _, _) => Err(TypeFault::NotPlace(at)),
    }
}
