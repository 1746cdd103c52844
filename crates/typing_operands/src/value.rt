//! Values of operands (C11 6.3.2.1).

ghost use Rattle.std.specs.Prelude.{◌≡◌, Ok};
ghost use Rattle.typing_rules.specs.Checked.{Gives};
ghost use Rattle.typing_rules.specs.Operands as spec;

use crate::part::{copied, plain_value, pointer};
use c_lexer::Place;
use std::alloc::Global;
use step_meaning::{CType, Expr, ExprPart, PlacePart};
use typing_rules::fault::TypeFault;
use typing_rules::judgement::{is_scalar_shape, shape_of};
use typing_rules::operand::{Operand, TypePart, Value, What};

/// The value that a scalar object holds.
fn scalar_value(
    alloc: Global,
    first: Place,
    place: PlacePart,
    ctype: TypePart,
) -> Result<Value, TypeFault>
    ensures { Gives (Ok (spec.plain_value first (Expr.Load place ctype) ctype)) result }
{
    let again = copied(alloc, ctype.get())?;
    plain_value(
        alloc,
        first,
        Expr::Load(
            place.into_boxed().into_inner(),
            again.into_boxed().into_inner(),
        ),
        ctype,
    )
}

/// The address of the first element of an array.
fn first_element(
    alloc: Global,
    first: Place,
    place: PlacePart,
    element: &CType,
) -> Result<Value, TypeFault>
    ensures { Gives (Ok (spec.plain_value first (Expr.Address place element.now) (CType.Pointer element.now))) result }
{
    let again = copied(alloc, element)?;
    let ctype = pointer(alloc, element)?;
    plain_value(
        alloc,
        first,
        Expr::Address(
            place.into_boxed().into_inner(),
            again.into_boxed().into_inner(),
        ),
        ctype,
    )
}

/// The value of an object: a struct is none, and an array is the address of its first element (C11 6.3.2.1, 2 and 3).
#[tactic(auto, using(typing_rules::proofs::Objects::loads))]
pub fn loaded(
    alloc: Global,
    first: Place,
    place: PlacePart,
    ctype: TypePart,
) -> Result<Value, TypeFault>
    ensures { Gives (spec.loaded first place ctype) result }
{
    match ctype.get() {
        CType::Struct(_) => Err(TypeFault::StructValue(first)),
        CType::Array(element, _) => first_element(alloc, first, place, element.get()),
        CType::Void | CType::Int(_) | CType::Pointer(_) => scalar_value(alloc, first, place, ctype),
    }
}

/// The operand as a value.
#[tactic(auto, unfolding(typing_rules::specs::Operands::value))]
pub fn value(alloc: Global, a: Operand) -> Result<Value, TypeFault>
    ensures { Gives (spec.value a) result }
{
    let Operand { first, what } = a;
    match what {
        What::At(place, ctype) => loaded(alloc, first, place, ctype),
        What::Made(origin, expr, ctype) => Ok(Value {
            first,
            expr,
            ctype,
            origin,
        }),
    }
}

/// An integer or a pointer, as a condition (C11 6.8.4.1, 1; 6.8.5, 2; 6.5.15, 2).
#[tactic(auto, unfolding(typing_rules::specs::Operands::condition))]
pub fn condition(v: Value) -> Result<ExprPart, TypeFault>
    ensures { Gives (spec.condition v) result }
{
    if is_scalar_shape(shape_of(v.ctype.get())) {
        Ok(v.expr)
    } else {
        Err(TypeFault::Mismatch(v.first))
    }
}
