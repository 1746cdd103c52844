//! What rules make operands of.

ghost use Rattle.std.specs.Prelude.{◌≡◌, Ok};
ghost use Rattle.typing_rules.specs.Checked.{Gives};
ghost use Rattle.typing_rules.specs.Operands as spec;

use c_lexer::Place;
use std::alloc::Global;
use step_meaning::{CType, Expr, ExprPart, IntKind, Place_, PlacePart};
use typing_rules::fault::TypeFault;
use typing_rules::operand::{Operand, Origin, TypePart, Value, What};

/// The part that holds the expression.
pub fn expression(alloc: Global, expr: Expr) -> Result<ExprPart, TypeFault>
    ensures { Gives (Ok expr) result }
{
    Ok(ExprPart::new(alloc, expr)?)
}

/// The part that holds the lvalue.
pub fn place_part(alloc: Global, place: Place_) -> Result<PlacePart, TypeFault>
    ensures { Gives (Ok place) result }
{
    Ok(PlacePart::new(alloc, place)?)
}

/// The part that holds the type.
pub fn type_part(alloc: Global, ctype: CType) -> Result<TypePart, TypeFault>
    ensures { Gives (Ok ctype) result }
{
    Ok(TypePart::new(alloc, ctype)?)
}

/// A copy of the type.
pub fn copied(alloc: Global, t: &CType) -> Result<TypePart, TypeFault>
    ensures { Gives (Ok t.now) result }
{
    match t {
        CType::Void => type_part(alloc, CType::Void),
        CType::Int(kind) => type_part(alloc, CType::Int(*kind)),
        CType::Pointer(t) => {
            let to = copied(alloc, t.get())?;
            type_part(alloc, CType::Pointer(to.into_boxed()))
        }
        CType::Array(t, count) => {
            let of = copied(alloc, t.get())?;
            type_part(alloc, CType::Array(of.into_boxed(), *count))
        }
        CType::Struct(number) => type_part(alloc, CType::Struct(*number)),
    }
}

/// The type of a pointer to the type.
pub fn pointer(alloc: Global, t: &CType) -> Result<TypePart, TypeFault>
    ensures { Gives (Ok (CType.Pointer t.now)) result }
{
    let to = copied(alloc, t)?;
    type_part(alloc, CType::Pointer(to.into_boxed()))
}

/// A value of this origin as an operand.
pub fn made_from(
    alloc: Global,
    origin: Origin,
    first: Place,
    expr: Expr,
    ctype: TypePart,
) -> Result<Operand, TypeFault>
    ensures { Gives (Ok (spec.made_from origin first expr ctype)) result }
{
    let expr = expression(alloc, expr)?;
    Ok(Operand {
        first,
        what: What::Made(origin, expr, ctype),
    })
}

/// A value as an operand, whose origin no rule asks for.
pub fn made(alloc: Global, first: Place, expr: Expr, ctype: TypePart) -> Result<Operand, TypeFault>
    ensures { Gives (Ok (spec.made first expr ctype)) result }
{
    made_from(alloc, Origin::Other, first, expr, ctype)
}

/// A value of an integer type as an operand.
pub fn integer(alloc: Global, first: Place, expr: Expr, kind: IntKind) -> Result<Operand, TypeFault>
    ensures { Gives (Ok (spec.made first expr (CType.Int kind))) result }
{
    let expr = expression(alloc, expr)?;
    let ctype = type_part(alloc, CType::Int(kind))?;
    Ok(Operand {
        first,
        what: What::Made(Origin::Other, expr, ctype),
    })
}

/// An lvalue as an operand.
pub fn at_place(
    alloc: Global,
    first: Place,
    place: Place_,
    ctype: TypePart,
) -> Result<Operand, TypeFault>
    ensures { Gives (Ok (spec.at_place first place ctype)) result }
{
    let place = place_part(alloc, place)?;
    Ok(Operand {
        first,
        what: What::At(place, ctype),
    })
}

/// A value, whose origin no rule asks for.
pub fn plain_value(
    alloc: Global,
    first: Place,
    expr: Expr,
    ctype: TypePart,
) -> Result<Value, TypeFault>
    ensures { Gives (Ok (spec.plain_value first expr ctype)) result }
{
    let expr = expression(alloc, expr)?;
    Ok(Value {
        first,
        expr,
        ctype,
        origin: Origin::Other,
    })
}
