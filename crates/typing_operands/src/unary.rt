//! Casts and unary operators (C11 6.5.3, 6.5.4).

ghost use Rattle.std.specs.Prelude.{◌≡◌, Ok};
ghost use Rattle.typing_rules.specs.Checked.{Gives};
ghost use Rattle.step_meaning.specs.ExpressionTypes as types;
ghost use Rattle.step_meaning.specs.Library as library;
ghost use Rattle.step_meaning.specs.Names as names;
ghost use Rattle.typing_rules.specs.Operands as spec;
ghost use Rattle.typing_rules.specs.Operators as rules;

use crate::conversion::brought;
use crate::part::{at_place, copied, expression, integer, made, made_from, pointer, type_part};
use c_lexer::Place;
use core_types::same_type;
use std::alloc::Global;
use step_meaning::{
    CType, Expr, ExprPart, IntKind, NameKind, Place_, PlacePart, UnaryOp, Variable,
};
use typing_rules::fault::TypeFault;
use typing_rules::judgement::{
    CastConversion, cast_conversion, is_scalar_shape, promoted, shape_of,
};
use typing_rules::operand::{Operand, Origin, TypePart, Value, What};

// ---- casts

fn cast_to_kind(alloc: Global, first: Place, kind: IntKind, v: Value) -> Result<Operand, TypeFault>
    ensures { Gives (Ok (spec.made first (spec.brought kind v) (CType.Int kind))) result }
{
    let expr = brought(alloc, kind, v)?;
    let ctype = type_part(alloc, CType::Int(kind))?;
    Ok(Operand {
        first,
        what: What::Made(Origin::Other, expr, ctype),
    })
}

fn cast_to_void(alloc: Global, first: Place, expr: ExprPart) -> Result<Operand, TypeFault>
    ensures { Gives (Ok (spec.made first (Expr.Discard expr) CType.Void)) result }
{
    let ctype = type_part(alloc, CType::Void)?;
    made(alloc, first, Expr::Discard(expr.into_boxed()), ctype)
}

#[tactic(auto, using(crate::proofs::Pointers::pointer))]
fn cast_to_null(alloc: Global, first: Place) -> Result<Operand, TypeFault>
    ensures { Gives (Ok (spec.made_from Origin.NullPointer first Expr.Null library.void_pointer)) result }
{
    let ctype = pointer(alloc, &CType::Void)?;
    made_from(alloc, Origin::NullPointer, first, Expr::Null, ctype)
}

#[tactic(auto, unfolding(typing_rules::specs::Operators::cast_by))]
fn cast_by(alloc: Global, first: Place, how: CastConversion, v: Value) -> Result<Operand, TypeFault>
    ensures { Gives (Ok (rules.cast_by first how v)) result }
{
    match how {
        CastConversion::ToKind(kind) => cast_to_kind(alloc, first, kind, v),
        CastConversion::ToVoid => cast_to_void(alloc, first, v.expr),
        CastConversion::ToNull => cast_to_null(alloc, first),
        CastConversion::Unchanged => Ok(Operand {
            first,
            what: What::Made(Origin::Other, v.expr, v.ctype),
        }),
    }
}

/// A cast to the type, with its `(` at this place (C11 6.5.4).
#[tactic(auto, unfolding(typing_rules::specs::Operators::cast, typing_rules::specs::Checked::kept))]
pub fn cast(alloc: Global, at: Place, t: &CType, v: Value) -> Result<Operand, TypeFault>
    ensures { Gives (rules.cast at t.now v) result }
{
    match cast_conversion(
        shape_of(t),
        shape_of(v.ctype.get()),
        v.origin,
        same_type(t, v.ctype.get()),
    ) {
        Some(how) => cast_by(alloc, at, how, v),
        None => Err(TypeFault::Mismatch(at)),
    }
}

// ---- operators on a promoted integer

fn promoted_operand(
    alloc: Global,
    at: Place,
    op: UnaryOp,
    kind: IntKind,
    v: Value,
) -> Result<Operand, TypeFault>
    ensures { Gives (Ok (spec.made at (Expr.Unary op kind (spec.brought kind v)) (CType.Int kind))) result }
{
    let x = brought(alloc, kind, v)?;
    integer(alloc, at, Expr::Unary(op, kind, x.into_boxed()), kind)
}

/// Unary `+`, at this place: the promotion alone (C11 6.5.3.3, 2).
#[tactic(auto, using(crate::proofs::Pointers::promotions), unfolding(typing_rules::specs::Operators::promoting))]
pub fn plus(alloc: Global, at: Place, v: Value) -> Result<Operand, TypeFault>
    ensures { Gives (rules.promoting at (λ k x. x) v) result }
{
    match v.ctype.get() {
        CType::Int(kind) => cast_to_kind(alloc, at, promoted(*kind), v),
        CType::Void | CType::Pointer(_) | CType::Array(_, _) | CType::Struct(_) => Err(
            TypeFault::Mismatch(at),
        ),
    }
}

/// Unary `-` or `~`, at this place (C11 6.5.3.3, 3 and 4).
#[tactic(auto, using(crate::proofs::Pointers::promotions), unfolding(typing_rules::specs::Operators::promoting))]
pub fn promoting(alloc: Global, at: Place, op: UnaryOp, v: Value) -> Result<Operand, TypeFault>
    ensures { Gives (rules.promoting at (Expr.Unary op) v) result }
{
    match v.ctype.get() {
        CType::Int(kind) => promoted_operand(alloc, at, op, promoted(*kind), v),
        CType::Void | CType::Pointer(_) | CType::Array(_, _) | CType::Struct(_) => Err(
            TypeFault::Mismatch(at),
        ),
    }
}

/// `!`, at this place (C11 6.5.3.3, 1 and 5).
#[tactic(auto, unfolding(typing_rules::specs::Operators::negation))]
pub fn negation(alloc: Global, at: Place, v: Value) -> Result<Operand, TypeFault>
    ensures { Gives (rules.negation at v) result }
{
    if is_scalar_shape(shape_of(v.ctype.get())) {
        integer(alloc, at, Expr::Not(v.expr.into_boxed()), IntKind::Int)
    } else {
        Err(TypeFault::Mismatch(at))
    }
}

// ---- `&` and `*`

fn is_register(place: &Place_) -> bool
    ensures { result ≡ types.is_register place.now }
{
    match place {
        Place_::Own(variable) => is_register_variable(*variable),
        Place_::Deref(_) | Place_::Member(_, _) | Place_::Index(_, _, _) => false,
    }
}

fn is_register_variable(variable: Variable) -> bool
    ensures { result ≡ names.is_register_variable variable }
{
    variable.kind == NameKind::Register
}

#[tactic(auto, using(crate::proofs::Pointers::pointer))]
fn address_of(
    alloc: Global,
    at: Place,
    place: PlacePart,
    ctype: TypePart,
) -> Result<Operand, TypeFault>
    ensures { Gives (Ok (spec.made at (Expr.Address place ctype) (types.pointer_to ctype))) result }
{
    let to = pointer(alloc, ctype.get())?;
    made(
        alloc,
        at,
        Expr::Address(
            place.into_boxed().into_inner(),
            ctype.into_boxed().into_inner(),
        ),
        to,
    )
}

/// `&`, at this place: it takes an lvalue, which is no register (C11 6.5.3.2, 1 and 3).
#[tactic(auto, unfolding(typing_rules::specs::Operators::address))]
pub fn address(alloc: Global, at: Place, a: Operand) -> Result<Operand, TypeFault>
    ensures { Gives (rules.address at a) result }
{
    match a.what {
        What::At(place, ctype) => {
            if is_register(place.get()) {
                Err(TypeFault::NotPlace(at))
            } else {
                address_of(alloc, at, place, ctype)
            }
        }
        What::Made(_, _, _) => Err(TypeFault::NotPlace(at)),
    }
}

pub fn is_void(t: &CType) -> bool
    ensures { result ≡ types.is_void t.now }
{
    matches!(t, CType::Void)
}

/// The object behind a pointer, which is none to `void`.
fn behind(alloc: Global, at: Place, x: ExprPart, t: &CType) -> Result<Operand, TypeFault>
    ensures { Gives (rules.pointee at at x (types.pointer_to t.now)) result }
{
    if is_void(t) {
        Err(TypeFault::Mismatch(at))
    } else {
        let ctype = copied(alloc, t)?;
        at_place(alloc, at, Place_::Deref(x.into_boxed()), ctype)
    }
}

/// `*`, at this place: it takes a pointer, and none to `void` (C11 6.5.3.2, 2 and 4).
#[tactic(auto, using(typing_rules::proofs::Objects::pointees), unfolding(typing_rules::specs::Operators::dereferenced))]
pub fn dereferenced(alloc: Global, at: Place, v: Value) -> Result<Operand, TypeFault>
    ensures { Gives (rules.dereferenced at v) result }
{
    let Value {
        first: _,
        expr,
        ctype,
        origin: _,
    } = v;
    match ctype.get() {
        CType::Pointer(t) => behind(alloc, at, expr, t.get()),
        CType::Void | CType::Int(_) | CType::Array(_, _) | CType::Struct(_) => Err(
            TypeFault::Mismatch(at),
        ),
    }
}
