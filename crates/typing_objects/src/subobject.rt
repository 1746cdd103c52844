//! Elements of arrays (C11 6.5.2.1).

ghost use Rattle.std.specs.Prelude.{◌≡◌, ◌<◌, ◌^◌, if◌then◌else◌, Ok, Err};
ghost use Rattle.typing_objects.specs.Parts.{base, base_result, stride};
ghost use Rattle.typing_rules.specs.Checked.{Gives};
ghost use Rattle.typing_rules.specs.Judgements as judgements;
ghost use Rattle.typing_rules.specs.Operands as spec;
ghost use Rattle.typing_rules.specs.Operators.{unit as unit_of};
ghost use Rattle.typing_rules.specs.Subobjects as rules;
ghost use Rattle.step_meaning.specs.ExpressionTypes as types;
ghost use Rattle.step_meaning.specs.TypeRules.{cells as cells_of};

use c_lexer::Place;
use std::alloc::Global;
use step_meaning::{CType, Expr, ExprPart, Layout, Place_, PlacePart, Side};
use typing_operands::part::{at_place, copied, expression};
use typing_operands::size::object_size;
use typing_operands::unary::is_void;
use typing_operands::value::loaded;
use typing_rules::fault::TypeFault;
use typing_rules::judgement::{Shape, shape_of};
use typing_rules::operand::{Operand, TypePart, Value, What};

/// What stands before `[ ]`: an array whose elements have the type, or a value.
#[derive(Drop)]
pub enum Base {
    InArray(PlacePart, TypePart),
    BehindPointer(Value),
}

/// Whether the type is an integer type (C11 6.2.5, 17).
pub(crate) fn is_integer_shape(t: Shape) -> bool
    ensures { result ≡ judgements.is_integer_shape t }
{
    matches!(t, Shape::Integer(_))
}

fn in_array(alloc: Global, place: PlacePart, element: &CType) -> Result<Base, TypeFault>
    ensures { Gives (Ok (rules.InArray place element.now)) (base_result result) }
{
    let ctype = copied(alloc, element)?;
    Ok(Base::InArray(place, ctype))
}

/// An object before `[ ]`.
#[tactic(auto, using(crate::proofs::Objects::bases))]
fn object_before_index(
    alloc: Global,
    _layouts: &[Layout],
    first: Place,
    place: PlacePart,
    ctype: TypePart,
) -> Result<Base, TypeFault>
    ensures { Gives (rules.before_index _layouts.now first place ctype) (base_result result) }
{
    match ctype.get() {
        CType::Array(element, _) => in_array(alloc, place, element.get()),
        CType::Void | CType::Int(_) | CType::Pointer(_) | CType::Struct(_) => {
            let v = loaded(alloc, first, place, ctype)?;
            Ok(Base::BehindPointer(v))
        }
    }
}

/// The operand, as what stands before `[ ]` in a program with these structs.
#[tactic(auto, unfolding(typing_rules::specs::Subobjects::base_of, typing_rules::specs::Operands::value))]
pub fn base_of(alloc: Global, layouts: &[Layout], a: Operand) -> Result<Base, TypeFault>
    ensures { Gives (rules.base_of layouts.now a) (base_result result) }
{
    let Operand { first, what } = a;
    match what {
        What::At(place, ctype) => object_before_index(alloc, layouts, first, place, ctype),
        What::Made(origin, expr, ctype) => Ok(Base::BehindPointer(Value {
            first,
            expr,
            ctype,
            origin,
        })),
    }
}

fn element(
    alloc: Global,
    layouts: &[Layout],
    first: Place,
    place: PlacePart,
    ctype: TypePart,
    i: ExprPart,
) -> Result<Operand, TypeFault>
    requires { cells_of layouts.now ctype < 2 ^ 32 }
    ensures { Gives (Ok (spec.at_place first (Place_.Index place i (cells_of layouts.now ctype)) ctype)) result }
{
    let size = object_size(layouts, ctype.get());
    at_place(
        alloc,
        first,
        Place_::Index(place.into_boxed(), i.into_boxed(), size),
        ctype,
    )
}

/// `*(x + i)`, where x points to the type.
fn element_behind(
    alloc: Global,
    layouts: &[Layout],
    first: Place,
    x: ExprPart,
    t: &CType,
    i: ExprPart,
) -> Result<Operand, TypeFault>
    requires { cells_of layouts.now t.now < 2 ^ 32 }
    ensures { Gives (Ok (spec.at_place first (Place_.Deref (Expr.Move x i (cells_of layouts.now t.now) Side.PointerFirst)) t.now)) result }
{
    let size = object_size(layouts, t);
    let ctype = copied(alloc, t)?;
    let moved = expression(
        alloc,
        Expr::Move(x.into_boxed(), i.into_boxed(), size, Side::PointerFirst),
    )?;
    at_place(alloc, first, Place_::Deref(moved.into_boxed()), ctype)
}

fn behind(
    alloc: Global,
    layouts: &[Layout],
    at: Place,
    first: Place,
    x: ExprPart,
    t: &CType,
    i: ExprPart,
) -> Result<Operand, TypeFault>
    requires { cells_of layouts.now t.now < 2 ^ 32 }
    ensures { Gives (if types.is_void t.now then Err (TypeFault.Mismatch at) else Ok (spec.at_place first (Place_.Deref (Expr.Move x i (cells_of layouts.now t.now) Side.PointerFirst)) t.now)) result }
{
    if is_void(t) {
        Err(TypeFault::Mismatch(at))
    } else {
        element_behind(alloc, layouts, first, x, t, i)
    }
}

#[tactic(auto, using(crate::proofs::Objects::elements, typing_operands::proofs::Pointers::units))]
fn behind_value(
    alloc: Global,
    layouts: &[Layout],
    at: Place,
    v: Value,
    i: Value,
) -> Result<Operand, TypeFault>
    requires { unit_of layouts.now v.ctype < 2 ^ 32 }
    ensures { Gives (rules.behind layouts.now at v v.ctype i) result }
{
    let Value {
        first,
        expr,
        ctype,
        origin: _,
    } = v;
    match ctype.get() {
        CType::Pointer(t) => behind(alloc, layouts, at, first, expr, t.get(), i.expr),
        CType::Void | CType::Int(_) | CType::Array(_, _) | CType::Struct(_) => Err(
            TypeFault::Mismatch(at),
        ),
    }
}

fn element_of(
    alloc: Global,
    layouts: &[Layout],
    at: Place,
    first: Place,
    a: Base,
    i: Value,
) -> Result<Operand, TypeFault>
    requires { stride layouts.now a < 2 ^ 32 }
    ensures { Gives (rules.element_of layouts.now at first (base a) i) result }
{
    match a {
        Base::InArray(place, ctype) => element(alloc, layouts, first, place, ctype, i.expr),
        Base::BehindPointer(v) => behind_value(alloc, layouts, at, v, i),
    }
}

/// `a[i]`, with the `[` at this place and the first token of a at `first`: an array or pointer on the left, and an integer inside (C11 6.5.2.1).
/// An element has fewer than 2^32 cells.
#[tactic(auto, unfolding(typing_rules::specs::Subobjects::indexed))]
pub fn indexed(
    alloc: Global,
    layouts: &[Layout],
    at: Place,
    first: Place,
    a: Base,
    i: Value,
) -> Result<Operand, TypeFault>
    requires { stride layouts.now a < 2 ^ 32 }
    ensures { Gives (rules.indexed layouts.now at first (base a) i) result }
{
    if is_integer_shape(shape_of(i.ctype.get())) {
        element_of(alloc, layouts, at, first, a, i)
    } else {
        Err(TypeFault::Mismatch(at))
    }
}
