//! Members of structs (C11 6.5.2.3).

ghost use Rattle.std.specs.Prelude.{◌≡◌, ◌<◌, ◌^◌, length, take, sum_by, Ok};
ghost use Rattle.step_meaning.specs.TypeRules.{cells as cells_of};
ghost use Rattle.typing_objects.specs.Parts.{OffsetsFit, MemberOffsetsFit, member_result};
ghost use Rattle.typing_rules.specs.Checked.{Gives};
ghost use Rattle.typing_rules.specs.Subobjects as rules;

use c_lexer::Place;
use core_types::{member_named, member_offset};
use std::alloc::Global;
use step_meaning::{CType, Declared, Layout, Place_, PlacePart};
use typing_operands::part::{at_place, copied, place_part};
use typing_rules::fault::TypeFault;
use typing_rules::operand::{Operand, Value, What};

/// The offset of a member, which is counted in 32 bits (C11 6.7.2.1, 15).
fn offset_of(layouts: &[Layout], members: &[Declared], index: usize) -> u32
    requires below { index < length members.now }
    requires small { sum_by (λ d. cells_of layouts.now d.ctype) (take index members.now) < 2 ^ 32 }
    ensures { result ≡ sum_by (λ d. cells_of layouts.now d.ctype) (take index members.now) }
{
    match member_offset(layouts, members, index) {
        Some(offset) => offset as u32,
        None => 0,
    }
}

/// The first member with the name, of a struct at the place.
#[tactic(auto, unfolding(typing_rules::specs::Checked::kept))]
fn member_among(
    alloc: Global,
    layouts: &[Layout],
    first: Place,
    at_name: Place,
    name: &[u8],
    place: PlacePart,
    members: &[Declared],
) -> Result<Operand, TypeFault>
    requires { MemberOffsetsFit layouts.now name.now members.now }
    ensures { Gives (member_result first at_name place (rules.member_among layouts.now name.now members.now)) result }
{
    match member_named(members, name) {
        Some(index) => {
            let offset = offset_of(layouts, members, index);
            let ctype = copied(alloc, &members[index].ctype)?;
            at_place(
                alloc,
                first,
                Place_::Member(place.into_boxed(), offset),
                ctype,
            )
        }
        None => Err(TypeFault::Unknown(at_name)),
    }
}

/// The member with the name, of the struct with the number.
#[tactic(auto, unfolding(typing_rules::specs::Checked::kept))]
fn struct_member(
    alloc: Global,
    layouts: &[Layout],
    first: Place,
    at_name: Place,
    name: &[u8],
    place: PlacePart,
    number: u32,
) -> Result<Operand, TypeFault>
    requires { OffsetsFit layouts.now }
    ensures { Gives (member_result first at_name place (rules.member_of layouts.now number name.now)) result }
{
    let number = number as usize;
    if number < layouts.len() {
        member_among(
            alloc,
            layouts,
            first,
            at_name,
            name,
            place,
            layouts[number].members.as_slice(),
        )
    } else {
        Err(TypeFault::Unknown(at_name))
    }
}

/// The member of the object at the place, whose type is a struct.
#[tactic(auto, using(crate::proofs::Objects::members))]
fn of_struct(
    alloc: Global,
    layouts: &[Layout],
    at: Place,
    first: Place,
    at_name: Place,
    name: &[u8],
    place: PlacePart,
    t: &CType,
) -> Result<Operand, TypeFault>
    requires { OffsetsFit layouts.now }
    ensures { Gives (rules.of_struct layouts.now at first at_name name.now place t.now) result }
{
    match t {
        CType::Struct(number) => struct_member(
            alloc, layouts, first, at_name, name, place, *number,
        ),
        CType::Void | CType::Int(_) | CType::Pointer(_) | CType::Array(_, _) => Err(
            TypeFault::Mismatch(at),
        ),
    }
}

/// `a.name`, with the operator and the name at these places: the lvalue of a struct on the left (C11 6.5.2.3).
#[tactic(auto, unfolding(typing_rules::specs::Subobjects::dot))]
pub fn dot(
    alloc: Global,
    layouts: &[Layout],
    at: Place,
    at_name: Place,
    name: &[u8],
    a: Operand,
) -> Result<Operand, TypeFault>
    requires { OffsetsFit layouts.now }
    ensures { Gives (rules.dot layouts.now at at_name name.now a) result }
{
    let Operand { first, what } = a;
    match what {
        What::At(place, ctype) => of_struct(
            alloc,
            layouts,
            at,
            first,
            at_name,
            name,
            place,
            ctype.get(),
        ),
        What::Made(_, _, _) => Err(TypeFault::Mismatch(at)),
    }
}

/// `a->name`, with the operator and the name at these places: a pointer to a struct on the left (C11 6.5.2.3).
#[tactic(auto, using(crate::proofs::Objects::arrows), unfolding(typing_rules::specs::Subobjects::arrow))]
pub fn arrow(
    alloc: Global,
    layouts: &[Layout],
    at: Place,
    at_name: Place,
    name: &[u8],
    v: Value,
) -> Result<Operand, TypeFault>
    requires { OffsetsFit layouts.now }
    ensures { Gives (rules.arrow layouts.now at at_name name.now v) result }
{
    let Value {
        first,
        expr,
        ctype,
        origin: _,
    } = v;
    match ctype.get() {
        CType::Pointer(t) => {
            let place = place_part(alloc, Place_::Deref(expr.into_boxed()))?;
            of_struct(alloc, layouts, at, first, at_name, name, place, t.get())
        }
        CType::Void | CType::Int(_) | CType::Array(_, _) | CType::Struct(_) => Err(
            TypeFault::Mismatch(at),
        ),
    }
}
