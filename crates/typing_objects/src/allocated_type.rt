//! The types of objects that `malloc` gives (C11 7.22.3.4, 6.2.5).

ghost use Rattle.std.specs.Prelude.{◌≡◌, ◌&&◌, nat_le};
ghost use Rattle.step_meaning.specs.TypeRules as rules;
ghost use Rattle.typing_objects.specs.Parts.{behind_pointer as behind};

use core_types::cells;
use step_meaning::{CType, Layout};

/// Whether a type name spells the type: an integer type or a struct, or pointers to it (C11 6.7.7 without arrays and functions).
#[tactic(auto, using(crate::proofs::ObjectTypes::spelled_types))]
fn is_spelled(t: &CType) -> bool
    ensures { result ≡ rules.is_spelled t.now }
{
    match t {
        CType::Int(_) | CType::Struct(_) => true,
        CType::Pointer(t) => is_spelled(t.get()),
        CType::Void | CType::Array(_, _) => false,
    }
}

/// Whether an object of the type has at most 65,536 cells.
fn is_within_limit(layouts: &[Layout], t: &CType) -> bool
    ensures { result ≡ nat_le (rules.cells layouts.now t.now) rules.most_cells }
{
    match cells(layouts, t) {
        Some(count) => count <= 65536,
        None => false,
    }
}

/// Whether a pointer to the type is the type of an object, where `otherwise` tells it of what is no struct.
#[tactic(auto, using(crate::proofs::ObjectTypes::behind_pointers))]
fn behind_pointer(declared: usize, otherwise: bool, t: &CType) -> bool
    ensures { result ≡ behind declared otherwise t.now }
{
    match t {
        CType::Struct(number) => (*number as usize) < declared,
        CType::Void | CType::Int(_) | CType::Pointer(_) | CType::Array(_, _) => otherwise,
    }
}

/// Whether an object may have the type where these structs are complete and so many are declared (C11 6.2.5, 1).
#[tactic(auto, using(crate::proofs::ObjectTypes::object_types))]
fn is_object_type(layouts: &[Layout], declared: usize, t: &CType) -> bool
    ensures { result ≡ rules.is_object_type layouts.now declared t.now }
{
    match t {
        CType::Void => false,
        CType::Int(_) => true,
        CType::Pointer(to) => {
            let otherwise = is_object_type(layouts, declared, to.get());
            behind_pointer(declared, otherwise, to.get())
        }
        CType::Array(element, count) => {
            let has_objects = is_object_type(layouts, declared, element.get());
            has_objects && (*count >= 1 && is_within_limit(layouts, t))
        }
        CType::Struct(number) => (*number as usize) < layouts.len(),
    }
}

/// Whether `malloc` gives objects of the type, where these structs are complete and so many are declared: it is complete, and a type name spells it.
pub fn is_allocated(layouts: &[Layout], declared: usize, t: &CType) -> bool
    ensures { result ≡ (rules.is_spelled t.now && rules.is_object_type layouts.now declared t.now) }
{
    is_spelled(t) && is_object_type(layouts, declared, t)
}
