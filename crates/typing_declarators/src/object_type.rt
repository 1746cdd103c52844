//! Types of objects: whether they are complete and within the limit, and the type that layers give (C11 6.2.5, 6.7.6).

ghost use Rattle.std.specs.Prelude.{◌≡◌, map, nat_lt, nat_le, Ok};
ghost use Rattle.step_meaning.specs.TypeRules.{cells as cells_of, most_cells};
ghost use Rattle.typing_rules.specs.Checked.{Gives};
ghost use Rattle.typing_rules.specs.Declarations as rules;
ghost use Rattle.typing_declarators.specs.Layers as layers_seen;
ghost use Rattle.typing_declarators.specs.Types.{behind_pointer, around};

use crate::layer::Layer;
use core_types::cells;
use std::alloc::Global;
use step_meaning::{CType, Layout};
use typing_operands::part::{copied, type_part};
use typing_rules::fault::TypeFault;
use typing_rules::operand::TypePart;

/// Whether what a pointer points to is complete enough: a struct is known, and what is no struct is complete itself.
#[tactic(auto, using(crate::proofs::TypeForms::behind_pointers))]
fn behind(known: usize, otherwise: bool, t: &CType) -> bool
    ensures { result ≡ behind_pointer known otherwise t.now }
{
    match t {
        CType::Struct(number) => (*number as usize) < known,
        CType::Void | CType::Int(_) | CType::Pointer(_) | CType::Array(_, _) => otherwise,
    }
}

/// Whether the type is complete where so many structs are, and so many are known (C11 6.2.5, 1 and 22).
#[tactic(auto, using(crate::proofs::TypeForms::complete_types))]
pub fn is_complete(complete: usize, known: usize, t: &CType) -> bool
    ensures { result ≡ rules.is_complete complete known t.now }
{
    match t {
        CType::Void => false,
        CType::Int(_) => true,
        CType::Pointer(to) => behind(known, is_complete(complete, known, to.get()), to.get()),
        CType::Array(of, _) => is_complete(complete, known, of.get()),
        CType::Struct(number) => (*number as usize) < complete,
    }
}

/// Whether an object of the type has at most 65,536 cells.
fn is_small(layouts: &[Layout], t: &CType) -> bool
    ensures { result ≡ nat_le (cells_of layouts.now t.now) most_cells }
{
    match cells(layouts, t) {
        Some(count) => count <= 65_536,
        None => false,
    }
}

/// Whether no array in the type, behind a pointer neither, has more than 65,536 cells.
#[tactic(auto, using(crate::proofs::TypeForms::limits))]
pub fn is_within_limit(layouts: &[Layout], t: &CType) -> bool
    ensures { result ≡ rules.is_within_limit layouts.now t.now }
{
    match t {
        CType::Pointer(to) => is_within_limit(layouts, to.get()),
        CType::Array(of, _) => is_within_limit(layouts, of.get()) && is_small(layouts, t),
        CType::Void | CType::Int(_) | CType::Struct(_) => true,
    }
}

/// The layer around the type.
#[tactic(auto, using(crate::proofs::TypeForms::made_types))]
fn surrounded(alloc: Global, layer: Layer, t: TypePart) -> Result<TypePart, TypeFault>
    ensures { Gives (Ok (around (layers_seen.layer layer) t)) result }
{
    match layer {
        Layer::Pointing => type_part(alloc, CType::Pointer(t.into_boxed())),
        Layer::Sized(count) => type_part(alloc, CType::Array(t.into_boxed(), count)),
    }
}

/// The type of a name whose layers are these, from the name outwards (C11 6.7.6).
#[tactic(auto, unfolding(typing_rules::specs::Declarations::layered))]
pub fn layered(alloc: Global, layers: &[Layer], base: &CType) -> Result<TypePart, TypeFault>
    ensures { Gives (Ok (rules.layered (map layers_seen.layer layers.now) base.now)) result }
{
    match layers.split_first() {
        None => copied(alloc, base),
        Some((first, rest)) => {
            let t = layered(alloc, rest, base)?;
            surrounded(alloc, *first, t)
        }
    }
}
