ghost use Rattle.std.specs.Prelude.{◌≡◌, [], ◌∷◌, flat_map};
ghost use Rattle.step_meaning.specs.Types.{object_cells, times};
ghost use Rattle.step_meaning.specs.Predicates.{denoted_types};
ghost use Rattle.acsl_truth.specs.Accesses.{past};

use step_meaning::{CType, Declared, Layout, Name, View};

/// The offset past a cell that may be accessed at the type; none where it may not.
fn past_cell<V: View>(view: &V, name: &Name, ctype: &CType, at: u64) -> Option<u64>
    ensures { result ≡ past (V.sight view.now) name.now at (ctype.now ∷ []) }
{
    if at < 1 << 32 && view.allowed(name, at as u32, ctype) {
        Some(at + 1)
    } else {
        None
    }
}

/// The offset past an object of the type, each cell of which may be accessed at its own type; none where one may not.
#[cycle(walk)]
#[tactic(auto, using(core_types::proofs::SizeLaws::array_depth))]
fn past_object<V: View>(
    view: &V,
    name: &Name,
    layouts: &[Layout],
    ctype: &CType,
    at: u64,
) -> Option<u64>
    ensures { result ≡ past (V.sight view.now) name.now at (object_cells layouts.now ctype.now) }
{
    match ctype {
        CType::Void => Some(at),
        CType::Int(_) | CType::Pointer(_) => past_cell(view, name, ctype, at),
        CType::Array(of, count) => past_elements(view, name, layouts, of.get(), *count, at),
        CType::Struct(number) => past_struct(view, name, layouts, *number as usize, at),
    }
}

/// The offset past so many elements of the type.
#[cycle(walk)]
fn past_elements<V: View>(
    view: &V,
    name: &Name,
    layouts: &[Layout],
    of: &CType,
    count: u32,
    mut at: u64,
) -> Option<u64>
    ensures { result ≡ past (V.sight view.now) name.now at (times count (object_cells layouts.now of.now)) }
{
    for _ in 0..count {
        let Some(next) = past_object(view, name, layouts, of, at) else {
            return None;
        };
        if next == at {
            return Some(at);
        }
        at = next;
    }
    Some(at)
}

/// The offset past the struct with this number.
#[cycle(walk)]
#[tactic(auto, using(core_types::proofs::SizeLaws::part_of_bulk))]
fn past_struct<V: View>(
    view: &V,
    name: &Name,
    layouts: &[Layout],
    number: usize,
    at: u64,
) -> Option<u64>
    ensures { result ≡ past (V.sight view.now) name.now at (object_cells layouts.now (CType.Struct number)) }
{
    if number < layouts.len() {
        past_members(
            view,
            name,
            &layouts[..number],
            layouts[number].members.as_slice(),
            at,
        )
    } else {
        Some(at)
    }
}

/// The offset past members, with the structs before theirs.
#[cycle(walk)]
#[tactic(auto, using(crate::proofs::StructMembers::member_depth))]
fn past_members<V: View>(
    view: &V,
    name: &Name,
    before: &[Layout],
    members: &[Declared],
    mut at: u64,
) -> Option<u64>
    ensures { result ≡ past (V.sight view.now) name.now at (flat_map (λ d. object_cells before.now d.ctype) members.now) }
{
    for index in 0..members.len() {
        let Some(next) = past_object(view, name, before, &members[index].ctype, at) else {
            return None;
        };
        at = next;
    }
    Some(at)
}

/// The offset past the object that a pointer to the type designates, where `void` stands for one cell.
pub(crate) fn past_denoted<V: View>(view: &V, name: &Name, ctype: &CType, at: u64) -> Option<u64>
    ensures { result ≡ past (V.sight view.now) name.now at (denoted_types (V.sight view.now).layouts ctype.now) }
{
    match ctype {
        CType::Void => past_cell(view, name, ctype, at),
        CType::Int(_) | CType::Pointer(_) | CType::Array(_, _) | CType::Struct(_) => {
            past_object(view, name, view.layouts(), ctype, at)
        }
    }
}
