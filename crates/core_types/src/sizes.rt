ghost use Rattle.std.specs.Prelude.{◌≡◌, ◌+◌, ◌*◌, ℕ, length, flat_map};
ghost use Rattle.core_types.specs.Counts.{Counts};
ghost use Rattle.step_meaning.specs.Types.{object_cells};
ghost use Rattle.step_meaning.specs.TypeRules.{cells as cells_of};

use step_meaning::{CType, Declared, Layout};

/// So many times a size.
fn times(count: u32, size: Option<u128>) -> Option<u128>
    ensures { (n : ℕ) → Counts n size → Counts (count * n) result }
{
    if count == 0 {
        return Some(0);
    }
    match size {
        None => None,
        Some(size) => u128::from(count).checked_mul(size),
    }
}

/// The sum of two sizes.
pub(crate) fn plus(a: Option<u128>, b: Option<u128>) -> Option<u128>
    ensures { (m n : ℕ) → Counts m a → Counts n b → Counts (m + n) result }
{
    match (a, b) {
        (Some(a), Some(b)) => a.checked_add(b),
        _ => None,
    }
}

/// The cells of an object of the type in a program with these structs; none where they are 2^128 or more (C11 6.5.3.4, in cells). A struct's own
/// structs are gone through anew each time, in as many steps as it has members and theirs.
#[cycle(size)]
#[tactic(auto, using(crate::proofs::SizeLaws::array_size, crate::proofs::SizeLaws::array_depth))]
pub fn cells(layouts: &[Layout], ctype: &CType) -> Option<u128>
    ensures { Counts (cells_of layouts.now ctype.now) result }
{
    match ctype {
        CType::Void => Some(0),
        CType::Int(_) => Some(1),
        CType::Pointer(_) => Some(1),
        CType::Array(of, count) => times(*count, cells(layouts, of.get())),
        CType::Struct(number) => struct_size(layouts, *number as usize),
    }
}

/// The cells of the struct with this number.
#[cycle(size)]
#[tactic(auto, using(crate::proofs::SizeLaws::struct_size, crate::proofs::SizeLaws::no_struct, crate::proofs::SizeLaws::part_of_bulk))]
fn struct_size(layouts: &[Layout], number: usize) -> Option<u128>
    ensures { Counts (length (object_cells layouts.now (CType.Struct number))) result }
{
    if number < layouts.len() {
        members_size(&layouts[..number], layouts[number].members.as_slice())
    } else {
        Some(0)
    }
}

/// The cells of members, with the structs before theirs.
#[cycle(size)]
#[tactic(auto, using(crate::proofs::SizeLaws::some_depth))]
pub(crate) fn members_size(before: &[Layout], members: &[Declared]) -> Option<u128>
    ensures { Counts (length (flat_map (λ d. object_cells before.now d.ctype) members.now)) result }
{
    match members.split_first() {
        None => Some(0),
        Some((first, rest)) => plus(cells(before, &first.ctype), members_size(before, rest)),
    }
}
