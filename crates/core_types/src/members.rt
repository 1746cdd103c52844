ghost use Rattle.std.specs.Prelude.{◌≡◌, ◌==◌, ◌<◌, ℕ, zero, suc, length, take, position, option_map, sum_by};
ghost use Rattle.std.specs.Str.{bytes_eq};
ghost use Rattle.core_types.specs.Counts.{Counts};
ghost use Rattle.step_meaning.specs.TypeRules.{cells as cells_of, member_from as from, member_type as type_at, element_type as type_of_element};

use crate::sizes::{cells, members_size, plus};
use step_meaning::{CType, Declared, Layout};

/// The number of the first member with this name, and none where no member has it (C11 6.5.2.3, 1).
pub fn member_named(members: &[Declared], name: &[u8]) -> Option<usize>
    ensures { result ≡ position (λ d. bytes_eq name.now d.name) members.now }
{
    for index in 0..members.len() {
        if name == members[index].name.as_str().as_bytes() {
            return Some(index);
        }
    }
    None
}

/// The offset of a member in cells: those of the members before it; none where they are 2^128 or more (C11 6.7.2.1, 15).
pub fn member_offset(layouts: &[Layout], members: &[Declared], index: usize) -> Option<u128>
    requires { index < length members.now }
    ensures { Counts (sum_by (λ d. cells_of layouts.now d.ctype) (take index members.now)) result }
{
    members_size(layouts, &members[..index])
}

/// The type of the member at the offset, where the first of these stands at offset `at`.
fn member_from<'a>(
    layouts: &[Layout],
    members: &'a [Declared],
    at: Option<u128>,
    offset: u32,
) -> Option<&'a CType>
    ensures { (n : ℕ) → Counts n at → option_map (λ t. t.now) result ≡ from layouts.now members.now n offset }
{
    match members.split_first() {
        None => None,
        Some((first, rest)) => {
            if is_at(at, offset) {
                Some(&first.ctype)
            } else {
                member_from(
                    layouts,
                    rest,
                    plus(at, cells(layouts, &first.ctype)),
                    offset,
                )
            }
        }
    }
}

/// Whether a count is the offset.
fn is_at(at: Option<u128>, offset: u32) -> bool
    ensures { (n : ℕ) → Counts n at → result ≡ (n == offset) }
{
    match at {
        None => false,
        Some(at) => at == u128::from(offset),
    }
}

/// The type of the member at the offset, in cells, of the struct with this number; none where no member begins there (C11 6.5.2.3).
pub fn member_type<'a>(layouts: &'a [Layout], number: u32, offset: u32) -> Option<&'a CType>
    ensures { option_map (λ t. t.now) result ≡ type_at layouts.now (CType.Struct number) offset }
{
    let number = number as usize;
    if number < layouts.len() {
        member_from(layouts, layouts[number].members.as_slice(), Some(0), offset)
    } else {
        None
    }
}

/// The type of an array's elements, where each has so many cells; none of another type or size (C11 6.5.2.1).
pub fn element_type<'a>(layouts: &[Layout], ctype: &'a CType, size: u32) -> Option<&'a CType>
    ensures { option_map (λ t. t.now) result ≡ type_of_element layouts.now ctype.now size }
{
    match ctype {
        CType::Array(of, _) => {
            if is_at(cells(layouts, of.get()), size) {
                Some(of.get())
            } else {
                None
            }
        }
        CType::Void | CType::Int(_) | CType::Pointer(_) | CType::Struct(_) => None,
    }
}
