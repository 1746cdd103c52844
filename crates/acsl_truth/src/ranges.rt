ghost use Rattle.std.specs.Prelude.{◌≡◌, ◌+ℤ◌, ◌*ℤ◌, ◌&&◌, ℕ, pos, List, length, int_lt, Some};
ghost use Rattle.step_meaning.specs.declared.value.CType.{CType as TheType};
ghost use Rattle.step_meaning.specs.Bounded.{IsWithin, WhereDefined};
ghost use Rattle.step_meaning.specs.Names.{same_name as are_same_name};
ghost use Rattle.step_meaning.specs.Predicates.{count_from_to, denoted_size, objects_at, objects_between, objects_from};
ghost use Rattle.acsl_values.specs.Seen.{meant, meant_if_any};
ghost use Rattle.acsl_truth.specs.Ranges.{do_meet as ranges_meet, IsCapped, BeginsWithin, StartsWithin, Denotes};

use crate::relations::same_name;
use acsl_values::TermValue;
use core_types::cells;
use step_meaning::{CType, Layout, Name, NameKind};

/// Cells of one variable or heap block, one after the other.
#[derive(Clone, Copy)]
pub(crate) struct Range {
    pub name: Name,
    /// The offset of the first cell.
    pub first: i128,
    /// How many cells there are; the greatest number stands for more, too.
    pub count: u128,
}

/// A range of no cells.
fn no_cells() -> Range
    ensures empty { result.count ≡ 0 }
    ensures begins { result.first ≡ pos 0 }
{
    Range {
        name: Name {
            kind: NameKind::Global,
            activation: 0,
            index: 0,
        },
        first: 0,
        count: 0,
    }
}

/// Whether the offset comes before the end of the cells that begin at `first`.
fn ends_after(first: i128, count: u128, offset: i128) -> bool
    ensures { (n : ℕ) → IsCapped n count → IsWithin first → IsWithin offset → result ≡ int_lt offset (first +ℤ pos n) }
{
    offset < first || offset.abs_diff(first) < count
}

/// Whether two ranges have a cell in common.
pub(crate) fn do_meet(a: Range, b: Range) -> bool
    ensures { (j k : ℕ) → IsCapped j a.count → IsCapped k b.count → IsWithin a.first → IsWithin b.first
        → result ≡ (are_same_name a.name b.name && ranges_meet a.first j b.first k) }
{
    same_name(a.name, b.name)
        && (a.count != 0 && b.count != 0)
        && (ends_after(b.first, b.count, a.first) && ends_after(a.first, a.count, b.first))
}

/// The cells of an object at a pointer to the type, where `void` stands for one cell; the greatest number stands for more, too.
pub(crate) fn object_size(layouts: &[Layout], ctype: &CType) -> u128
    ensures { IsCapped (denoted_size layouts.now ctype.now) result }
{
    match ctype {
        CType::Void => 1,
        CType::Int(_) | CType::Pointer(_) | CType::Array(_, _) | CType::Struct(_) => {
            match cells(layouts, ctype) {
                Some(size) => size,
                None => u128::MAX,
            }
        }
    }
}

/// How many whole numbers there are from a to b.
pub(crate) fn count_between(a: i128, b: i128) -> u128
    ensures { IsWithin a → IsWithin b → result ≡ count_from_to a b }
{
    if b < a {
        0
    } else {
        b.abs_diff(a).saturating_add(1)
    }
}

/// So many objects of a size, in cells.
fn cells_before(objects: i128, size: u128) -> Option<i128>
    ensures { (n : ℕ) → IsCapped n size → IsWithin (objects *ℤ pos n) → result ≡ Some (objects *ℤ pos n) }
{
    if objects == 0 {
        return Some(0);
    }
    match i128::try_from(size) {
        Ok(size) => objects.checked_mul(size),
        Err(_) => None,
    }
}

/// An offset moved by so many objects of a size.
pub(crate) fn moved_by(offset: i128, objects: i128, size: u128) -> Option<i128>
    ensures { (n : ℕ) → IsCapped n size → IsWithin (objects *ℤ pos n) → IsWithin (offset +ℤ (objects *ℤ pos n))
        → result ≡ Some (offset +ℤ (objects *ℤ pos n)) }
{
    match cells_before(objects, size) {
        None => None,
        Some(by) => offset.checked_add(by),
    }
}

/// The objects from a to b at an offset of a variable or heap block.
fn objects_in(name: Name, offset: i128, a: i128, b: i128, size: u128) -> Option<Range>
    ensures { (us : List TheType) → IsCapped (length us) size → IsWithin a → IsWithin b → IsWithin (a *ℤ pos (length us)) → IsWithin (offset +ℤ (a *ℤ pos (length us)))
        → Denotes result (Some (objects_at name (offset +ℤ (a *ℤ pos (length us))) us (count_from_to a b))) }
{
    match moved_by(offset, a, size) {
        None => None,
        Some(first) => Some(Range {
            name,
            first,
            count: count_between(a, b).saturating_mul(size),
        }),
    }
}

/// The objects from a to b at a pointer; none at an integer. Null denotes no cells.
fn objects_of(base: TermValue, a: i128, b: i128, size: u128) -> Option<Range>
    ensures { (us : List TheType) → IsCapped (length us) size → BeginsWithin (meant base) a (length us) → IsWithin a → IsWithin b
        → Denotes result (objects_from (meant base) a b us) }
{
    match base {
        TermValue::Number(_) => None,
        TermValue::Null => Some(no_cells()),
        TermValue::Pointer(name, offset) => objects_in(name, offset, a, b, size),
    }
}

/// The objects from the one term to the other at a pointer; none where a term is undefined.
pub(crate) fn objects_within(
    base: Option<TermValue>,
    first: Option<TermValue>,
    last: Option<TermValue>,
    size: u128,
) -> Option<Range>
    ensures { (us : List TheType) → IsCapped (length us) size → StartsWithin (meant_if_any base) (meant_if_any first) (meant_if_any last) (length us)
        → WhereDefined (meant_if_any first) → WhereDefined (meant_if_any last)
        → Denotes result (objects_between (meant_if_any base) (meant_if_any first) (meant_if_any last) us) }
{
    match base {
        None => None,
        Some(base) => match first {
            Some(TermValue::Number(a)) => match last {
                Some(TermValue::Number(b)) => objects_of(base, a, b, size),
                _ => None,
            },
            _ => None,
        },
    }
}
