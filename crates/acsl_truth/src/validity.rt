ghost use Rattle.std.specs.Prelude.{◌≡◌, ◌+ℤ◌, ◌*ℤ◌, ◌&&◌, Some, not, pos};
ghost use Rattle.step_meaning.specs.Bounded.{IsWithin, LocationBounded, WhereDefined};
ghost use Rattle.step_meaning.specs.Predicates.{count_from_to, denoted_size, denoted_types, is_null, is_valid, may_access_all, objects_at, objects_between, objects_from, when_defined};
ghost use Rattle.acsl_values.specs.Seen.{meant, meant_if_any};
ghost use Rattle.acsl_truth.specs.Ranges.{BeginsWithin, IsCapped, StartsWithin};

use crate::objects::past_denoted;
use crate::ranges::{count_between, moved_by, object_size};
use acsl_values::{Moment, TermValue, value_at};
use step_meaning::{CType, Location, Name, View};

/// Whether each cell of so many objects, the first of which begins at the offset, may be accessed.
fn objects_allowed<V: View>(view: &V, name: &Name, ctype: &CType, first: u64, count: u128) -> bool
    ensures { result ≡ may_access_all (V.sight view.now) (objects_at name.now (pos first) (denoted_types (V.sight view.now).layouts ctype.now) count) }
{
    let mut at = first;
    for _ in 0..count {
        let Some(next) = past_denoted(view, name, ctype, at) else {
            return false;
        };
        if next == at {
            return true;
        }
        at = next;
    }
    true
}

/// The same at an offset that may lie outside of every variable, where the size of an object is known.
fn run_allowed<V: View>(
    view: &V,
    name: &Name,
    ctype: &CType,
    first: i128,
    count: u128,
    size: u128,
) -> bool
    ensures { IsCapped (denoted_size (V.sight view.now).layouts ctype.now) size
        → result ≡ may_access_all (V.sight view.now) (objects_at name.now first (denoted_types (V.sight view.now).layouts ctype.now) count) }
{
    if count == 0 {
        return true;
    }
    if size == 0 {
        return true;
    }
    if 0 <= first && first < 1 << 32 {
        objects_allowed(view, name, ctype, first as u64, count)
    } else {
        false
    }
}

/// Whether each cell of the objects from a to b at an offset of a variable or heap block may be accessed.
fn span_allowed<V: View>(
    view: &V,
    name: &Name,
    ctype: &CType,
    offset: i128,
    a: i128,
    b: i128,
) -> bool
    ensures { IsWithin a → IsWithin b → IsWithin (a *ℤ pos (denoted_size (V.sight view.now).layouts ctype.now))
        → IsWithin (offset +ℤ (a *ℤ pos (denoted_size (V.sight view.now).layouts ctype.now)))
        → result ≡ may_access_all (V.sight view.now)
        (objects_at name.now (offset +ℤ (a *ℤ pos (denoted_size (V.sight view.now).layouts ctype.now)))
        (denoted_types (V.sight view.now).layouts ctype.now) (count_from_to a b)) }
{
    let size = object_size(view.layouts(), ctype);
    match moved_by(offset, a, size) {
        None => false,
        Some(first) => run_allowed(view, name, ctype, first, count_between(a, b), size),
    }
}

/// Whether the pointer isn't null, and each cell of the objects from a to b at it may be accessed.
fn objects_valid<V: View>(view: &V, base: TermValue, ctype: &CType, a: i128, b: i128) -> bool
    ensures { BeginsWithin (meant base) a (denoted_size (V.sight view.now).layouts ctype.now) → IsWithin a → IsWithin b
        → result ≡ (not (is_null (Some (meant base))) && when_defined (may_access_all (V.sight view.now))
        (objects_from (meant base) a b (denoted_types (V.sight view.now).layouts ctype.now))) }
{
    match base {
        TermValue::Number(_) | TermValue::Null => false,
        TermValue::Pointer(name, offset) => span_allowed(view, &name, ctype, offset, a, b),
    }
}

/// Whether the pointer isn't null, the terms are defined, and each cell of the objects from the one to the other may be accessed.
fn span_valid<V: View>(
    view: &V,
    base: Option<TermValue>,
    first: Option<TermValue>,
    last: Option<TermValue>,
    ctype: &CType,
) -> bool
    ensures { StartsWithin (meant_if_any base) (meant_if_any first) (meant_if_any last) (denoted_size (V.sight view.now).layouts ctype.now)
        → WhereDefined (meant_if_any first) → WhereDefined (meant_if_any last)
        → result ≡ (not (is_null (meant_if_any base)) && when_defined (may_access_all (V.sight view.now))
        (objects_between (meant_if_any base) (meant_if_any first) (meant_if_any last) (denoted_types (V.sight view.now).layouts ctype.now))) }
{
    match base {
        None => false,
        Some(base) => match first {
            Some(TermValue::Number(a)) => match last {
                Some(TermValue::Number(b)) => objects_valid(view, base, ctype, a, b),
                _ => false,
            },
            _ => false,
        },
    }
}

/// `\valid` and `\valid_read` (ACSL, memory locations): the location is defined and not null, and each of its cells may be accessed.
pub(crate) fn valid<V: View>(location: &Location, view: &V) -> bool
    ensures { LocationBounded (V.sight view.now) location.now → result ≡ is_valid (V.sight view.now) location.now }
{
    let base = value_at(&location.base, view, Moment::Now);
    match &location.span {
        None => span_valid(
            view,
            base,
            Some(TermValue::Number(0)),
            Some(TermValue::Number(0)),
            &location.ctype,
        ),
        Some((first, last)) => span_valid(
            view,
            base,
            value_at(first, view, Moment::Now),
            value_at(last, view, Moment::Now),
            &location.ctype,
        ),
    }
}
