ghost use Rattle.std.specs.Prelude.{◌≡◌, List, Option, All, map, Some};
ghost use Rattle.step_meaning.specs.Bounded.{LocationBounded};
ghost use Rattle.step_meaning.specs.Predicates.{Denoted, denoted, when_defined, are_disjoint, are_disjoint_in_pairs, all_defined};
ghost use Rattle.acsl_truth.specs.Ranges.{Denotes, IsRangeOf, is_apart_from_all};

use crate::ranges::{Range, do_meet, object_size, objects_within};
use acsl_values::{Moment, TermValue, value_at};
use step_meaning::{Location, View};

/// The cells that a location denotes; none where one of its terms is undefined (ACSL, memory locations).
fn range_of<V: View>(location: &Location, view: &V) -> Option<Range>
    ensures { LocationBounded (V.sight view.now) location.now → Denotes result (denoted (V.sight view.now) location.now) }
{
    let base = value_at(&location.base, view, Moment::Now);
    let size = object_size(view.layouts(), &location.ctype);
    match &location.span {
        None => objects_within(
            base,
            Some(TermValue::Number(0)),
            Some(TermValue::Number(0)),
            size,
        ),
        Some((first, last)) => objects_within(
            base,
            value_at(first, view, Moment::Now),
            value_at(last, view, Moment::Now),
            size,
        ),
    }
}

/// Whether the second range is known and has no cell of the first.
fn is_disjoint(range: Range, other: Option<Range>) -> bool
    ensures { (cs : List Denoted) (o : Option (List Denoted)) → IsRangeOf range cs → Denotes other o → result ≡ when_defined (are_disjoint cs) o }
{
    match other {
        None => false,
        Some(other) => !do_meet(range, other),
    }
}

/// Whether all these locations are defined and have no cell of the range.
fn is_apart<V: View>(range: Range, others: &[Location], view: &V) -> bool
    ensures { (cs : List Denoted) → IsRangeOf range cs → All (LocationBounded (V.sight view.now)) others.now
        → result ≡ is_apart_from_all (Some cs) (map (denoted (V.sight view.now)) others.now) }
{
    for other in others {
        if !is_disjoint(range, range_of(other, view)) {
            return false;
        }
    }
    true
}

/// Whether the location is defined and has no cell of the others, which are defined, too.
fn is_apart_if_any<V: View>(range: Option<Range>, others: &[Location], view: &V) -> bool
    ensures { (o : Option (List Denoted)) → Denotes range o → All (LocationBounded (V.sight view.now)) others.now
        → result ≡ is_apart_from_all o (map (denoted (V.sight view.now)) others.now) }
{
    match range {
        None => false,
        Some(range) => is_apart(range, others, view),
    }
}

/// `\separated` (ACSL, memory locations): the locations are defined, and no two of them have a cell in common.
pub(crate) fn separated<V: View>(locations: &[Location], view: &V) -> bool
    ensures { All (LocationBounded (V.sight view.now)) locations.now
        → result ≡ when_defined are_disjoint_in_pairs (all_defined (map (denoted (V.sight view.now)) locations.now)) }
{
    for index in 0..locations.len() {
        let range = range_of(&locations[index], view);
        if !is_apart_if_any(range, &locations[index + 1..], view) {
            return false;
        }
    }
    true
}
