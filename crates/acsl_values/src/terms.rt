ghost use Rattle.std.specs.Prelude.{◌≡◌, option_and_then};
ghost use Rattle.step_meaning.specs.Bounded.{TermBounded, PlaceBounded};
ghost use Rattle.step_meaning.specs.Views.{now};
ghost use Rattle.step_meaning.specs.Terms.{value_by, place_by, scalar_value, value_of as meaning_of};
ghost use Rattle.acsl_values.specs.Seen.{meant_if_any, reads_at};

use crate::operators::{member, moved, negated, operated};
use crate::reads::{accessed, parameter, read_if_any, result_of};
use crate::values::{Moment, TermValue, scalar_if_any};
use step_meaning::{Term, TermPlace, Value, View};

/// The value of a term of a predicate or of ghost code as a cell holds it (ACSL, ghost variables and statements): none where the term is
/// undefined, and where it is a pointer whose offset isn't from 0 to 2^32 - 1. It takes no memory.
pub fn value_of<V: View>(term: &Term, view: &V) -> Option<Value>
    ensures { TermBounded (V.sight view.now) term.now (now (V.sight view.now))
        → result ≡ option_and_then scalar_value (meaning_of (V.sight view.now) term.now) }
{
    scalar_if_any(value_at(term, view, Moment::Now))
}

/// The value of a term (ACSL, terms) that reads the memory of the moment; none where it is undefined. It takes no memory.
#[cycle(values)]
pub fn value_at<V: View>(term: &Term, view: &V, moment: Moment) -> Option<TermValue>
    ensures { TermBounded (V.sight view.now) term.now (reads_at (V.sight view.now) moment)
        → meant_if_any result ≡ value_by (V.sight view.now) term.now (reads_at (V.sight view.now) moment) }
{
    match term {
        Term::Int(number) => Some(TermValue::Number(*number)),
        Term::Null => Some(TermValue::Null),
        Term::Load(place, ctype) => {
            read_if_any(view, moment, place_at(place, view, moment), ctype)
        }
        Term::Address(place, _) => place_at(place, view, moment),
        Term::Neg(a) => negated(value_at(a.get(), view, moment)),
        Term::Arith(op, a, b) => operated(
            *op,
            value_at(a.get(), view, moment),
            value_at(b.get(), view, moment),
        ),
        Term::Move(a, b, size) => moved(
            value_at(a.get(), view, moment),
            value_at(b.get(), view, moment),
            *size,
        ),
        Term::AtPre(place, ctype) => read_if_any(
            view,
            Moment::Enter,
            place_at(place, view, Moment::Enter),
            ctype,
        ),
        Term::Accessed => accessed(view),
        Term::Parameter(function, index) => parameter(view, *function, *index),
        Term::Result(function) => result_of(view, *function),
    }
}

/// The pointer to what a place designates.
#[cycle(values)]
fn place_at<V: View>(place: &TermPlace, view: &V, moment: Moment) -> Option<TermValue>
    ensures { PlaceBounded (V.sight view.now) place.now (reads_at (V.sight view.now) moment)
        → meant_if_any result ≡ place_by (V.sight view.now) place.now (reads_at (V.sight view.now) moment) }
{
    match place {
        TermPlace::Own(variable) => Some(TermValue::Pointer(view.name_of(variable), 0)),
        TermPlace::Deref(pointer) => value_at(pointer.get(), view, moment),
        TermPlace::Member(of, offset) => member(place_at(of.get(), view, moment), *offset),
        TermPlace::Index(of, index, size) => moved(
            place_at(of.get(), view, moment),
            value_at(index.get(), view, moment),
            *size,
        ),
    }
}
