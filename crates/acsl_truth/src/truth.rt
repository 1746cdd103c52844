ghost use Rattle.std.specs.Prelude.{◌≡◌, ◌&&◌, ◌||◌, not, cond};
ghost use Rattle.step_meaning.specs.Bounded.{TermBounded, IsBounded};
ghost use Rattle.step_meaning.specs.Views.{now};
ghost use Rattle.step_meaning.specs.Terms.{value_of};
ghost use Rattle.step_meaning.specs.Predicates.{is_called, is_event, related as are_related, holds as is_true};

use crate::relations::related;
use crate::separation::separated;
use crate::validity::valid;
use acsl_values::{Moment, value_at};
use step_meaning::{CompareOp, Event, EventKind, Predicate, Term, View};

/// Whether the step calls the function, or another one where the flag is false.
fn called<V: View>(view: &V, function: u32, flag: bool) -> bool
    ensures { result ≡ is_called function flag (V.sight view.now).called }
{
    match view.called() {
        None => false,
        Some(of) => { if flag { function == of } else { function != of } }
    }
}

/// Whether the step is such an event of the function.
fn occurs<V: View>(view: &V, kind: EventKind, function: u32) -> bool
    ensures { result ≡ is_event kind function (V.sight view.now).event }
{
    match view.event() {
        Event::Nothing => false,
        Event::Enter(of) => matches!(kind, EventKind::Call | EventKind::Either) && function == of,
        Event::Return(of) => matches!(kind, EventKind::Return | EventKind::Either)
            && function == of,
    }
}

/// A relation between two terms.
fn relates<V: View>(op: CompareOp, a: &Term, b: &Term, view: &V) -> bool
    ensures { TermBounded (V.sight view.now) a.now (now (V.sight view.now)) → TermBounded (V.sight view.now) b.now (now (V.sight view.now))
        → result ≡ are_related op (value_of (V.sight view.now) a.now) (value_of (V.sight view.now) b.now) }
{
    related(
        op,
        value_at(a, view, Moment::Now),
        value_at(b, view, Moment::Now),
    )
}

fn both(a: bool, b: bool) -> bool
    ensures { result ≡ (a && b) }
{
    a && b
}

fn either(a: bool, b: bool) -> bool
    ensures { result ≡ (a || b) }
{
    a || b
}

fn alike(a: bool, b: bool) -> bool
    ensures { result ≡ cond a b (not b) }
{
    if a { b } else { !b }
}

/// Whether a predicate holds in the view (ACSL, predicates). It takes no memory.
pub fn holds<V: View>(predicate: &Predicate, view: &V) -> bool
    ensures { IsBounded (V.sight view.now) predicate.now → result ≡ is_true (V.sight view.now) predicate.now }
{
    match predicate {
        Predicate::True => true,
        Predicate::False => false,
        Predicate::Not(a) => !holds(a.get(), view),
        Predicate::And(a, b) => both(holds(a.get(), view), holds(b.get(), view)),
        Predicate::Or(a, b) => either(holds(a.get(), view), holds(b.get(), view)),
        Predicate::Implies(a, b) => either(!holds(a.get(), view), holds(b.get(), view)),
        Predicate::Iff(a, b) => alike(holds(a.get(), view), holds(b.get(), view)),
        Predicate::Relation(op, a, b) => relates(*op, a, b, view),
        Predicate::Valid(location) => valid(location, view),
        Predicate::Separated(locations) => separated(locations.as_slice(), view),
        Predicate::Called(function, flag) => called(view, *function, *flag),
        Predicate::Event(kind, function) => occurs(view, *kind, *function),
    }
}
