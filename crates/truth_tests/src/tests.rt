//! Rows of the meaning of predicates, each with the answer that the rules give.
use crate::view::SmallView;
use acsl_truth::holds;
use acsl_values::value_of;
use sqlite_items::{Boxed, Items};
use std::alloc::{AllocError, Global};
use std::test::Fail;
use step_meaning::{
    CType, CompareOp, Event, EventKind, IntKind, IntOp, Location, Name, NameKind, Predicate, Term,
    TermPlace, Value, Variable,
};

/// `x` holds 3, and held 5 at the Enter step; the step calls function 7 and is the entry of function 9.
fn seen(alloc: Global) -> SmallView {
    SmallView {
        layouts: Vec::new(alloc),
        x: 3,
        x_at_enter: 5,
        accessed: None,
        called: Some(7),
        event: Event::Enter(9),
    }
}

fn int() -> CType {
    CType::Int(IntKind::Int)
}

fn variable(index: u32) -> TermPlace {
    TermPlace::Own(Variable {
        kind: NameKind::Global,
        index,
    })
}

fn operation(alloc: Global, op: IntOp, a: i128, b: i128) -> Result<Term, AllocError> {
    let left = Boxed::new(alloc, Term::Int(a))?;
    let right = Boxed::new(alloc, Term::Int(b))?;
    Ok(Term::Arith(op, left, right))
}

/// `&a[index]`
fn element(alloc: Global, index: i128) -> Result<Term, AllocError> {
    let array = Boxed::new(alloc, variable(1))?;
    let index = Boxed::new(alloc, Term::Int(index))?;
    Ok(Term::Address(TermPlace::Index(array, index, 1), int()))
}

/// `base + (first .. last)`
fn range(base: Term, first: i128, last: i128) -> Location {
    Location {
        base,
        ctype: int(),
        span: Some((Term::Int(first), Term::Int(last))),
    }
}

fn judged(predicate: Predicate, view: &SmallView) -> bool {
    holds(&predicate, view)
}

/// Whether the relation holds of the term and the number.
fn related(op: CompareOp, term: Term, number: i128, view: &SmallView) -> bool {
    judged(Predicate::Relation(op, term, Term::Int(number)), view)
}

#[test]
fn reads(rt: HostRuntime) -> Result<(), Fail> {
    let view = seen(rt.alloc());
    assert!(rt; related(CompareOp::Equal, Term::Load(variable(0), int()), 3, &view));
    assert!(rt; related(CompareOp::Equal, Term::AtPre(variable(0), int()), 5, &view));
    Ok(())
}

#[test]
fn arithmetic(rt: HostRuntime) -> Result<(), Fail> {
    let alloc = rt.alloc();
    let view = seen(alloc);
    let undefined = operation(alloc, IntOp::Div, 7, 0)?;
    assert!(rt; !related(CompareOp::Unequal, undefined, 1, &view));
    let quotient = operation(alloc, IntOp::Div, -7, 2)?;
    assert!(rt; related(CompareOp::Equal, quotient, -3, &view));
    let remainder = operation(alloc, IntOp::Rem, -7, 2)?;
    assert!(rt; related(CompareOp::Less, remainder, 0, &view));
    let pointer = element(alloc, 0)?;
    assert!(rt; related(CompareOp::Unequal, pointer, 0, &view));
    Ok(())
}

/// Whether `&a[index] + (first .. last)` is valid.
fn is_valid(
    alloc: Global,
    view: &SmallView,
    index: i128,
    first: i128,
    last: i128,
) -> Result<bool, AllocError> {
    let base = element(alloc, index)?;
    Ok(judged(Predicate::Valid(range(base, first, last)), view))
}

#[test]
fn validity(rt: HostRuntime) -> Result<(), Fail> {
    let alloc = rt.alloc();
    let view = seen(alloc);
    assert!(rt; is_valid(alloc, &view, 0, 0, 9)?);
    assert!(rt; !is_valid(alloc, &view, 1, 0, 9)?);
    assert!(rt; !is_valid(alloc, &view, 0, 0, 4_000_000_000)?);
    assert!(rt; is_valid(alloc, &view, 20, 1, 0)?);
    assert!(rt; !judged(Predicate::Valid(range(Term::Null, 1, 0)), &view));
    Ok(())
}

/// One location more: `&a[index] + (first .. last)`.
fn push_range(
    alloc: Global,
    locations: &mut Items<Location>,
    index: i128,
    first: i128,
    last: i128,
) -> Result<(), AllocError> {
    let base = element(alloc, index)?;
    locations.push(range(base, first, last))
}

/// Whether `&a[0] + (first .. 4)` and `&a[2] + (second .. 7)` are apart.
fn are_apart(alloc: Global, first: i128, second: i128) -> Result<bool, AllocError> {
    let mut locations = Items::new(alloc);
    push_range(alloc, &mut locations, 0, first, 4)?;
    push_range(alloc, &mut locations, 2, second, 7)?;
    Ok(judged(Predicate::Separated(locations), &seen(alloc)))
}

#[test]
fn separation(rt: HostRuntime) -> Result<(), Fail> {
    let alloc = rt.alloc();
    assert!(rt; are_apart(alloc, 0, 3)?);
    assert!(rt; !are_apart(alloc, 0, 2)?);
    assert!(rt; are_apart(alloc, 5, 2)?);
    Ok(())
}

#[test]
fn calls_and_events(rt: HostRuntime) -> Result<(), Fail> {
    let view = seen(rt.alloc());
    assert!(rt; judged(Predicate::Called(7, true), &view));
    assert!(rt; !judged(Predicate::Called(7, false), &view));
    assert!(rt; judged(Predicate::Event(EventKind::Either, 9), &view));
    assert!(rt; !judged(Predicate::Event(EventKind::Return, 9), &view));
    Ok(())
}

#[test]
fn values(rt: HostRuntime) -> Result<(), Fail> {
    let alloc = rt.alloc();
    let view = seen(alloc);
    assert!(rt;
        matches!(
            value_of(&Term::Load(variable(0), int()), &view),
            Some(Value::Int(3))
        )
    );
    let inside = element(alloc, 4)?;
    assert!(rt;
        matches!(
            value_of(&inside, &view),
            Some(Value::Pointer(
                Name {
                    kind: NameKind::Global,
                    activation: 0,
                    index: 1
                },
                4
            ))
        )
    );
    Ok(())
}

#[test]
fn offsets_below_zero_have_no_value(rt: HostRuntime) -> Result<(), Fail> {
    let alloc = rt.alloc();
    let before = element(alloc, -1)?;
    assert!(rt; value_of(&before, &seen(alloc)).is_none());
    Ok(())
}
