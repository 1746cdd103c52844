use crate::{
    Expr, ExprPart, IntKind, IntOp, Name, NameKind, Place_, PlacePart, Predicate, PredicatePart,
    RunFault, Stmt, StmtPart, StmtsPart, Term, TermPart, Text, UnaryOp, Value, Variable, convert,
    flows_agree, int_binary, int_unary, outcome_is_computed, pointer_add, pointer_diff,
    same_first_steps,
};
use sqlite_items::Items;
use std::alloc::{AllocError, Global};

#[test]
fn integers(rt: HostRuntime) {
    let greatest = 18446744073709551615;
    assert!(rt;
        matches!(
            int_binary(IntOp::Mul, IntKind::ULong, greatest, greatest),
            Ok(1)
        )
    );
    assert!(rt; matches!(int_binary(IntOp::Div, IntKind::Int, -7, 2), Ok(-3)));
    assert!(rt; matches!(int_binary(IntOp::Shr, IntKind::Int, -7, 1), Ok(-4)));
    assert!(rt;
        matches!(
            int_binary(IntOp::Shl, IntKind::Int, 1, 31),
            Err(RunFault::Overflow)
        )
    );
    assert!(rt; matches!(int_unary(UnaryOp::Invert, IntKind::UInt, 0), Ok(4294967295)));
    assert!(rt; convert(IntKind::Char, 200) == -56);
}

#[test]
fn pointers(rt: HostRuntime) {
    let name = Name {
        kind: NameKind::Global,
        activation: 0,
        index: 0,
    };
    let start = Value::Pointer(name, 3);
    assert!(rt; matches!(pointer_add(start, Some(10), 7), Ok(Value::Pointer(_, 10))));
    assert!(rt; matches!(pointer_add(start, Some(10), 8), Err(RunFault::Pointer)));
    assert!(rt; matches!(pointer_diff(Value::Pointer(name, 9), start, 3), Ok(2)));
}

#[test]
fn names_and_laws(rt: HostRuntime) {
    same_first_steps();
    flows_agree();
    outcome_is_computed();
    match String::from_str(rt.alloc(), "main") {
        Ok(inner) => assert!(rt; Text::from_string(inner).as_str() == "main"),
        Err(_) => assert!(rt; false),
    }
}

/// One part of each sort, made and given back.
fn hold_each(alloc: Global) -> Result<bool, AllocError> {
    let expr = ExprPart::new(alloc, Expr::Literal(IntKind::Int, 1))?;
    let kept = matches!(expr.get(), Expr::Literal(IntKind::Int, 1));
    let place = PlacePart::new(
        alloc,
        Place_::Own(Variable {
            kind: NameKind::Global,
            index: 7,
        }),
    )?;
    let stmt = StmtPart::new(alloc, Stmt::Break)?;
    let term = TermPart::new(alloc, Term::Int(2))?;
    let predicate = PredicatePart::new(alloc, Predicate::True)?;
    let stmts = StmtsPart::new(Items::new(alloc));
    let _expr = expr.into_boxed();
    let _place = place.into_boxed();
    let _stmt = stmt.into_boxed();
    let _term = term.into_boxed();
    let _predicate = predicate.into_boxed();
    let _stmts = stmts.into_items();
    Ok(kept)
}

#[test]
fn parts(rt: HostRuntime) {
    assert!(rt; matches!(hold_each(rt.alloc()), Ok(true)));
}
