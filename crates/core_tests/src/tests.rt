//! Each part gives back what it was made of.
use std::test::Fail;
use step_meaning::{
    CType, Expr, ExprPart, IntKind, NameKind, Place_, PlacePart, Predicate, PredicatePart, Stmt,
    StmtPart, Term, TermPart, Variable,
};
use typing_rules::operand::TypePart;

#[test]
fn parts_of_expressions(rt: HostRuntime) -> Result<(), Fail> {
    let alloc = rt.alloc();
    let part = ExprPart::new(alloc, Expr::Literal(IntKind::Int, 7))?;
    assert!(rt; matches!(part.get(), Expr::Literal(IntKind::Int, 7)));
    let variable = Variable {
        kind: NameKind::Global,
        index: 3,
    };
    let part = PlacePart::new(alloc, Place_::Own(variable))?;
    assert!(rt;
        matches!(
            part.get(),
            Place_::Own(Variable {
                kind: NameKind::Global,
                index: 3
            })
        )
    );
    Ok(())
}

#[test]
fn parts_of_statements(rt: HostRuntime) -> Result<(), Fail> {
    let part = StmtPart::new(rt.alloc(), Stmt::Continue)?;
    assert!(rt; matches!(part.get(), Stmt::Continue));
    Ok(())
}

#[test]
fn parts_of_annotations(rt: HostRuntime) -> Result<(), Fail> {
    let alloc = rt.alloc();
    let part = TermPart::new(alloc, Term::Int(-5))?;
    assert!(rt; matches!(part.get(), Term::Int(-5)));
    let part = PredicatePart::new(alloc, Predicate::True)?;
    assert!(rt; matches!(part.get(), Predicate::True));
    Ok(())
}

#[test]
fn parts_of_types(rt: HostRuntime) -> Result<(), Fail> {
    let part = TypePart::new(rt.alloc(), CType::Struct(2))?;
    assert!(rt; matches!(part.get(), CType::Struct(2)));
    Ok(())
}
