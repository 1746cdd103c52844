//! Letting go of expressions. A chain of operators nests on the left as deep as it is long, and so do suffixes: so the first
//! operand is let go in a loop, and the others by recursion, which goes no deeper than parentheses do in a text.

ghost use Rattle.std.specs.Prelude.{◌≤◌};
ghost use Rattle.step_meaning.specs.declared.expr.Expr.{size-Expr};
ghost use Rattle.step_meaning.specs.declared.expr.Place_.{size-Place_};
ghost use Rattle.step_meaning.specs.LettingGo.{rest_size};

use crate::expr::{Expr, Place_};
use sqlite_items::Items;

/// What is still to be let go.
#[derive(Drop)]
pub(crate) enum Rest {
    Value(Expr),
    Lvalue(Place_),
    Nothing,
}

/// Lets go of an expression or an lvalue.
#[cycle(letting_go)]
pub(crate) fn let_go(rest: Rest) {
    let mut rest = rest;
    loop {
        rest = match rest {
            Rest::Value(e) => first_operand(e),
            Rest::Lvalue(p) => first_of_place(p),
            Rest::Nothing => return,
        };
    }
}

/// Lets go of an expression.
#[cycle(letting_go)]
fn value_goes(e: Expr) {
    let_go(Rest::Value(e));
}

/// Lets go of a list of expressions.
#[cycle(letting_go)]
pub(crate) fn all_go(expressions: Items<Expr>) {
    let mut rest = expressions;
    loop {
        match rest.pop() {
            Some(e) => value_goes(e),
            None => return,
        }
    }
}

/// Lets go of all operands but the first one.
#[cycle(letting_go)]
fn first_operand(e: Expr) -> Rest
    ensures { rest_size result ≤ size-Expr e }
{
    match e {
        Expr::Literal(_, _) => Rest::Nothing,
        Expr::Null => Rest::Nothing,
        Expr::GetChar => Rest::Nothing,
        Expr::Load(p, _t) => Rest::Lvalue(p),
        Expr::Address(p, _t) => Rest::Lvalue(p),
        Expr::Convert(_, e) => Rest::Value(e.into_inner()),
        Expr::Unary(_, _, e) => Rest::Value(e.into_inner()),
        Expr::Not(e) => Rest::Value(e.into_inner()),
        Expr::PutChar(e) => Rest::Value(e.into_inner()),
        Expr::Malloc(e, _t) => Rest::Value(e.into_inner()),
        Expr::Free(e) => Rest::Value(e.into_inner()),
        Expr::Discard(e) => Rest::Value(e.into_inner()),
        Expr::Binary(_, _, e, f) => {
            value_goes(f.into_inner());
            Rest::Value(e.into_inner())
        }
        Expr::Compare(_, e, f) => {
            value_goes(f.into_inner());
            Rest::Value(e.into_inner())
        }
        Expr::Move(e, f, _, _) => {
            value_goes(f.into_inner());
            Rest::Value(e.into_inner())
        }
        Expr::Difference(e, f, _) => {
            value_goes(f.into_inner());
            Rest::Value(e.into_inner())
        }
        Expr::Both(e, f) => {
            value_goes(f.into_inner());
            Rest::Value(e.into_inner())
        }
        Expr::Either(e, f) => {
            value_goes(f.into_inner());
            Rest::Value(e.into_inner())
        }
        Expr::Choose(e, f, g) => {
            value_goes(f.into_inner());
            value_goes(g.into_inner());
            Rest::Value(e.into_inner())
        }
        Expr::Assign(p, _t, e) => {
            let_go(Rest::Lvalue(p));
            Rest::Value(e.into_inner())
        }
        Expr::Update(p, _t, _, e, _) => {
            let_go(Rest::Lvalue(p));
            Rest::Value(e.into_inner())
        }
        Expr::Invoke(_, arguments) => {
            all_go(arguments);
            Rest::Nothing
        }
    }
}

#[cycle(letting_go)]
fn first_of_place(p: Place_) -> Rest
    ensures { rest_size result ≤ size-Place_ p }
{
    match p {
        Place_::Own(_) => Rest::Nothing,
        Place_::Deref(e) => Rest::Value(e.into_inner()),
        Place_::Member(p, _) => Rest::Lvalue(p.into_inner()),
        Place_::Index(p, e, _) => {
            value_goes(e.into_inner());
            Rest::Lvalue(p.into_inner())
        }
    }
}
