//! How much room the parts of a program need on the stack of what is to be done.

ghost use Rattle.std.specs.Prelude.{◌≡◌, ◌+◌, drop, max};
ghost use Rattle.run_turns.specs.Room as room;
ghost use Rattle.run_start.specs.Heights.{capped};

use step_meaning::{Expr, Place_};

/// The sum of two numbers, or the greatest number where there is no such one.
pub fn plus(n: usize, k: usize) -> usize
    ensures { result ≡ capped (n + k) }
{
    n.saturating_add(k)
}

/// The greater one.
pub fn greater(a: usize, b: usize) -> usize
    ensures { result ≡ max a b }
{
    a.max(b)
}

/// The room of what waits for an expression or lvalue with so much room.
fn above(depth: usize) -> usize
    ensures { result ≡ capped (depth + 1) }
{
    plus(depth, 1)
}

/// The room of what waits for the one and then for the other.
fn above_both(a: usize, b: usize) -> usize
    ensures { result ≡ capped (max a b + 1) }
{
    above(greater(a, b))
}

/// The room of an expression.
#[cycle(depths)]
#[tactic(auto, using(crate::proofs::DepthForms::depth_forms))]
pub fn depth(e: &Expr) -> usize
    ensures { result ≡ capped (room.depth e.now) }
{
    match e {
        Expr::Literal(_, _) | Expr::Null | Expr::GetChar => 3,
        Expr::Load(p, _) => above(depth_of_place(p)),
        Expr::Address(p, _) => above(depth_of_place(p)),
        Expr::Convert(_, a) => above(depth(a.get())),
        Expr::Unary(_, _, a) => above(depth(a.get())),
        Expr::Binary(_, _, a, b) => above_both(depth(a.get()), depth(b.get())),
        Expr::Compare(_, a, b) => above_both(depth(a.get()), depth(b.get())),
        Expr::Move(a, b, _, _) => above_both(depth(a.get()), depth(b.get())),
        Expr::Difference(a, b, _) => above_both(depth(a.get()), depth(b.get())),
        Expr::Not(a) => above(depth(a.get())),
        Expr::Both(a, b) => above_both(depth(a.get()), depth(b.get())),
        Expr::Either(a, b) => above_both(depth(a.get()), depth(b.get())),
        Expr::Choose(a, b, c) => {
            above_both(depth(a.get()), greater(depth(b.get()), depth(c.get())))
        }
        Expr::Assign(p, _, a) => above_both(depth_of_place(p), depth(a.get())),
        Expr::Update(p, _, _, a, _) => above_both(depth_of_place(p), depth(a.get())),
        Expr::Invoke(_, arguments) => depth_of_all(arguments.as_slice()),
        Expr::PutChar(a) => above(depth(a.get())),
        Expr::Malloc(a, _) => above(depth(a.get())),
        Expr::Free(a) => above(depth(a.get())),
        Expr::Discard(a) => above(depth(a.get())),
    }
}

/// The room of an lvalue.
#[cycle(depths)]
#[tactic(auto, using(crate::proofs::DepthForms::place_forms))]
pub fn depth_of_place(p: &Place_) -> usize
    ensures { result ≡ capped (room.depth_place p.now) }
{
    match p {
        Place_::Own(_) => 3,
        Place_::Deref(e) => above(depth(e.get())),
        Place_::Member(of, _) => above(depth_of_place(of.get())),
        Place_::Index(of, e, _) => above_both(depth_of_place(of.get()), depth(e.get())),
    }
}

/// The room of the arguments of a call.
#[cycle(depths)]
fn depth_of_all(arguments: &[Expr]) -> usize
    ensures { result ≡ capped (room.depth_all arguments.now) }
{
    let mut left = arguments.len();
    let mut all = 3;
    while left > 0 {
        left -= 1;
        all = greater(above(depth(&arguments[left])), above(all));
    }
    all
}
