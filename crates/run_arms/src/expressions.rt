//! Expressions and lvalues that begin.

ghost use Rattle.std.specs.Prelude.{◌≡◌, ◌+◌, ◌≤◌, length};
ghost use Rattle.run_turns.specs.Pending as pending;
ghost use Rattle.run_turns.specs.Turns.{evaluated, located, pushed};
ghost use Rattle.run_state.specs.Machine.{access_of, awaiting_of, configuration_of, fixed_of, operand_of};

use run_state::{
    Access, Awaiting, Designation, Machine, Operand, Selection, Told, Work, designated,
};
use sqlite_items::Boxed;
use step_meaning::{Answer, CType, Expr, Place_, UpdateOp, Value};

/// An operator whose first operand begins.
fn operate<'a>(machine: &mut Machine<'a>, operand: Operand<'a>, first: &'a Boxed<Expr>)
    requires free { length machine.old.work.0 + 2 ≤ machine.old.work.1 }
    ensures fixed { fixed_of machine.new ≡ fixed_of machine.old }
    ensures turned { configuration_of machine.new ≡ pushed (pending.Evaluate first.now) (pushed (pending.Operate (operand_of operand.entry)) (configuration_of machine.old)) }
{
    machine.push_two(Work::Operate(operand), Work::Evaluate(first.get()));
}

/// An operator with two operands, whose first one begins.
fn operate_two<'a>(
    machine: &mut Machine<'a>,
    awaiting: Awaiting,
    first: &'a Boxed<Expr>,
    second: &'a Boxed<Expr>,
)
    requires free { length machine.old.work.0 + 2 ≤ machine.old.work.1 }
    ensures fixed { fixed_of machine.new ≡ fixed_of machine.old }
    ensures turned { configuration_of machine.new ≡ pushed (pending.Evaluate first.now) (pushed (pending.Operate (awaiting_of awaiting second.now)) (configuration_of machine.old)) }
{
    operate(machine, Operand::Right(awaiting, second.get()), first);
}

/// `? :`, whose condition begins.
fn choose<'a>(
    machine: &mut Machine<'a>,
    condition: &'a Boxed<Expr>,
    first: &'a Boxed<Expr>,
    second: &'a Boxed<Expr>,
)
    requires free { length machine.old.work.0 + 2 ≤ machine.old.work.1 }
    ensures fixed { fixed_of machine.new ≡ fixed_of machine.old }
    ensures turned { configuration_of machine.new ≡ pushed (pending.Evaluate condition.now) (pushed (pending.Operate (pending.Choose first.now second.now)) (configuration_of machine.old)) }
{
    operate(
        machine,
        Operand::Choose(first.get(), second.get()),
        condition,
    );
}

/// An access to an lvalue, which begins.
fn access<'a>(machine: &mut Machine<'a>, access: Access<'a>, p: &'a Place_)
    requires free { length machine.old.work.0 + 2 ≤ machine.old.work.1 }
    ensures fixed { fixed_of machine.new ≡ fixed_of machine.old }
    ensures turned { configuration_of machine.new ≡ pushed (pending.Locate p.now) (pushed (pending.Accessed (access_of access.entry)) (configuration_of machine.old)) }
{
    machine.push_two(Work::Accessed(access), Work::Locate(p));
}

/// An assignment, whose place begins.
fn assign<'a>(machine: &mut Machine<'a>, p: &'a Place_, ctype: &'a CType, right: &'a Boxed<Expr>)
    requires free { length machine.old.work.0 + 2 ≤ machine.old.work.1 }
    ensures fixed { fixed_of machine.new ≡ fixed_of machine.old }
    ensures turned { configuration_of machine.new ≡ pushed (pending.Locate p.now) (pushed (pending.Accessed (pending.AssignRight ctype.now right.now)) (configuration_of machine.old)) }
{
    access(machine, Access::AssignRight(ctype, right.get()), p);
}

/// A compound assignment, whose place begins.
fn update<'a>(
    machine: &mut Machine<'a>,
    p: &'a Place_,
    ctype: &'a CType,
    operator: UpdateOp,
    right: &'a Boxed<Expr>,
    answer: Answer,
)
    requires free { length machine.old.work.0 + 2 ≤ machine.old.work.1 }
    ensures fixed { fixed_of machine.new ≡ fixed_of machine.old }
    ensures turned { configuration_of machine.new ≡ pushed (pending.Locate p.now) (pushed (pending.Accessed (pending.UpdateOld ctype.now operator right.now answer)) (configuration_of machine.old)) }
{
    access(
        machine,
        Access::UpdateOld(ctype, operator, right.get(), answer),
        p,
    );
}

/// `putchar`, whose operand begins.
fn put_char<'a>(machine: &mut Machine<'a>, operand: &'a Boxed<Expr>)
    requires free { length machine.old.work.0 + 2 ≤ machine.old.work.1 }
    ensures fixed { fixed_of machine.new ≡ fixed_of machine.old }
    ensures turned { configuration_of machine.new ≡ pushed (pending.Evaluate operand.now) (pushed pending.Output (configuration_of machine.old)) }
{
    machine.push_two(Work::Output, Work::Evaluate(operand.get()));
}

/// Begins an expression (C11 6.5).
#[tactic(auto, using(crate::proofs::ExpressionViews::at_expressions))]
pub fn evaluate<'a>(machine: &mut Machine<'a>, e: &'a Expr)
    requires free { length machine.old.work.0 + 2 ≤ machine.old.work.1 }
    ensures fixed { fixed_of machine.new ≡ fixed_of machine.old }
    ensures turned { configuration_of machine.new ≡ evaluated e.now (configuration_of machine.old) }
{
    match e {
        Expr::Literal(_, n) => machine.told = Told::Gave(Value::Int(*n)),
        Expr::Null => machine.told = Told::Gave(Value::Null),
        Expr::Load(p, t) => access(machine, Access::LoadAt(t), p),
        Expr::Address(p, _) => access(machine, Access::AddressOf, p),
        Expr::Convert(k, a) => operate(machine, Operand::Convert(*k), a),
        Expr::Unary(o, k, a) => operate(machine, Operand::Unary(*o, *k), a),
        Expr::Binary(o, k, a, b) => operate_two(machine, Awaiting::Binary(*o, *k), a, b),
        Expr::Compare(o, a, b) => operate_two(machine, Awaiting::Compare(*o), a, b),
        Expr::Move(a, b, size, side) => operate_two(machine, Awaiting::Move(*size, *side), a, b),
        Expr::Difference(a, b, unit) => operate_two(machine, Awaiting::Difference(*unit), a, b),
        Expr::Not(a) => operate(machine, Operand::Negated, a),
        Expr::Both(a, b) => operate_two(machine, Awaiting::Both, a, b),
        Expr::Either(a, b) => operate_two(machine, Awaiting::Either, a, b),
        Expr::Choose(a, b, c) => choose(machine, a, b, c),
        Expr::Assign(p, t, a) => assign(machine, p, t, a),
        Expr::Update(p, t, o, a, w) => update(machine, p, t, *o, a, *w),
        Expr::Invoke(f, es) => machine.work.push(Work::Arguments(*f, es.as_slice(), 0)),
        Expr::GetChar => machine.work.push(Work::Input),
        Expr::PutChar(a) => put_char(machine, a),
        Expr::Malloc(a, t) => operate(machine, Operand::Allocate(t), a),
        Expr::Free(a) => operate(machine, Operand::Release, a),
        Expr::Discard(a) => operate(machine, Operand::Discard, a),
    }
}

/// `*` of a pointer, whose expression begins.
fn dereference<'a>(machine: &mut Machine<'a>, a: &'a Boxed<Expr>)
    requires free { length machine.old.work.0 + 2 ≤ machine.old.work.1 }
    ensures fixed { fixed_of machine.new ≡ fixed_of machine.old }
    ensures turned { configuration_of machine.new ≡ pushed (pending.Evaluate a.now) (pushed (pending.Designate pending.Dereference) (configuration_of machine.old)) }
{
    machine.push_two(
        Work::Designate(Designation::Dereference),
        Work::Evaluate(a.get()),
    );
}

/// A member, whose struct begins.
fn member<'a>(machine: &mut Machine<'a>, p: &'a Boxed<Place_>, offset: u32)
    requires free { length machine.old.work.0 + 2 ≤ machine.old.work.1 }
    ensures fixed { fixed_of machine.new ≡ fixed_of machine.old }
    ensures turned { configuration_of machine.new ≡ pushed (pending.Locate p.now) (pushed (pending.Select (pending.MemberAt offset)) (configuration_of machine.old)) }
{
    machine.push_two(
        Work::Select(Selection::MemberAt(offset)),
        Work::Locate(p.get()),
    );
}

/// An element, whose array begins.
fn element<'a>(machine: &mut Machine<'a>, p: &'a Boxed<Place_>, index: &'a Boxed<Expr>, size: u32)
    requires free { length machine.old.work.0 + 2 ≤ machine.old.work.1 }
    ensures fixed { fixed_of machine.new ≡ fixed_of machine.old }
    ensures turned { configuration_of machine.new ≡ pushed (pending.Locate p.now) (pushed (pending.Select (pending.ElementAt index.now size)) (configuration_of machine.old)) }
{
    machine.push_two(
        Work::Select(Selection::ElementAt(index.get(), size)),
        Work::Locate(p.get()),
    );
}

/// Begins an lvalue (C11 6.3.2.1).
#[tactic(auto, using(crate::proofs::ExpressionViews::at_places))]
pub fn locate<'a>(machine: &mut Machine<'a>, p: &'a Place_)
    requires free { length machine.old.work.0 + 2 ≤ machine.old.work.1 }
    ensures fixed { fixed_of machine.new ≡ fixed_of machine.old }
    ensures turned { configuration_of machine.new ≡ located p.now (configuration_of machine.old) }
{
    match p {
        Place_::Own(v) => machine.told = Told::Found(designated(machine.activation, *v, 0)),
        Place_::Deref(a) => dereference(machine, a),
        Place_::Member(q, offset) => member(machine, q, *offset),
        Place_::Index(q, a, size) => element(machine, q, a, *size),
    }
}
