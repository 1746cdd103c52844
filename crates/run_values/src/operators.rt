//! Operators at the value of an operand (C11 6.5).

ghost use Rattle.std.specs.Prelude.{◌≡◌, ◌+◌, ◌≤◌, ◌<◌, cond, false, is_some, length, true};
ghost use Rattle.step_meaning.specs.Names.{integer as integer_value, of_truth, truth as is_true};
ghost use Rattle.step_meaning.specs.Numbers.{binary_of, unary_of};
ghost use Rattle.run_turns.specs.Pending as pending;
ghost use Rattle.run_turns.specs.Turns.{elements_moved, giving, moved, new_value, operated, pointing, pushed, ready, updating};
ghost use Rattle.run_state.specs.Machine.{awaiting_of, configuration_of, fixed_of, lvalue_of, operand_of};
ghost use Rattle.run_values.specs.Operands.{AreOperands, AreSided, Computes, IsOperand, MayOperate, MayUpdate};

use crate::accesses::{come, keep};
use crate::comparisons::compare;
use crate::heap::{allocate, release};
use crate::pointers::{difference, move_elements};
use crate::told::{decide, finish, point};
use crate::updates::{update, updated};
use run_state::{
    Awaiting, Left, Located, Machine, Operand, Told, Work, integer, truth, truth_value,
};
use step_meaning::{
    Answer, CType, Expr, IntKind, IntOp, RunFault, Side, UnaryOp, UpdateOp, Value, convert,
    int_binary, int_unary,
};

/// A unary operator on an integer.
fn unary(operator: UnaryOp, kind: IntKind, v: Value) -> Result<i128, RunFault>
    requires { IsOperand kind v }
    ensures { result ≡ unary_of operator kind (integer_value v) }
{
    int_unary(operator, kind, integer(v))
}

/// A binary operator on integers.
fn binary(operator: IntOp, kind: IntKind, v: Value, w: Value) -> Result<i128, RunFault>
    requires { AreOperands operator kind v w }
    ensures { result ≡ binary_of operator kind (integer_value v) (integer_value w) }
{
    int_binary(operator, kind, integer(v), integer(w))
}

/// `&&` at the value of its first operand (C11 6.5.13).
fn both<'a>(machine: &mut Machine<'a>, v: Value, e: &'a Expr)
    requires free { length machine.old.work.0 + 2 ≤ machine.old.work.1 }
    ensures fixed { fixed_of machine.new ≡ fixed_of machine.old }
    ensures turned { configuration_of machine.new ≡ cond (is_true v) (pushed (pending.Evaluate e.now) (pushed (pending.Operate pending.Truth) (ready (configuration_of machine.old)))) (giving (of_truth false) (configuration_of machine.old)) }
{
    if truth(v) {
        come(machine, Operand::Truth, e);
        return;
    }
    machine.told = Told::Gave(truth_value(false));
}

/// `||` at the value of its first operand (C11 6.5.14).
fn either<'a>(machine: &mut Machine<'a>, v: Value, e: &'a Expr)
    requires free { length machine.old.work.0 + 2 ≤ machine.old.work.1 }
    ensures fixed { fixed_of machine.new ≡ fixed_of machine.old }
    ensures turned { configuration_of machine.new ≡ cond (is_true v) (giving (of_truth true) (configuration_of machine.old)) (pushed (pending.Evaluate e.now) (pushed (pending.Operate pending.Truth) (ready (configuration_of machine.old)))) }
{
    if truth(v) {
        machine.told = Told::Gave(truth_value(true));
        return;
    }
    come(machine, Operand::Truth, e);
}

/// The operand of `? :` that a condition chooses.
fn chosen<'a>(v: Value, first: &'a Expr, second: &'a Expr) -> &'a Expr
    ensures { result.now ≡ cond (is_true v) first.now second.now }
{
    if truth(v) { first } else { second }
}

/// `? :` at the value of its condition (C11 6.5.15).
fn choose<'a>(machine: &mut Machine<'a>, v: Value, first: &'a Expr, second: &'a Expr)
    requires free { length machine.old.work.0 + 2 ≤ machine.old.work.1 }
    ensures fixed { fixed_of machine.new ≡ fixed_of machine.old }
    ensures turned { configuration_of machine.new ≡ pushed (pending.Evaluate (cond (is_true v) first.now second.now)) (ready (configuration_of machine.old)) }
{
    machine.work.push(Work::Evaluate(chosen(v, first, second)));
    machine.told = Told::Left(Left::Next);
}

/// Goes on with the second operand of an operator, or without it.
fn second<'a>(machine: &mut Machine<'a>, awaiting: Awaiting, e: &'a Expr, v: Value)
    requires free { length machine.old.work.0 + 2 ≤ machine.old.work.1 }
    ensures fixed { fixed_of machine.new ≡ fixed_of machine.old }
    ensures turned { moved (configuration_of machine.new) ≡ operated machine.old.core.now (awaiting_of awaiting e.now) v (configuration_of machine.old) }
{
    match awaiting {
        Awaiting::Binary(o, k) => come(machine, Operand::BinaryNow(o, k, v), e),
        Awaiting::Compare(o) => come(machine, Operand::CompareNow(o, v), e),
        Awaiting::Both => both(machine, v, e),
        Awaiting::Either => either(machine, v, e),
        Awaiting::Move(size, side) => come(machine, Operand::MoveNow(size, side, v), e),
        Awaiting::Difference(unit) => come(machine, Operand::DifferenceNow(unit, v), e),
    }
}

/// A pointer moved by elements, where both operands are there.
fn move_now(machine: &mut Machine<'_>, size: u32, side: Side, v: Value, w: Value)
    requires free { length machine.old.work.0 < machine.old.work.1 }
    requires sided { AreSided side v w }
    ensures fixed { fixed_of machine.new ≡ fixed_of machine.old }
    ensures turned { configuration_of machine.new ≡ pointing (elements_moved machine.old.memory.memory side size v w) (configuration_of machine.old) }
{
    let outcome = move_elements(&machine.memory, side, size, v, w);
    point(machine, outcome);
}

/// A compound assignment, where both values are there.
fn update_now<'a>(
    machine: &mut Machine<'a>,
    ctype: &'a CType,
    operator: UpdateOp,
    which: Answer,
    l: Located,
    old: Value,
    v: Value,
)
    requires free { length machine.old.work.0 + 2 ≤ machine.old.work.1 }
    requires may { MayUpdate operator ctype.now old v }
    ensures fixed { fixed_of machine.new ≡ fixed_of machine.old }
    ensures turned { configuration_of machine.new ≡ updating ctype.now which (lvalue_of l) old (new_value machine.old.memory.memory ctype.now operator old v) (configuration_of machine.old) }
{
    let outcome = updated(&machine.memory, ctype, operator, old, v);
    update(machine, ctype, which, l, old, outcome);
}

/// Goes on with an operator at a value that makes no step.
fn compute<'a>(machine: &mut Machine<'a>, operand: Operand<'a>, v: Value)
    requires free { length machine.old.work.0 + 2 ≤ machine.old.work.1 }
    requires computes { Computes (operand_of operand) }
    requires may { MayOperate machine.old (operand_of operand) v }
    ensures fixed { fixed_of machine.new ≡ fixed_of machine.old }
    ensures turned { moved (configuration_of machine.new) ≡ operated machine.old.core.now (operand_of operand.entry) v (configuration_of machine.old) }
{
    match operand {
        Operand::Convert(k) => machine.told = Told::Gave(Value::Int(convert(k, integer(v)))),
        Operand::Unary(o, k) => finish(machine, unary(o, k, v)),
        Operand::Right(awaiting, e) => second(machine, awaiting, e, v),
        Operand::BinaryNow(o, k, w) => finish(machine, binary(o, k, w, v)),
        Operand::CompareNow(o, w) => decide(machine, compare(o, w, v)),
        Operand::Negated => machine.told = Told::Gave(truth_value(!truth(v))),
        Operand::Truth => machine.told = Told::Gave(truth_value(truth(v))),
        Operand::Choose(e, f) => choose(machine, v, e, f),
        Operand::Discard => machine.told = Told::Gave(Value::Int(0)),
        Operand::MoveNow(size, side, w) => move_now(machine, size, side, w, v),
        Operand::DifferenceNow(unit, w) => finish(machine, difference(w, v, unit)),
        Operand::UpdateRight(t, o, e, w, l) => {
            come(machine, Operand::UpdateNow(t, o, w, l, v), e);
        }
        Operand::UpdateNow(t, o, w, l, old) => update_now(machine, t, o, w, l, old, v),
        Operand::Instead(w) => machine.told = Told::Gave(w),
        Operand::Store(_, _) => unreachable!(),
        Operand::Allocate(_) => unreachable!(),
        Operand::Release => unreachable!(),
    }
}

/// Goes on with an operator at a value, and answers whether that made a step.
pub fn operate<'a>(machine: &mut Machine<'a>, operand: Operand<'a>, v: Value) -> bool
    requires free { length machine.old.work.0 + 2 ≤ machine.old.work.1 }
    requires may { MayOperate machine.old (operand_of operand) v }
    ensures fixed { fixed_of machine.new ≡ fixed_of machine.old }
    ensures made { result ≡ is_some (operated machine.old.core.now (operand_of operand.entry) v (configuration_of machine.old)).step }
    ensures turned { configuration_of machine.new ≡ (operated machine.old.core.now (operand_of operand.entry) v (configuration_of machine.old)).after }
{
    match operand {
        Operand::Store(t, l) => keep(machine, t, l, v),
        Operand::Allocate(t) => {
            allocate(machine, t, v);
            true
        }
        Operand::Release => {
            release(machine, v);
            true
        }
        _ => {
            compute(machine, operand, v);
            false
        }
    }
}
