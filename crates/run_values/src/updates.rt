//! Compound assignments (C11 6.5.16.2, 6.5.2.4, 6.5.3.1).

ghost use Rattle.std.specs.Prelude.{◌≡◌, ◌+◌, ◌≤◌, length};
ghost use Rattle.step_meaning.specs.Accesses.{answer as answer_of, brought as brought_of, brought_to as brought_to_kind, converted_to as converted_to_type};
ghost use Rattle.step_meaning.specs.Names.{integer as integer_value};
ghost use Rattle.step_meaning.specs.Numbers.{binary_of};
ghost use Rattle.step_meaning.specs.Types.{kind_number as number_of_kind};
ghost use Rattle.run_turns.specs.Turns.{new_integer, new_value, updating};
ghost use Rattle.run_state.specs.Machine.{configuration_of, fixed_of, lvalue_of};
ghost use Rattle.run_values.specs.Operands.{AreUpdated, MayUpdate};

use crate::pointers::{backward, forward};
use run_memory::Store;
use run_state::{Located, Machine, Operand, Told, Work, integer};
use step_meaning::{Answer, CType, IntKind, IntOp, RunFault, UpdateOp, Value, convert, int_binary};

/// The number of a kind of integers, which are all different.
fn kind_number(kind: IntKind) -> u8
    ensures { result ≡ number_of_kind kind }
{
    match kind {
        IntKind::Char => 0,
        IntKind::SChar => 1,
        IntKind::UChar => 2,
        IntKind::Short => 3,
        IntKind::UShort => 4,
        IntKind::Int => 5,
        IntKind::UInt => 6,
        IntKind::Long => 7,
        IntKind::ULong => 8,
    }
}

/// An integer of one kind brought to another. Its own kind leaves it as it is.
fn brought(from: IntKind, to: IntKind, n: i128) -> i128
    ensures { result ≡ brought_of from to n }
{
    if kind_number(from) == kind_number(to) {
        n
    } else {
        convert(to, n)
    }
}

/// An integer of the type brought to the kind.
fn brought_to(kind: IntKind, ctype: &CType, n: i128) -> i128
    ensures { result ≡ brought_to_kind kind ctype.now n }
{
    match ctype {
        CType::Int(own) => brought(*own, kind, n),
        CType::Void => convert(kind, n),
        CType::Pointer(_) => convert(kind, n),
        CType::Array(_, _) => convert(kind, n),
        CType::Struct(_) => convert(kind, n),
    }
}

/// An integer of the kind brought to the type of the place that takes it.
fn converted_to(kind: IntKind, ctype: &CType, n: i128) -> i128
    ensures { result ≡ converted_to_type kind ctype.now n }
{
    match ctype {
        CType::Int(own) => brought(kind, *own, n),
        CType::Void => n,
        CType::Pointer(_) => n,
        CType::Array(_, _) => n,
        CType::Struct(_) => n,
    }
}

/// The new integer at a place of the type.
fn integer_at(
    kind: IntKind,
    ctype: &CType,
    outcome: Result<i128, RunFault>,
) -> Result<Value, RunFault>
    ensures { result ≡ new_integer kind ctype.now outcome }
{
    match outcome {
        Ok(n) => Ok(Value::Int(converted_to(kind, ctype, n))),
        Err(fault) => Err(fault),
    }
}

/// The new integer that an operator computes in a kind.
fn combined(
    operator: IntOp,
    kind: IntKind,
    ctype: &CType,
    old: Value,
    v: Value,
) -> Result<Value, RunFault>
    requires { AreUpdated operator kind ctype.now old v }
    ensures { result ≡ new_integer kind ctype.now (binary_of operator kind (brought_to_kind kind ctype.now (integer_value old)) (integer_value v)) }
{
    let left = brought_to(kind, ctype, integer(old));
    integer_at(kind, ctype, int_binary(operator, kind, left, integer(v)))
}

/// The new value at a place of the type.
pub fn updated(
    memory: &Store<'_>,
    ctype: &CType,
    operator: UpdateOp,
    old: Value,
    v: Value,
) -> Result<Value, RunFault>
    requires { MayUpdate operator ctype.now old v }
    ensures { result ≡ new_value memory.now.memory ctype.now operator old v }
{
    match operator {
        UpdateOp::Integer(operator, kind) => combined(operator, kind, ctype, old, v),
        UpdateOp::Forward(size) => forward(memory, old, v, size),
        UpdateOp::Backward(size) => backward(memory, old, v, size),
    }
}

/// The value of a compound assignment.
fn answer(which: Answer, old: Value, new: Value) -> Value
    ensures { result ≡ answer_of which old new }
{
    match which {
        Answer::Before => old,
        Answer::After => new,
    }
}

/// The write of the new value comes, and then the value of the whole.
pub fn update<'a>(
    machine: &mut Machine<'a>,
    ctype: &'a CType,
    which: Answer,
    l: Located,
    old: Value,
    outcome: Result<Value, RunFault>,
)
    requires free { length machine.old.work.0 + 2 ≤ machine.old.work.1 }
    ensures fixed { fixed_of machine.new ≡ fixed_of machine.old }
    ensures turned { configuration_of machine.new ≡ updating ctype.now which (lvalue_of l) old outcome (configuration_of machine.old) }
{
    match outcome {
        Ok(new) => {
            machine.told = Told::Gave(new);
            machine.push_two(
                Work::Operate(Operand::Instead(answer(which, old, new))),
                Work::Operate(Operand::Store(ctype, l)),
            );
        }
        Err(fault) => machine.halt(fault),
    }
}
