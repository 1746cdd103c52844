//! Parts that wait for a value or an lvalue.

ghost use Rattle.std.specs.Prelude.{◌≡◌, ◌+◌, ◌≤◌, is_some, length};
ghost use Rattle.run_turns.specs.Pending as pending;
ghost use Rattle.run_turns.specs.Turns.{turn_at};
ghost use Rattle.run_state.specs.Machine.{access_of, configuration_of, designation_of, fixed_of, operand_of, selection_of, told_of};
ghost use Rattle.run_steps.specs.Turning.{MayTurn};

use run_arms::{argument, conclude};
use run_state::{Access, Designation, Left, Machine, Operand, Selection, Told, integer};
use run_values::{access, designated_at, operate, select};
use step_meaning::{Expr, IntKind, Stmt, Value, convert};

/// An operator at the value of its operand.
pub fn operated<'a>(machine: &mut Machine<'a>, operand: Operand<'a>) -> bool
    requires free { length machine.old.work.0 + 3 ≤ machine.old.work.1 }
    requires may { MayTurn machine.old (pending.Operate (operand_of operand)) (told_of machine.old.told) }
    ensures fixed { fixed_of machine.new ≡ fixed_of machine.old }
    ensures made { result ≡ is_some (turn_at machine.old.core.now (pending.Operate (operand_of operand.entry)) (told_of machine.old.told) (configuration_of machine.old)).step }
    ensures turned { configuration_of machine.new ≡ (turn_at machine.old.core.now (pending.Operate (operand_of operand.entry)) (told_of machine.old.told) (configuration_of machine.old)).after }
{
    match machine.told {
        Told::Gave(v) => { operate(machine, operand, v) }
        Told::Found(_) => false,
        Told::Left(_) => false,
    }
}

/// What a value designates.
pub fn designated(machine: &mut Machine<'_>, designation: Designation) -> bool
    requires free { length machine.old.work.0 + 3 ≤ machine.old.work.1 }
    requires may { MayTurn machine.old (pending.Designate (designation_of designation)) (told_of machine.old.told) }
    ensures fixed { fixed_of machine.new ≡ fixed_of machine.old }
    ensures made { result ≡ is_some (turn_at machine.old.core.now (pending.Designate (designation_of designation)) (told_of machine.old.told) (configuration_of machine.old)).step }
    ensures turned { configuration_of machine.new ≡ (turn_at machine.old.core.now (pending.Designate (designation_of designation)) (told_of machine.old.told) (configuration_of machine.old)).after }
{
    match machine.told {
        Told::Gave(v) => {
            machine.told = Told::Left(Left::Next);
            designated_at(machine, designation, v);
            false
        }
        Told::Found(_) => false,
        Told::Left(_) => false,
    }
}

/// A statement at the value of its expression.
pub fn concluded<'a>(machine: &mut Machine<'a>, s: &'a Stmt) -> bool
    requires free { length machine.old.work.0 + 3 ≤ machine.old.work.1 }
    ensures fixed { fixed_of machine.new ≡ fixed_of machine.old }
    ensures made { result ≡ is_some (turn_at machine.old.core.now (pending.Conclude s.now) (told_of machine.old.told) (configuration_of machine.old)).step }
    ensures turned { configuration_of machine.new ≡ (turn_at machine.old.core.now (pending.Conclude s.now) (told_of machine.old.told) (configuration_of machine.old)).after }
{
    match machine.told {
        Told::Gave(v) => {
            conclude(machine, s, v);
            false
        }
        Told::Found(_) => false,
        Told::Left(_) => false,
    }
}

/// A value that isn't used.
pub fn ignored(machine: &mut Machine<'_>) -> bool
    requires free { length machine.old.work.0 + 3 ≤ machine.old.work.1 }
    ensures fixed { fixed_of machine.new ≡ fixed_of machine.old }
    ensures made { result ≡ is_some (turn_at machine.old.core.now (pending.Ignore) (told_of machine.old.told) (configuration_of machine.old)).step }
    ensures turned { configuration_of machine.new ≡ (turn_at machine.old.core.now (pending.Ignore) (told_of machine.old.told) (configuration_of machine.old)).after }
{
    match machine.told {
        Told::Gave(v) => {
            machine.told = Told::Left(Left::Next);
            false
        }
        Told::Found(_) => false,
        Told::Left(_) => false,
    }
}

/// `putchar` at its operand.
pub fn written(machine: &mut Machine<'_>) -> bool
    requires free { length machine.old.work.0 + 3 ≤ machine.old.work.1 }
    ensures fixed { fixed_of machine.new ≡ fixed_of machine.old }
    ensures made { result ≡ is_some (turn_at machine.old.core.now (pending.Output) (told_of machine.old.told) (configuration_of machine.old)).step }
    ensures turned { configuration_of machine.new ≡ (turn_at machine.old.core.now (pending.Output) (told_of machine.old.told) (configuration_of machine.old)).after }
{
    match machine.told {
        Told::Gave(v) => {
            machine.told = Told::Gave(Value::Int(convert(IntKind::UChar, integer(v))));
            true
        }
        Told::Found(_) => false,
        Told::Left(_) => false,
    }
}

/// The value of an argument.
pub fn argued<'a>(machine: &mut Machine<'a>, function: u32, es: &'a [Expr], n: usize) -> bool
    requires free { length machine.old.work.0 + 3 ≤ machine.old.work.1 }
    requires may { MayTurn machine.old (pending.Argument function es.now n) (told_of machine.old.told) }
    ensures fixed { fixed_of machine.new ≡ fixed_of machine.old }
    ensures made { result ≡ is_some (turn_at machine.old.core.now (pending.Argument function es.now n) (told_of machine.old.told) (configuration_of machine.old)).step }
    ensures turned { configuration_of machine.new ≡ (turn_at machine.old.core.now (pending.Argument function es.now n) (told_of machine.old.told) (configuration_of machine.old)).after }
{
    match machine.told {
        Told::Gave(v) => {
            argument(machine, function, es, n, v);
            false
        }
        Told::Found(_) => false,
        Told::Left(_) => false,
    }
}

/// An access to what an lvalue designates.
pub fn accessed<'a>(machine: &mut Machine<'a>, entry: Access<'a>) -> bool
    requires free { length machine.old.work.0 + 3 ≤ machine.old.work.1 }
    ensures fixed { fixed_of machine.new ≡ fixed_of machine.old }
    ensures made { result ≡ is_some (turn_at machine.old.core.now (pending.Accessed (access_of entry.entry)) (told_of machine.old.told) (configuration_of machine.old)).step }
    ensures turned { configuration_of machine.new ≡ (turn_at machine.old.core.now (pending.Accessed (access_of entry.entry)) (told_of machine.old.told) (configuration_of machine.old)).after }
{
    match machine.told {
        Told::Found(l) => { access(machine, entry, l) }
        Told::Gave(_) => false,
        Told::Left(_) => false,
    }
}

/// A part of what an lvalue designates.
pub fn selected<'a>(machine: &mut Machine<'a>, selection: Selection<'a>) -> bool
    requires free { length machine.old.work.0 + 3 ≤ machine.old.work.1 }
    requires may { MayTurn machine.old (pending.Select (selection_of selection)) (told_of machine.old.told) }
    ensures fixed { fixed_of machine.new ≡ fixed_of machine.old }
    ensures made { result ≡ is_some (turn_at machine.old.core.now (pending.Select (selection_of selection.entry)) (told_of machine.old.told) (configuration_of machine.old)).step }
    ensures turned { configuration_of machine.new ≡ (turn_at machine.old.core.now (pending.Select (selection_of selection.entry)) (told_of machine.old.told) (configuration_of machine.old)).after }
{
    match machine.told {
        Told::Found(l) => {
            machine.told = Told::Left(Left::Next);
            select(machine, selection, l);
            false
        }
        Told::Gave(_) => false,
        Told::Left(_) => false,
    }
}
