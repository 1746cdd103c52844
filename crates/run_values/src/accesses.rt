//! Reads and writes of what lvalues designate, and what parts of it designate (C11 6.3.2.1, 6.5.2.1, 6.5.2.3, 6.5.3.2).

ghost use Rattle.std.specs.Prelude.{◌≡◌, ◌+◌, ◌*ℤ◌, ◌<◌, ◌≤◌, ◌^◌, ◌≤ℤ◌, pos, neg_ℤ, is_some, length};
ghost use Rattle.step_meaning.specs.Memory.{reached};
ghost use Rattle.step_meaning.specs.State.{register_at};
ghost use Rattle.run_state.specs.Registers.{innermost};
ghost use Rattle.run_memory.specs.Cells.{ValueIsNumbered};
ghost use Rattle.run_turns.specs.Pending as pending;
ghost use Rattle.run_turns.specs.Turns.{accessed, designating, kept, loaded, object_after, pushed, ready, selected, written, written_register};
ghost use Rattle.run_state.specs.Machine.{access_of, configuration_of, designation_of, fixed_of, lvalue_of, operand_of, selection_of};
ghost use Rattle.run_values.specs.Operands.{IsPlaced, MayDesignate, MaySelect};

use crate::pointers::in_cells;
use crate::told::{designate, hold};
use run_state::{Access, Designation, Left, Located, Machine, Operand, Selection, Told, Work};
use step_meaning::{CType, Expr, RunFault, Value, pointer_add};

/// Reads what an lvalue designates, and answers whether that made a step.
pub fn load<'a>(machine: &mut Machine<'a>, ctype: &'a CType, l: Located) -> bool
    requires free { length machine.old.work.0 < machine.old.work.1 }
    ensures fixed { fixed_of machine.new ≡ fixed_of machine.old }
    ensures made { result ≡ is_some (loaded ctype.now (lvalue_of l) (configuration_of machine.old)).step }
    ensures turned { configuration_of machine.new ≡ (loaded ctype.now (lvalue_of l) (configuration_of machine.old)).after }
{
    match l {
        Located::Register(index) => {
            let cell = machine.registers.read(index, ctype);
            hold(machine, cell);
            false
        }
        Located::At(p) => {
            let cell = machine.memory.read(p, ctype);
            hold(machine, cell);
            true
        }
    }
}

/// Writes a register.
#[tactic(auto, using(crate::proofs::SizeLaws::sizes_written))]
fn keep_register(machine: &mut Machine<'_>, ctype: &CType, index: u32, v: Value)
    requires free { length machine.old.work.0 < machine.old.work.1 }
    ensures fixed { fixed_of machine.new ≡ fixed_of machine.old }
    ensures turned { configuration_of machine.new ≡ written_register index v (register_at (innermost machine.old.registers.activations) index ctype.now) (configuration_of machine.old) }
{
    if machine.registers.write(index, ctype, v) {
        machine.told = Told::Gave(v);
        return;
    }
    machine.halt(RunFault::Invalid);
}

/// Writes an object in memory.
fn keep_object(machine: &mut Machine<'_>, ctype: &CType, p: Value, v: Value)
    requires free { length machine.old.work.0 < machine.old.work.1 }
    requires numbered { ValueIsNumbered v }
    ensures fixed { fixed_of machine.new ≡ fixed_of machine.old }
    ensures turned { configuration_of machine.new ≡ written p v (reached machine.old.memory.memory p ctype.now) (configuration_of machine.old) }
{
    if machine.memory.write(p, ctype, v) {
        machine.told = Told::Gave(v);
        return;
    }
    machine.halt(RunFault::Invalid);
}

/// Writes a value to what an lvalue designates, and answers whether that made a step.
pub fn keep(machine: &mut Machine<'_>, ctype: &CType, l: Located, v: Value) -> bool
    requires free { length machine.old.work.0 < machine.old.work.1 }
    requires numbered { ValueIsNumbered v }
    ensures fixed { fixed_of machine.new ≡ fixed_of machine.old }
    ensures made { result ≡ is_some (kept ctype.now (lvalue_of l) v (configuration_of machine.old)).step }
    ensures turned { configuration_of machine.new ≡ (kept ctype.now (lvalue_of l) v (configuration_of machine.old)).after }
{
    match l {
        Located::Register(index) => {
            keep_register(machine, ctype, index, v);
            false
        }
        Located::At(p) => {
            keep_object(machine, ctype, p, v);
            true
        }
    }
}

/// An expression comes, whose value an operator takes.
pub fn come<'a>(machine: &mut Machine<'a>, operand: Operand<'a>, e: &'a Expr)
    requires free { length machine.old.work.0 + 2 ≤ machine.old.work.1 }
    ensures fixed { fixed_of machine.new ≡ fixed_of machine.old }
    ensures turned { configuration_of machine.new ≡ pushed (pending.Evaluate e.now) (pushed (pending.Operate (operand_of operand.entry)) (ready (configuration_of machine.old))) }
{
    machine.push_two(Work::Operate(operand), Work::Evaluate(e));
    machine.told = Told::Left(Left::Next);
}

/// Goes on at what an lvalue designates, and answers whether that made a step.
pub fn access<'a>(machine: &mut Machine<'a>, access: Access<'a>, l: Located) -> bool
    requires free { length machine.old.work.0 + 2 ≤ machine.old.work.1 }
    ensures fixed { fixed_of machine.new ≡ fixed_of machine.old }
    ensures made { result ≡ is_some (accessed (access_of access.entry) (lvalue_of l) (configuration_of machine.old)).step }
    ensures turned { configuration_of machine.new ≡ (accessed (access_of access.entry) (lvalue_of l) (configuration_of machine.old)).after }
{
    match access {
        Access::LoadAt(t) => load(machine, t, l),
        Access::AddressOf => {
            address(machine, l);
            false
        }
        Access::AssignRight(t, e) => {
            come(machine, Operand::Store(t, l), e);
            false
        }
        Access::UpdateOld(t, o, e, w) => {
            machine
                .work
                .push(Work::Operate(Operand::UpdateRight(t, o, e, w, l)));
            load(machine, t, l)
        }
    }
}

/// The address of what an lvalue designates.
fn address(machine: &mut Machine<'_>, l: Located)
    requires free { length machine.old.work.0 < machine.old.work.1 }
    ensures fixed { fixed_of machine.new ≡ fixed_of machine.old }
    ensures turned { configuration_of machine.new ≡ (accessed pending.AddressOf (lvalue_of l) (configuration_of machine.old)).after }
{
    match l {
        Located::At(p) => machine.told = Told::Gave(p),
        Located::Register(_) => machine.spend(),
    }
}

/// The object so many cells after that which an lvalue designates.
fn after(machine: &mut Machine<'_>, l: Located, by: i128)
    requires free { length machine.old.work.0 < machine.old.work.1 }
    requires placed { IsPlaced (lvalue_of l) }
    requires low { neg_ℤ (pos (2 ^ 100)) ≤ℤ by }
    requires high { by ≤ℤ pos (2 ^ 100) }
    ensures fixed { fixed_of machine.new ≡ fixed_of machine.old }
    ensures turned { configuration_of machine.new ≡ object_after (lvalue_of l) by (configuration_of machine.old) }
{
    match l {
        Located::Register(_) => machine.spend(),
        Located::At(p) => {
            let outcome = pointer_add(p, machine.memory.room(p), by);
            designate(machine, outcome);
        }
    }
}

/// Goes on with a part of what an lvalue designates.
pub fn select<'a>(machine: &mut Machine<'a>, selection: Selection<'a>, l: Located)
    requires free { length machine.old.work.0 + 2 ≤ machine.old.work.1 }
    requires may { MaySelect (selection_of selection) (lvalue_of l) }
    ensures fixed { fixed_of machine.new ≡ fixed_of machine.old }
    ensures turned { configuration_of machine.new ≡ selected (selection_of selection.entry) (lvalue_of l) (configuration_of machine.old) }
{
    match selection {
        Selection::MemberAt(offset) => after(machine, l, i128::from(offset)),
        Selection::ElementAt(e, size) => index_comes(machine, l, e, size),
    }
}

/// The index of an element comes.
fn index_comes<'a>(machine: &mut Machine<'a>, l: Located, e: &'a Expr, size: u32)
    requires free { length machine.old.work.0 + 2 ≤ machine.old.work.1 }
    ensures fixed { fixed_of machine.new ≡ fixed_of machine.old }
    ensures turned { configuration_of machine.new ≡ pushed (pending.Evaluate e.now) (pushed (pending.Designate (pending.ElementNow (lvalue_of l) size)) (ready (configuration_of machine.old))) }
{
    machine.push_two(
        Work::Designate(Designation::ElementNow(l, size)),
        Work::Evaluate(e),
    );
    machine.told = Told::Left(Left::Next);
}

/// Goes on with what a value designates.
pub fn designated_at(machine: &mut Machine<'_>, designation: Designation, v: Value)
    requires free { length machine.old.work.0 < machine.old.work.1 }
    requires may { MayDesignate (designation_of designation) v }
    ensures fixed { fixed_of machine.new ≡ fixed_of machine.old }
    ensures turned { configuration_of machine.new ≡ designating (designation_of designation) v (configuration_of machine.old) }
{
    match designation {
        Designation::Dereference => machine.told = Told::Found(Located::At(v)),
        Designation::ElementNow(l, size) => after(machine, l, in_cells(v, size)),
    }
}
