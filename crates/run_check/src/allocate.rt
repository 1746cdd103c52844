//! `malloc` as the next step, within the limits.

ghost use Rattle.std.specs.Prelude.{◌≡◌, ◌⊎◌, ℕ, ◌*◌, ◌+◌, ◌<◌, List, Option, nat_le};
ghost use Rattle.step_meaning.specs.Limits.{chunks_for};
ghost use Rattle.step_meaning.specs.Names.{integer as integer_value};
ghost use Rattle.step_meaning.specs.Numbers.{low_bits};
ghost use Rattle.step_meaning.specs.TypeRules.{cells as cells_of};
ghost use Rattle.run_turns.specs.Pending as pending;
ghost use Rattle.run_turns.specs.Turns.{pushed};
ghost use Rattle.run_state.specs.Machine.{configuration_of, fixed_of};
ghost use Rattle.run_start.specs.Running.{IsRunning, Runs};
ghost use Rattle.run_check.specs.Advancing.{Advances, block_fits, steps_by};
ghost use Rattle.run_check.specs.Going.{SameProgram};
ghost use Rattle.run_check.specs.declared.advance.Advance.TheVariants as advance;

use crate::advance::Advance;
use crate::run::Run;
use core_types::cells;
use run_state::{Operand, Told, Work, integer};
use run_steps::turn;
use step_meaning::{CType, IntKind, Layout, Value, convert};

/// Whether so many cells are no block, or one with room among so many chunks.
fn cells_fit(total: u128, used: u32, limit: u32) -> bool
    ensures { result ≡ block_fits total used limit }
{
    if total < 1 || total > 65536 {
        return true;
    }
    let wanted = (total as u32).div_ceil(16);
    u64::from(used) + u64::from(wanted) <= u64::from(limit)
}

/// Whether a block for so many objects of the type, where there is one, has room among so many chunks.
fn fits(layouts: &[Layout], ctype: &CType, v: Value, used: u32, limit: u32) -> bool
    ensures { result ≡ block_fits (low_bits 64 (integer_value v) * cells_of layouts.now ctype.now) used limit }
{
    let count = convert(IntKind::ULong, integer(v)) as u64;
    let Some(size) = cells(layouts, ctype) else {
        return true;
    };
    let Some(total) = u128::from(count).checked_mul(size) else {
        return true;
    };
    cells_fit(total, used, limit)
}

/// `malloc` of so many objects of the type as was told (C11 7.22.3.4).
pub fn allocate<'a>(run: &mut Run<'a>, ctype: &'a CType) -> Advance
    requires runs { Runs run.old.steps (fixed_of run.old.machine) (pushed (pending.Operate (pending.Allocate ctype.now)) (configuration_of run.old.machine)) }
    requires few { run.old.steps < 1000000000000 }
    ensures steps { run.new.steps ≡ steps_by result run.old.steps }
    ensures program { SameProgram (fixed_of run.old.machine) (fixed_of run.new.machine) }
    ensures answers { (result ≡ advance.Step) ⊎ (result ≡ advance.CellsFull) }
    ensures after { result ≡ advance.Step → IsRunning run.new.steps run.new.machine }
    ensures advances { (left held : Option (List ℕ)) → Advances run.old.machine.memory.chunk_limit run.old.machine.memory.call_limit run.old.machine.core.now (pushed (pending.Operate (pending.Allocate ctype.now)) (configuration_of run.old.machine)) (configuration_of run.new.machine) left left held held result }
{
    let v = match run.machine.told {
        Told::Gave(v) => v,
        Told::Found(_) => unreachable!(),
        Told::Left(_) => unreachable!(),
    };
    let part = Work::Operate(Operand::Allocate(ctype));
    let layouts = run.machine.core.layouts.as_slice();
    let used = run.machine.memory.chunks();
    let limit = run.machine.memory.chunk_limit();
    if !fits(layouts, ctype, v, used, limit) {
        run.machine.work.push(part);
        return Advance::CellsFull;
    }
    turn(&mut run.machine, part);
    run.steps += 1;
    Advance::Step
}
