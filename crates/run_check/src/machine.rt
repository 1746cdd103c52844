//! The machine: a run with its limits, and how it stopped.

ghost use Rattle.std.specs.Prelude.{◌≡◌, ◌<◌, ◌≤◌, ◌↔◌, Err, IfOk, None, Option, Some};
ghost use Rattle.step_meaning.specs.Limits.{chunks};
ghost use Rattle.step_meaning.specs.Runs.{start_memory};
ghost use Rattle.weave_base.specs.Causes.{HasCause};
ghost use Rattle.run_start.specs.Running.{IsRunnable};
ghost use Rattle.run_check.specs.declared.advance.Advance.{Advance as AdvanceSeen};
ghost use Rattle.run_check.specs.declared.advance.Advance.TheVariants as advance;
ghost use Rattle.run_check.specs.Views.{Advanced, IsGoing, IsStop, fresh, stop_of};

use crate::advance::Advance;
use crate::next::next;
use crate::run::Run;
use run_start::MakeFault;
use std::alloc::Global;
use std::marker::Model;
use step_meaning::Core;
use weave_base::{Sink, Source};

/// How much a run may have.
#[derive(Clone, Copy)]
pub struct RunLimits {
    /// Chunks of 16 cells for variables and heap blocks.
    pub chunks: u32,
    /// Activations that may be open.
    pub calls: u32,
}

/// A machine that runs a program within limits. After it was made it takes no memory.
#[derive(Drop)]
pub struct Machine<'a> {
    run: Run<'a>,
    calls: u32,
    stopped: Option<Advance>,
}

impl<'a> Model for Machine<'a> {
    ghost use Rattle.std.specs.Prelude.{◌≡◌, ◌≤◌, None};
    ghost use Rattle.std.specs.Coded.{codes};
    ghost use Rattle.step_meaning.specs.contracts.value.CType as ctype;
    ghost use Rattle.step_meaning.specs.contracts.expr.Expr as expr;
    ghost use Rattle.step_meaning.specs.contracts.expr.Place_ as place;
    ghost use Rattle.step_meaning.specs.contracts.predicate.Predicate as predicate;
    ghost use Rattle.step_meaning.specs.contracts.predicate.Term as term;
    ghost use Rattle.step_meaning.specs.contracts.stmt.Stmt as stmt;
    ghost use Rattle.run_state.specs.Machine.{configuration_of};
    ghost use Rattle.run_start.specs.Running.{IsRunning};
    ghost use Rattle.run_check.specs.Views.{View, IsStop};

    ghost Value = { View };

    ghost coded = { Prim.hlevel (codes, ctype.the_row.coded, expr.the_row.coded, place.the_row.coded, predicate.the_row.coded, term.the_row.coded, stmt.the_row.coded) };

    ghost view = { λ s. record { core = s.run.machine.core.now; now = configuration_of s.run.machine; chunks = s.run.machine.memory.chunk_limit; calls = s.run.machine.memory.call_limit; steps = s.run.steps; stopped = s.stopped } };

    ghost invariant = { λ s. (s.calls ≡ s.run.machine.memory.call_limit) × (s.stopped ≡ None → IsRunning s.run.steps s.run.machine) × IsStop s.stopped × (s.run.steps ≤ 1000000000000) };
}

/// The answer at which a machine stops, if it does.
fn stop(answer: Advance) -> Option<Advance>
    ensures { result ≡ stop_of answer }
{
    match answer {
        Advance::Step => None,
        Advance::Exit(_)
        | Advance::Fault(_)
        | Advance::CellsFull
        | Advance::CallsFull
        | Advance::ReadFault
        | Advance::WriteFault => Some(answer),
    }
}

impl<'a> Machine<'a> {
    /// A machine that is to run the program within the limits. It has all memory of the run.
    /// `GlobalsFull` where the variables of file scope pass the limit, and else `Memory` where there is no memory.
    pub fn make(alloc: Global, core: &'a Core, limits: RunLimits) -> Result<Machine<'a>, MakeFault>
        requires runnable { IsRunnable core.now }
        requires chunks { (1 ≤ limits.chunks) × (limits.chunks ≤ 1048576) }
        requires calls { (1 ≤ limits.calls) × (limits.calls ≤ 100000) }
        ensures made { IfOk result (λ m. m ≡ fresh core.now limits.chunks limits.calls) }
        ensures full { (result ≡ Err MakeFault.GlobalsFull) ↔ (limits.chunks < chunks (start_memory core.now)) }
    {
        match run_start::start(alloc, core, limits.chunks, limits.calls) {
            Ok(machine) => Ok(Machine {
                run: Run { machine, steps: 0 },
                calls: limits.calls,
                stopped: None,
            }),
            Err(fault) => Err(fault),
        }
    }

    /// Goes on to the next step and makes it. After an answer other than `Step` each further call answers the same, and changes nothing.
    pub fn advance<S: Source, K: Sink>(&mut self, input: &mut S, out: &mut K) -> Advance
        requires few { self.old.steps < 1000000000000 }
        ensures again { (a : AdvanceSeen) → self.old.stopped ≡ Some a → (result ≡ a) × (self.new ≡ self.old) × (input.new ≡ input.old) × (out.new ≡ out.old) }
        ensures advances { self.old.stopped ≡ None → Advanced self.old self.new (S.left input.old) (S.left input.new) (K.held out.old) (K.held out.new) result }
        ensures read { self.old.stopped ≡ None → HasCause (S.faults input.old) (S.faults input.new) (result ≡ advance.ReadFault) }
        ensures written { self.old.stopped ≡ None → HasCause (K.faults out.old) (K.faults out.new) (result ≡ advance.WriteFault) }
    {
        if let Some(stopped) = self.stopped {
            return stopped;
        }
        let answer = next(&mut self.run, self.calls, input, out);
        self.stopped = stop(answer);
        answer
    }

    /// How many steps were made or attempted. A machine that hasn't stopped has a step to come.
    pub fn steps(&self) -> u64
        ensures steps { result ≡ self.now.steps }
        ensures going { self.now.stopped ≡ None → IsGoing self.now }
    {
        self.run.steps
    }

    /// The answer at which the machine stopped, if it did.
    pub fn stopped(&self) -> Option<Advance>
        ensures stopped { result ≡ self.now.stopped }
        ensures stop { IsStop result }
    {
        self.stopped
    }
}
