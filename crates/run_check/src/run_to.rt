//! A run up to a number of steps.

ghost use Rattle.std.specs.Prelude.{◌≡◌, ℕ, ◌≤◌, List, None, Option, Some};
ghost use Rattle.weave_base.specs.Causes.{HasCause};
ghost use Rattle.run_check.specs.declared.advance.Advance.{Advance as AdvanceSeen};
ghost use Rattle.run_check.specs.declared.run_to.RunEnd.TheVariants as end;
ghost use Rattle.run_check.specs.RunningTo.{GivesOutcome, PerformsFresh, RunsTo, last_end};

use crate::advance::Advance;
use crate::machine::Machine;
use step_meaning::RunFault;
use weave_base::{Sink, Source};

/// How a run up to a number of steps ended.
#[derive(Clone, Copy)]
pub enum RunEnd {
    /// `main` has returned this.
    Exit(i32),
    /// By a fault.
    Fault(RunFault),
    /// The steps are spent.
    More,
    /// The next step needs more chunks than there are.
    Cells,
    /// The next step opens more activations than may be open.
    Calls,
    /// The source failed.
    ReadFault,
    /// The sink failed.
    WriteFault,
}

/// The end of a run whose machine stops with the answer, if it does.
fn end_of(answer: Advance) -> Option<RunEnd>
    ensures { result ≡ last_end answer }
{
    match answer {
        Advance::Step => None,
        Advance::Exit(value) => Some(RunEnd::Exit(value)),
        Advance::Fault(fault) => Some(RunEnd::Fault(fault)),
        Advance::CellsFull => Some(RunEnd::Cells),
        Advance::CallsFull => Some(RunEnd::Calls),
        Advance::ReadFault => Some(RunEnd::ReadFault),
        Advance::WriteFault => Some(RunEnd::WriteFault),
    }
}

/// Steps of a machine that hasn't stopped, until it stops or has made so many.
fn run_on<S: Source, K: Sink>(
    machine: &mut Machine<'_>,
    input: &mut S,
    out: &mut K,
    steps: u64,
) -> RunEnd
    requires going { machine.old.stopped ≡ None }
    requires few { steps ≤ 1000000000000 }
    ensures runs { RunsTo steps machine.old machine.new (S.left input.old) (S.left input.new) (K.held out.old) (K.held out.new) result }
    ensures outcome { (bytes : List ℕ) → S.left input.old ≡ Some bytes → GivesOutcome steps machine.old machine.new bytes result }
    ensures fresh { PerformsFresh steps machine.old machine.new (S.left input.old) (S.left input.new) (K.held out.old) (K.held out.new) result }
    ensures read { HasCause (S.faults input.old) (S.faults input.new) (result ≡ end.ReadFault) }
    ensures written { HasCause (K.faults out.old) (K.faults out.new) (result ≡ end.WriteFault) }
{
    while machine.steps() < steps {
        let answer = machine.advance(input, out);
        if let Some(end) = end_of(answer) {
            return end;
        }
    }
    RunEnd::More
}

impl Machine<'_> {
    /// Goes on until the machine stops or has made so many steps. A machine that has stopped answers as it stopped.
    pub fn run_to<S: Source, K: Sink>(&mut self, input: &mut S, out: &mut K, steps: u64) -> RunEnd
        requires few { steps ≤ 1000000000000 }
        ensures again { (a : AdvanceSeen) → self.old.stopped ≡ Some a → (last_end a ≡ Some result) × (self.new ≡ self.old) × (input.new ≡ input.old) × (out.new ≡ out.old) }
        ensures runs { self.old.stopped ≡ None → RunsTo steps self.old self.new (S.left input.old) (S.left input.new) (K.held out.old) (K.held out.new) result }
        ensures outcome { self.old.stopped ≡ None → (bytes : List ℕ) → S.left input.old ≡ Some bytes → GivesOutcome steps self.old self.new bytes result }
        ensures fresh { PerformsFresh steps self.old self.new (S.left input.old) (S.left input.new) (K.held out.old) (K.held out.new) result }
        ensures read { self.old.stopped ≡ None → HasCause (S.faults input.old) (S.faults input.new) (result ≡ end.ReadFault) }
        ensures written { self.old.stopped ≡ None → HasCause (K.faults out.old) (K.faults out.new) (result ≡ end.WriteFault) }
    {
        match self.stopped() {
            None => run_on(self, input, out, steps),
            Some(answer) => match end_of(answer) {
                Some(end) => end,
                None => unreachable!(),
            },
        }
    }
}
