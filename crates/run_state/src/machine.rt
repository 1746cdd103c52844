//! The machine.

ghost use Rattle.std.specs.Prelude.{◌≡◌, ◌∷◌, ◌+◌, ◌<◌, ◌≤◌, length};
ghost use Rattle.step_meaning.specs.State.{designated as is_designated};
ghost use Rattle.run_turns.specs.Turns.{halted, spent};
ghost use Rattle.run_state.specs.Machine.{configuration_of, fixed_of, lvalue_of};

use crate::registers::Registers;
use crate::stack::Stack;
use crate::work::{Left, Located, Told, Work};
use run_memory::Store;
use step_meaning::{Core, Name, NameKind, RunFault, Value, Variable};

/// A caller, which waits.
#[derive(Clone, Copy)]
pub struct Waiting {
    /// The number of its function.
    pub function: u32,
    /// The number of its activation.
    pub activation: u64,
}

/// A machine that runs a program.
#[derive(Drop)]
pub struct Machine<'a> {
    /// The program.
    pub core: &'a Core,
    /// What is to be done, the next part on top.
    pub work: Stack<Work<'a>>,
    /// What the part before has told.
    pub told: Told,
    /// The number of the function of the innermost activation.
    pub function: u32,
    /// The number of that activation.
    pub activation: u64,
    /// Its callers.
    pub callers: Stack<Waiting>,
    /// The arguments evaluated so far.
    pub arguments: Stack<Value>,
    /// The program's own variables and heap blocks.
    pub memory: Store<'a>,
    /// The ghost variables.
    pub ghosts: Store<'a>,
    /// The registers of the open activations.
    pub registers: Registers<'a>,
    /// How many activations were made.
    pub made: u64,
    /// How many heap blocks were made.
    pub allocated: u64,
}

impl<'a> Machine<'a> {
    /// Two more pending parts, the second one on top.
    pub fn push_two(&mut self, below: Work<'a>, above: Work<'a>)
        requires free { length self.old.work.0 + 2 ≤ self.old.work.1 }
        ensures { self.new ≡ record self.old { work = (above.entry ∷ (below.entry ∷ self.old.work.0), self.old.work.1) } }
    {
        self.work.push(below);
        self.work.push(above);
    }

    /// A fault is due.
    pub fn halt(&mut self, fault: RunFault)
        requires free { length self.old.work.0 < self.old.work.1 }
        ensures fixed { fixed_of self.new ≡ fixed_of self.old }
        ensures turned { configuration_of self.new ≡ halted fault (configuration_of self.old) }
    {
        self.work.push(Work::Halt(fault));
        self.told = Told::Left(Left::Next);
    }

    /// The run ends as that of no typed program does.
    pub fn spend(&mut self)
        requires free { length self.old.work.0 < self.old.work.1 }
        ensures fixed { fixed_of self.new ≡ fixed_of self.old }
        ensures turned { configuration_of self.new ≡ spent (configuration_of self.old) }
    {
        self.work.push(Work::Over(RunFault::Invalid));
    }
}

/// What a variable of the text with an offset designates.
pub fn designated(activation: u64, v: Variable, offset: u32) -> Located
    ensures { lvalue_of result ≡ is_designated activation v offset }
{
    let activation = match v.kind {
        NameKind::Global | NameKind::GhostGlobal => 0,
        NameKind::Register => return Located::Register(v.index),
        NameKind::Local | NameKind::GhostLocal | NameKind::Heap => activation,
    };
    let name = Name {
        kind: v.kind,
        activation,
        index: v.index,
    };
    Located::At(Value::Pointer(name, offset))
}
