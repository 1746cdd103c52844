ghost use Rattle.std.specs.Prelude.{◌≡◌, option_map};
ghost use Rattle.step_meaning.specs.Memory.{block_in, slot_at, typed};
ghost use Rattle.step_meaning.specs.Views.{or_nothing};
ghost use Rattle.truth_tests.specs.Small.{memory_of};

use core_types::same_type;
use step_meaning::{CType, Cell, Event, IntKind, Layout, Name, NameKind, Value, Variable, View};

/// What a predicate sees of a step in a program with `int x; int a[10];`, where all elements of `a` are 0.
pub struct SmallView {
    /// The structs of the program.
    pub layouts: Vec<Layout>,
    /// What `x` holds.
    pub x: i128,
    /// What it held at the Enter step.
    pub x_at_enter: i128,
    /// The pointer of the step's access.
    pub accessed: Option<Value>,
    /// The function that the step calls.
    pub called: Option<u32>,
    /// The event that the step is.
    pub event: Event,
}

impl Drop for SmallView {
    fn drop(self) {
        let SmallView {
            layouts: _layouts,
            x: _x,
            x_at_enter: _x_at_enter,
            accessed: _accessed,
            called: _called,
            event: _event,
        } = self;
    }
}

/// The cell of a variable of file scope.
fn file_cell(x: i128, activation: u64, index: u32, offset: u32) -> Option<Cell>
    ensures { result ≡ option_map (λ s. s.cell) (slot_at (block_in (memory_of x) NameKind.Global activation index) offset) }
{
    if activation != 0 {
        return None;
    }
    match index {
        0 => {
            if offset == 0 {
                Some(Cell::Holds(Value::Int(x)))
            } else {
                None
            }
        }
        1 => {
            if offset < 10 {
                Some(Cell::Holds(Value::Int(0)))
            } else {
                None
            }
        }
        _ => None,
    }
}

/// The cell of a variable, whatever the type of the access.
fn variable_cell(x: i128, name: &Name, offset: u32) -> Option<Cell>
    ensures { result ≡ option_map (λ s. s.cell) (slot_at (block_in (memory_of x) name.now.kind name.now.activation name.now.index) offset) }
{
    match name.kind {
        NameKind::Global => file_cell(x, name.activation, name.index, offset),
        NameKind::Local
        | NameKind::Heap
        | NameKind::Register
        | NameKind::GhostGlobal
        | NameKind::GhostLocal => None,
    }
}

/// The cell that an access at the type reaches.
#[tactic(auto, using(crate::proofs::SmallLaws::reached_at_int, crate::proofs::SmallLaws::not_reached))]
fn reached(x: i128, name: &Name, offset: u32, ctype: &CType) -> Option<Cell>
    ensures { result ≡ typed (slot_at (block_in (memory_of x) name.now.kind name.now.activation name.now.index) offset) ctype.now }
{
    let int = CType::Int(IntKind::Int);
    if same_type(&int, ctype) {
        variable_cell(x, name, offset)
    } else {
        None
    }
}

fn or_none(cell: Option<Cell>) -> Cell
    ensures { result ≡ or_nothing cell }
{
    match cell {
        None => Cell::Nothing,
        Some(cell) => cell,
    }
}

impl View for SmallView {
    ghost use Rattle.truth_tests.specs.Small.{sight_of};

    ghost sight = { sight_of };

    fn name_of(&self, v: &Variable) -> Name {
        Name {
            kind: v.kind,
            activation: 0,
            index: v.index,
        }
    }

    #[tactic(auto, using(crate::proofs::SmallLaws::seen_now))]
    fn cell(&self, n: &Name, offset: u32, ctype: &CType) -> Cell {
        or_none(reached(self.x, n, offset, ctype))
    }

    #[tactic(auto, using(crate::proofs::SmallLaws::seen_now))]
    fn allowed(&self, n: &Name, offset: u32, ctype: &CType) -> bool {
        reached(self.x, n, offset, ctype).is_some()
    }

    fn layouts(&self) -> &[Layout] {
        self.layouts.as_slice()
    }

    fn pre(&self, n: &Name, offset: u32, ctype: &CType) -> Cell {
        or_none(reached(self.x_at_enter, n, offset, ctype))
    }

    fn accessed(&self) -> Option<Value> {
        self.accessed
    }

    fn called(&self) -> Option<u32> {
        self.called
    }

    fn event(&self) -> Event {
        self.event
    }

    fn parameter(&self, _index: u32) -> Cell {
        Cell::Nothing
    }

    fn result(&self) -> Cell {
        Cell::Nothing
    }
}
