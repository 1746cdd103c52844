//! The cells of the region, and the numbers that stand for names in it.

ghost use Rattle.std.specs.Prelude.{◌≡◌, ℕ};
ghost use Rattle.run_memory.specs.Numbering.{IsNumbered, kind_code, kind_by, name_number, named_by};
ghost use Rattle.run_memory.specs.Cells.{cell_of as seen_cell, ValueIsNumbered};
ghost use Rattle.step_meaning.specs.declared.value.Cell.TheVariants.{Holds};

use step_meaning::{CType, Cell, Name, NameKind, Value};

/// What a cell of the region holds.
#[derive(Clone, Copy)]
pub enum Held {
    /// No value yet.
    Nothing,
    /// An integer.
    Int(i128),
    /// The null pointer.
    Null,
    /// A pointer: the slot of its block, the number of its name, and the offset in cells. The slot of a block that isn't live is any.
    Pointer(u32, u64, u32),
}

/// A cell of the region, with the declared type of the scalar in it; none in a block that is being made.
#[derive(Clone, Copy)]
pub struct PoolCell<'a> {
    /// What it holds.
    pub held: Held,
    /// The type, as it stands in the core.
    pub ctype: Option<&'a CType>,
}

/// The number of a kind of names in the memory, and 0 of the others.
fn kind_number(kind: NameKind) -> u64
    ensures { result ≡ kind_code kind }
{
    match kind {
        NameKind::Global => 1,
        NameKind::Local => 2,
        NameKind::Heap => 3,
        NameKind::Register | NameKind::GhostGlobal | NameKind::GhostLocal => 0,
    }
}

/// The kind with this number.
fn kind_of(number: u64) -> NameKind
    ensures { result ≡ kind_by number }
{
    if number == 1 {
        NameKind::Global
    } else if number == 2 {
        NameKind::Local
    } else {
        NameKind::Heap
    }
}

/// The number of a name: 2 bits of kind, 40 of activation or block, and 22 of index.
#[tactic(auto, unfolding(crate::specs::Numbering::name_number))]
pub fn number(name: Name) -> u64
    requires { IsNumbered name.kind name.activation name.index }
    ensures { result ≡ name_number name.kind name.activation name.index }
{
    kind_number(name.kind) * 4_611_686_018_427_387_904
        + (name.activation * 4_194_304 + u64::from(name.index))
}

/// The name with this number.
#[tactic(auto, unfolding(crate::specs::Numbering::named_by))]
fn named(number: u64) -> Name
    ensures { result ≡ named_by number }
{
    Name {
        kind: kind_of(number / 4_611_686_018_427_387_904),
        activation: number / 4_194_304 % 1_099_511_627_776,
        index: (number % 4_194_304) as u32,
    }
}

/// The cell of the meaning that a cell of the region stands for.
pub fn cell_of(held: Held) -> Cell
    ensures { result ≡ seen_cell held }
{
    match held {
        Held::Nothing => Cell::Nothing,
        Held::Int(n) => Cell::Holds(Value::Int(n)),
        Held::Null => Cell::Holds(Value::Null),
        Held::Pointer(_, name, offset) => Cell::Holds(Value::Pointer(named(name), offset)),
    }
}

/// What stands for a value in the region, where the block that a pointer names begins at the slot.
#[tactic(auto, using(crate::proofs::Numbers::number_back))]
pub fn held_of(value: Value, slot: u32) -> Held
    requires { ValueIsNumbered value }
    ensures { seen_cell result ≡ Holds value }
{
    match value {
        Value::Int(n) => Held::Int(n),
        Value::Null => Held::Null,
        Value::Pointer(name, offset) => Held::Pointer(slot, number(name), offset),
    }
}
