//! The registers of the open activations. After they were made they take no memory.

ghost use Rattle.std.specs.Prelude.{◌≡◌, ◌+◌, ◌++◌, ◌<◌, ◌≤◌, [], ◌∷◌, IfOk, MatchOption, cond, drop, is_some, length, reverse, slice_index_or};
ghost use Rattle.step_meaning.specs.State.{register_at, set_register, unset_registers};
ghost use Rattle.run_state.specs.Registers.{AreStarts, IsPast, IsPlace, innermost, total, unset_register, with_innermost};

use core_types::same_type;
use std::alloc::{AllocError, Global};
use std::marker::Model;
use step_meaning::{CType, Cell, Declared, Value};

/// A register: its declared type, as it stands in the core, and what it holds.
#[derive(Clone, Copy)]
pub struct Register<'a> {
    /// The type.
    pub ctype: &'a CType,
    /// What it holds.
    pub cell: Cell,
}

/// The registers of the open activations, with room for so many registers and activations.
#[derive(Drop)]
pub struct Registers<'a> {
    /// Those of all activations, the outermost activation first.
    cells: Vec<Register<'a>>,
    /// The place at which those of each activation begin.
    starts: Vec<usize>,
    room: usize,
    calls: usize,
}

impl<'a> Model for Registers<'a> {
    ghost use Rattle.std.specs.Prelude.{◌≤◌, length, reverse};
    ghost use Rattle.std.specs.Vec.{vec_capacity};
    ghost use Rattle.std.specs.Coded.{codes};
    ghost use Rattle.step_meaning.specs.contracts.value.CType as ctype;
    ghost use Rattle.run_state.specs.Registers.{RegisterFile, parted, AreStarts};

    ghost Value = { RegisterFile };

    ghost coded = { Prim.hlevel (codes, ctype.the_row.coded) };

    ghost view = { λ s. record { activations = parted s.cells.items (reverse s.starts.items); room = s.room; calls = s.calls } };

    ghost invariant = { λ s. AreStarts (length s.cells.items) (reverse s.starts.items) × (s.room ≤ vec_capacity s.cells) × (s.calls ≤ vec_capacity s.starts) };
}

/// The place of a register of the innermost activation in the list of all registers, of which there are so many.
fn place_of(starts: &[usize], count: usize, index: u32) -> Option<usize>
    requires { AreStarts count (reverse starts.now) }
    ensures { MatchOption result (IsPast count (reverse starts.now) index) (λ p. IsPlace count (reverse starts.now) index p) }
{
    if starts.is_empty() {
        return None;
    }
    let start = starts[starts.len() - 1];
    let index = index as usize;
    if index < count - start {
        Some(start + index)
    } else {
        None
    }
}

/// The register at a place of a list.
fn register_in<'a>(cells: &[Register<'a>], place: usize) -> Register<'a>
    requires { place < length cells.now }
    ensures { result ≡ slice_index_or cells.now place result }
{
    cells[place]
}

impl<'a> Registers<'a> {
    /// No activation is open.
    pub fn with_room(alloc: Global, room: usize, calls: usize) -> Result<Registers<'a>, AllocError>
        ensures { IfOk result (λ r. r ≡ record { activations = []; room = room; calls = calls }) }
    {
        Ok(Registers {
            cells: Vec::with_capacity(alloc, room)?,
            starts: Vec::with_capacity(alloc, calls)?,
            room,
            calls,
        })
    }

    /// An activation begins, so far without registers.
    fn begin(&mut self)
        requires { length self.old.activations < self.old.calls }
        ensures { self.new ≡ record self.old { activations = [] ∷ self.old.activations } }
    {
        match self.starts.push(self.cells.len()) {
            Ok(()) => {}
            Err(_) => unreachable!(),
        }
    }

    /// A register more of the innermost activation, which holds nothing.
    fn declare(&mut self, ctype: &'a CType)
        requires inside { 0 < length self.old.activations }
        requires room { total self.old.activations < self.old.room }
        ensures { self.new ≡ record self.old { activations = with_innermost (innermost self.old.activations ++ unset_register ctype.now ∷ []) self.old.activations } }
    {
        let register = Register {
            ctype,
            cell: Cell::Nothing,
        };
        match self.cells.push(register) {
            Ok(()) => {}
            Err(_) => unreachable!(),
        }
    }

    /// An activation with these registers begins (C11 6.2.4, 6.7.1). They hold nothing.
    pub fn open(&mut self, declared: &'a [Declared])
        requires calls { length self.old.activations < self.old.calls }
        requires room { total self.old.activations + length declared.now ≤ self.old.room }
        ensures { self.new ≡ record self.old { activations = unset_registers declared.now ∷ self.old.activations } }
    {
        self.begin();
        for register in declared {
            self.declare(&register.ctype);
        }
    }

    /// The innermost activation ends, if there is one, and with it its registers.
    pub fn close(&mut self)
        ensures { self.new ≡ record self.old { activations = drop 1 self.old.activations } }
    {
        match self.starts.pop() {
            None => {}
            Some(start) => self.cells.truncate(start),
        }
    }

    /// What a register of the innermost activation holds that is used at this type, and none where there is no such register or it has another type.
    pub fn read(&self, index: u32, ctype: &CType) -> Option<Cell>
        ensures { result ≡ register_at (innermost self.now.activations) index ctype.now }
    {
        let Some(place) = place_of(&self.starts, self.cells.len(), index) else {
            return None;
        };
        let register = register_in(&self.cells, place);
        if same_type(register.ctype, ctype) {
            Some(register.cell)
        } else {
            None
        }
    }

    /// Writes a value into a register of the innermost activation that is used at this type, where there is one, and answers whether there is.
    pub fn write(&mut self, index: u32, ctype: &CType, value: Value) -> bool
        ensures allowed { result ≡ is_some (register_at (innermost self.old.activations) index ctype.now) }
        ensures written { self.new ≡ cond result (record self.old { activations = with_innermost (set_register (innermost self.old.activations) index value) self.old.activations }) self.old }
    {
        let Some(place) = place_of(&self.starts, self.cells.len(), index) else {
            return false;
        };
        let register = register_in(&self.cells, place);
        if !same_type(register.ctype, ctype) {
            return false;
        }
        self.cells[place] = Register {
            ctype: register.ctype,
            cell: Cell::Holds(value),
        };
        true
    }
}
