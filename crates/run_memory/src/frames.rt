//! Activations that begin and end, with their variables.

ghost use Rattle.std.specs.Prelude.{◌≡◌, ℕ, ◌+◌, ◌-◌, ◌<◌, ◌≤◌, [], length, map, slice_get};
ghost use Rattle.step_meaning.specs.Memory.{empty_block};
ghost use Rattle.step_meaning.specs.Types.{object_cells};
ghost use Rattle.std.specs.List.{AllByRecursion};
ghost use Rattle.step_meaning.specs.Limits.{chunks, chunks_for};
ghost use Rattle.step_meaning.specs.Calls.{with_frame, without_frame, first_frame, first_ghosts, with_arguments};
ghost use Rattle.run_memory.specs.Cells.{ArgumentIsNumbered, ValueIsNumbered};
ghost use Rattle.run_memory.specs.Storage.{IsNewer, with_local, with_locals, first_local, locals_in, variables_chunks, IsBlockSized};

use crate::cell::number;
use crate::fill::start_block;
use crate::locate::argument_of;
use crate::store::Store;
use step_meaning::{CType, Declared, Function, Layout, Name, NameKind, Value};

impl<'a> Store<'a> {
    /// An activation begins, so far without variables.
    fn begin_frame(&mut self, activation: u64)
        requires newer { IsNewer activation self.old.memory.frames }
        requires small { activation < 1099511627776 }
        requires calls { length self.old.memory.frames < self.old.call_limit }
        ensures { self.new ≡ record self.old { memory = with_frame (record { activation = activation; locals = [] }) self.old.memory } }
    {
        let start = self.locals.len() as u32;
        self.activations.push(activation);
        self.starts.push(start);
    }

    /// A variable of the innermost activation begins, with an argument if there is one.
    fn push_local(&mut self, layouts: &'a [Layout], ctype: &'a CType, argument: Option<Value>)
        requires inside { 0 < length self.old.memory.frames }
        requires some { 1 ≤ length (object_cells layouts.now ctype.now) }
        requires few { length (object_cells layouts.now ctype.now) ≤ 65536 }
        requires room { chunks self.old.memory + chunks_for (length (object_cells layouts.now ctype.now)) ≤ self.old.chunk_limit }
        requires numbered { ArgumentIsNumbered argument }
        ensures { self.new ≡ record self.old { memory = with_local (first_local layouts.now ctype.now argument) self.old.memory } }
    {
        let held = argument_of(
            &self.globals,
            &self.named,
            &self.locals,
            &self.numbers,
            &self.heap,
            argument,
        );
        let top = self.activations.len() - 1;
        let name = number(Name {
            kind: NameKind::Local,
            activation: self.activations.as_slice()[top],
            index: self.locals.len() as u32 - self.starts.as_slice()[top],
        });
        let slot = start_block(&mut self.pool, layouts, ctype, held, name);
        self.named.push(name);
        self.locals.push(slot);
    }

    /// How many variables the innermost activation has.
    fn top_locals(&self) -> u32
        requires inside { 0 < length self.now.memory.frames }
        ensures { result ≡ locals_in self.now.memory.frames }
    {
        let top = self.activations.len() - 1;
        self.locals.len() as u32 - self.starts.as_slice()[top]
    }

    /// The last variable of the innermost activation ends.
    fn drop_local(&mut self)
        requires some { 0 < locals_in self.old.memory.frames }
        ensures { self.new ≡ record self.old { memory = with_locals (locals_in self.old.memory.frames - 1) self.old.memory } }
    {
        let Some(slot) = self.locals.pop() else {
            unreachable!()
        };
        let Some(name) = self.named.pop() else {
            unreachable!()
        };
        self.pool.give(slot, name);
    }

    /// The innermost activation, which has no variables left, ends.
    fn end_frame(&mut self)
        requires inside { 0 < length self.old.memory.frames }
        requires none { locals_in self.old.memory.frames ≡ 0 }
        ensures { self.new ≡ record self.old { memory = without_frame self.old.memory } }
    {
        let _activation = self.activations.pop();
        let _start = self.starts.pop();
    }

    /// The innermost activation ends, and with it its variables.
    pub fn close(&mut self)
        requires { 0 < length self.old.memory.frames }
        ensures { self.new ≡ record self.old { memory = without_frame self.old.memory } }
    {
        let count = self.top_locals();
        for i in 0..count {
            self.drop_local();
        }
        self.end_frame();
    }

    /// An activation begins with these variables, the first ones with these arguments.
    fn begin(
        &mut self,
        layouts: &'a [Layout],
        variables: &'a [Declared],
        activation: u64,
        arguments: &[Value],
    )
        requires newer { IsNewer activation self.old.memory.frames }
        requires small { activation < 1099511627776 }
        requires calls { length self.old.memory.frames < self.old.call_limit }
        requires sized { AllByRecursion (λ d. IsBlockSized layouts.now d.ctype) variables.now }
        requires room { chunks self.old.memory + variables_chunks layouts.now variables.now ≤ self.old.chunk_limit }
        requires numbered { AllByRecursion ValueIsNumbered arguments.now }
        ensures { self.new ≡ record self.old { memory = with_frame (record { activation = activation; locals = with_arguments (map (empty_block layouts.now) variables.now) arguments.now }) self.old.memory } }
    {
        self.begin_frame(activation);
        for i in 0..variables.len() {
            self.push_local(layouts, &variables[i].ctype, argument_at(arguments, i));
        }
    }

    /// An activation of the function begins: all its variables do, the parameters with these arguments (C11 6.2.4, 6.9.1).
    pub fn open(
        &mut self,
        layouts: &'a [Layout],
        function: &'a Function,
        activation: u64,
        arguments: &[Value],
    )
        requires newer { IsNewer activation self.old.memory.frames }
        requires small { activation < 1099511627776 }
        requires calls { length self.old.memory.frames < self.old.call_limit }
        requires sized { AllByRecursion (λ d. IsBlockSized layouts.now d.ctype) function.now.locals }
        requires room { chunks self.old.memory + variables_chunks layouts.now function.now.locals ≤ self.old.chunk_limit }
        requires numbered { AllByRecursion ValueIsNumbered arguments.now }
        ensures { self.new ≡ record self.old { memory = with_frame (first_frame layouts.now function.now activation arguments.now) self.old.memory } }
    {
        self.begin(layouts, function.locals.as_slice(), activation, arguments);
    }

    /// The ghost variables of an activation of the function begin (ACSL, ghost variables), in a store that holds the ghost variables alone.
    pub fn open_ghosts(&mut self, layouts: &'a [Layout], function: &'a Function, activation: u64)
        requires newer { IsNewer activation self.old.memory.frames }
        requires small { activation < 1099511627776 }
        requires calls { length self.old.memory.frames < self.old.call_limit }
        requires sized { AllByRecursion (λ d. IsBlockSized layouts.now d.ctype) function.now.ghosts }
        requires room { chunks self.old.memory + variables_chunks layouts.now function.now.ghosts ≤ self.old.chunk_limit }
        ensures { self.new ≡ record self.old { memory = with_frame (first_ghosts layouts.now function.now activation) self.old.memory } }
    {
        self.begin(layouts, function.ghosts.as_slice(), activation, &[]);
    }
}

/// The argument with this number, if there is one.
fn argument_at(arguments: &[Value], index: usize) -> Option<Value>
    ensures { result ≡ slice_get arguments.now index }
{
    if index < arguments.len() {
        Some(arguments[index])
    } else {
        None
    }
}
