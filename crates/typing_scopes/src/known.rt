//! What is known at a point of a text.

ghost use Rattle.std.specs.Prelude.{◌≡◌, [], map, is_some};
ghost use Rattle.typing_rules.specs.Environment as rules;
ghost use Rattle.typing_rules.specs.FileScope as file;
ghost use Rattle.typing_rules.specs.Statements as statements;
ghost use Rattle.typing_scopes.specs.Known.{known, state, program, frame};
ghost use Rattle.typing_scopes.specs.States.{State, no_frame};

use crate::block::Block;
use crate::bodies::Bodies;
use crate::names::Names;
use crate::table::Table;
use c_words::word::{Leaf, Mode};
use sqlite_items::Items;
use std::alloc::Global;
use step_meaning::{Declared, Function, Layout, Value};

/// What is known at a point of a text: what the items before it declare, and in a function its parameters, locals and open blocks.
#[derive(Drop)]
pub struct Known<'t> {
    pub mode: Mode,
    pub text: &'t [u8],
    /// The functions that have a body somewhere in the text.
    pub bodies: Bodies<'t>,
    /// The structs that are complete.
    pub layouts: Items<Layout>,
    /// The tags in order: while the members of a struct are read, one more than there are layouts.
    pub tags: Names<'t>,
    /// The variables of file scope.
    pub globals: Table<'t, Declared>,
    /// The values that the cells of each of them start with.
    pub initial: Items<Items<Value>>,
    pub functions: Table<'t, Function>,
    /// The parameters and locals so far of the function that is read.
    pub locals: Items<Declared>,
    /// The blocks that are open, innermost last; at file scope there is none.
    pub blocks: Vec<Block<'t>>,
}

impl<'t> Known<'t> {
    /// What is known before any item, in a text whose functions aren't known yet.
    pub fn new(alloc: Global, mode: Mode, text: &'t [u8]) -> Known<'t>
        ensures { state result ≡ record {
          program = record { mode = mode; text = text.now; bodies = []; layouts = []; globals = []; initial = []; functions = [] };
          tags = [];
          frame = no_frame;
        } }
    {
        Known {
            mode,
            text,
            bodies: Bodies::new(alloc),
            layouts: Items::new(alloc),
            tags: Names::new(alloc),
            globals: Table::new(alloc),
            initial: Items::new(alloc),
            functions: Table::new(alloc),
            locals: Items::new(alloc),
            blocks: Vec::new(alloc),
        }
    }

    /// The bytes of the leaf in the text.
    pub fn bytes(&self, leaf: &Leaf) -> &'t [u8]
        ensures { result.now ≡ rules.bytes_in (known self.now) leaf.now }
    {
        let first = (leaf.token.first as usize).min(self.text.len());
        let past = (leaf.token.past as usize).clamp(first, self.text.len());
        &self.text[first..past]
    }
}
