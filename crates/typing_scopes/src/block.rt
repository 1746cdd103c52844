//! Blocks that are open.

ghost use Rattle.std.specs.Prelude.{◌≡◌, [], ◌∷◌, ◌++◌, false, is_some, IfErr, OnOk, OnErr};
ghost use Rattle.std.specs.Option.{option_map};
ghost use Rattle.typing_rules.specs.Environment.{found_in};
ghost use Rattle.typing_scopes.specs.Blocks.{local_entry};

use crate::names::Names;
use sqlite_items::Items;
use std::alloc::Global;
use std::marker::Model;
use typing_rules::fault::TypeFault;
use typing_rules::operand::TypePart;

/// A parameter or local, as a block knows it: its number in its function, and its type.
#[derive(Drop)]
pub struct BlockLocal {
    pub index: u32,
    pub ctype: TypePart,
}

/// The names of a block so far, in the order of their declarations (C11 6.2.1, 4).
#[derive(Drop)]
pub struct Block<'t> {
    names: Names<'t>,
    locals: Items<BlockLocal>,
}

impl<'t> Model for Block<'t> {
    ghost use Rattle.std.specs.Prelude.{◌≡◌, length};
    ghost use Rattle.typing_rules.specs.Environment.{Scope};
    ghost use Rattle.step_meaning.specs.contracts.value.CType as ctype;
    ghost use Rattle.std.specs.Coded.{codes};

    ghost Value = { Scope };

    ghost coded = { Prim.hlevel (codes, ctype.the_row.coded) };

    ghost use Rattle.typing_scopes.specs.Blocks.{scope_of};

    ghost view = { λ b. scope_of b.names b.locals };

    ghost invariant = { λ b. length b.locals ≡ length b.names };
}

impl<'t> Block<'t> {
    pub fn new(alloc: Global) -> Block<'t>
        ensures { result ≡ [] }
    {
        Block {
            names: Names::new(alloc),
            locals: Items::new(alloc),
        }
    }

    /// The local that the block declares by the name.
    pub fn find(&self, name: &[u8]) -> Option<&BlockLocal>
        ensures { option_map (λ l. local_entry l.now) result ≡ found_in self.now name.now }
    {
        match self.names.number(name) {
            Some(number) => self.locals.get(number as usize),
            None => None,
        }
    }

    pub fn has(&self, name: &[u8]) -> bool
        ensures { result ≡ is_some (found_in self.now name.now) }
    {
        self.find(name).is_some()
    }

    /// Declares a name that the block doesn't have yet.
    pub fn push(&mut self, name: &'t [u8], local: BlockLocal) -> Result<(), TypeFault>
        requires { is_some (found_in self.old name.now) ≡ false }
        ensures ok { OnOk result (self.new ≡ self.old ++ (name.now, local_entry local) ∷ []) }
        ensures err { OnErr result (self.new ≡ self.old) }
        ensures fault { IfErr result (λ fault. fault ≡ TypeFault.Memory) }
    {
        self.locals.push(local)?;
        match self.names.push(name) {
            Ok(()) => Ok(()),
            Err(fault) => {
                let _last = self.locals.pop();
                Err(fault)
            }
        }
    }
}
