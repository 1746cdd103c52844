//! The functions that have a body.

ghost use Rattle.std.specs.Prelude.{◌≡◌, [], ◌∷◌, ◌++◌, IfErr, OnOk, OnErr};
ghost use Rattle.typing_rules.specs.Environment.{contains};

use crate::names::Names;
use std::alloc::Global;
use std::marker::Model;
use typing_rules::fault::TypeFault;

/// The names of the functions that have a body somewhere in a text, in order. One that has two stands twice.
#[derive(Drop)]
pub struct Bodies<'t> {
    names: Names<'t>,
    all: Vec<&'t [u8]>,
}

impl<'t> Model for Bodies<'t> {
    ghost use Rattle.std.specs.Prelude.{◌≡◌, List, ℕ, map};
    ghost use Rattle.typing_rules.specs.Environment.{contains};

    ghost Value = { List (List ℕ) };

    ghost view = { λ b. map (λ x. x.now) b.all.items };

    ghost invariant = { λ b. (name : List ℕ) → contains b.names name ≡ contains (map (λ x. x.now) b.all.items) name };
}

fn append<'t>(all: &mut Vec<&'t [u8]>, name: &'t [u8]) -> Result<(), TypeFault>
    ensures ok { OnOk result (all.new.items ≡ all.old.items ++ name.entry ∷ []) }
    ensures err { OnErr result (all.new.items ≡ all.old.items) }
    ensures fault { IfErr result (λ fault. fault ≡ TypeFault.Memory) }
{
    match all.push(name) {
        Ok(()) => Ok(()),
        Err(_) => Err(TypeFault::Memory),
    }
}

impl<'t> Bodies<'t> {
    pub fn new(alloc: Global) -> Bodies<'t>
        ensures { result ≡ [] }
    {
        Bodies {
            names: Names::new(alloc),
            all: Vec::new(alloc),
        }
    }

    /// Whether the function with the name has a body somewhere.
    pub fn has(&self, name: &[u8]) -> bool
        ensures { result ≡ contains self.now name.now }
    {
        self.names.has(name)
    }

    /// Adds the name of a function.
    pub fn push(&mut self, name: &'t [u8]) -> Result<(), TypeFault>
        ensures ok { OnOk result (self.new ≡ self.old ++ name.now ∷ []) }
        ensures fault { IfErr result (λ fault. fault ≡ TypeFault.Memory) }
    {
        append(&mut self.all, name)?;
        if self.names.has(name) {
            return Ok(());
        }
        match self.names.push(name) {
            Ok(()) => Ok(()),
            Err(fault) => {
                let _last = self.all.pop();
                Err(fault)
            }
        }
    }
}
