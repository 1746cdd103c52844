//! Names with numbers.

ghost use Rattle.std.specs.Prelude.{◌≡◌, ◌<◌, [], ◌∷◌, ◌++◌, false, length, position, IfSome, IfErr, OnOk, OnErr};
ghost use Rattle.std.specs.List.{list_any};
ghost use Rattle.std.specs.Str.{bytes_eq};

use indexmap::IndexSet;
use std::alloc::Global;
use std::marker::Model;
use typing_rules::fault::TypeFault;

/// Distinct names, numbered in order from 0. The number of a name is found in constant time.
#[derive(Drop)]
pub struct Names<'t> {
    set: IndexSet<&'t [u8]>,
}

impl<'t> Model for Names<'t> {
    ghost use Rattle.std.specs.Prelude.{List, ℕ, ◌<◌, ◌^◌, map, length};

    ghost Value = { List (List ℕ) };

    ghost view = { λ n. map (λ x. x.now) n.set.keys };

    ghost invariant = { λ n. length n.set.keys < 2 ^ 32 };
}

impl<'t> Names<'t> {
    pub fn new(alloc: Global) -> Names<'t>
        ensures { result ≡ [] }
    {
        Names {
            set: IndexSet::new(alloc),
        }
    }

    /// How many names there are.
    pub fn len(&self) -> usize
        ensures { result ≡ length self.now }
    {
        self.set.len()
    }

    /// The number of the name.
    pub fn number(&self, name: &[u8]) -> Option<u32>
        ensures number { result ≡ position (bytes_eq name.now) self.now }
        ensures within { IfSome result (λ n. n < length self.now) }
    {
        match self.set.get_index_of(name) {
            Some(number) => Some(number as u32),
            None => None,
        }
    }

    pub fn has(&self, name: &[u8]) -> bool
        ensures { result ≡ list_any (bytes_eq name.now) self.now }
    {
        self.set.contains(name)
    }

    /// Adds a name that isn't there yet. No more than 2^32 - 1 names have room.
    pub fn push(&mut self, name: &'t [u8]) -> Result<(), TypeFault>
        requires { list_any (bytes_eq name.now) self.old ≡ false }
        ensures ok { OnOk result (self.new ≡ self.old ++ name.now ∷ []) }
        ensures err { OnErr result (self.new ≡ self.old) }
        ensures fault { IfErr result (λ fault. fault ≡ TypeFault.Memory) }
    {
        if self.set.len() >= u32::MAX as usize {
            return Err(TypeFault::Memory);
        }
        match self.set.insert(name) {
            Ok(_) => Ok(()),
            Err(_) => Err(TypeFault::Memory),
        }
    }
}
