//! Declared things with numbers.

ghost use Rattle.std.specs.Prelude.{◌≡◌, ◌<◌, ℕ, List, [], ◌∷◌, ◌++◌, false, length, position, get_or, slice_set, IfSome, IfErr, OnOk, OnErr};
ghost use Rattle.std.specs.List.{list_any};
ghost use Rattle.std.specs.Str.{bytes_eq};

use crate::names::Names;
use sqlite_items::Items;
use std::alloc::Global;
use std::marker::Model;
use step_meaning::{Declared, Function};
use typing_rules::fault::TypeFault;

/// What has a name.
pub trait HasName {
    ghost name: { Self → List ℕ };
}

impl HasName for Declared {
    ghost name = { λ d. d.name };
}

impl HasName for Function {
    ghost name = { λ f. f.name };
}

/// Items with distinct names, numbered in order from 0. An item is found by its name in constant time.
#[derive(Drop)]
pub struct Table<'t, T: HasName> {
    names: Names<'t>,
    items: Items<T>,
}

impl<'t, T: HasName> Model for Table<'t, T> {
    ghost use Rattle.std.specs.Prelude.{◌≡◌, List, map};
    ghost use Rattle.std.specs.Coded.{coded_list};

    ghost Value = { List T };

    ghost coded = { coded_list T.code };

    ghost view = { λ t. t.items };

    ghost invariant = { λ t. t.names ≡ map T.name t.items };
}

impl<'t, T: HasName> Table<'t, T> {
    pub fn new(alloc: Global) -> Table<'t, T>
        ensures { result ≡ [] }
    {
        Table {
            names: Names::new(alloc),
            items: Items::new(alloc),
        }
    }

    pub fn len(&self) -> usize
        ensures { result ≡ length self.now }
    {
        self.items.len()
    }

    pub fn as_slice(&self) -> &[T]
        ensures { result.now ≡ self.now }
    {
        self.items.as_slice()
    }

    /// The number of the item with the name.
    pub fn number(&self, name: &[u8]) -> Option<u32>
        ensures number { result ≡ position (λ x. bytes_eq name.now (T.name x)) self.now }
        ensures within { IfSome result (λ n. n < length self.now) }
    {
        self.names.number(name)
    }

    pub fn has(&self, name: &[u8]) -> bool
        ensures { result ≡ list_any (λ x. bytes_eq name.now (T.name x)) self.now }
    {
        self.names.has(name)
    }

    /// The items, in order.
    pub fn into_items(self) -> Items<T>
        ensures { result ≡ self.entry }
    {
        let Table {
            names: _names,
            items,
        } = self;
        items
    }
}

impl<'t, T: HasName + Drop> Table<'t, T> {
    /// Adds an item whose name isn't there yet.
    pub fn push(&mut self, name: &'t [u8], item: T) -> Result<(), TypeFault>
        requires named { T.name item ≡ name.now }
        requires new { list_any (λ x. bytes_eq name.now (T.name x)) self.old ≡ false }
        ensures ok { OnOk result (self.new ≡ self.old ++ item ∷ []) }
        ensures err { OnErr result (self.new ≡ self.old) }
        ensures fault { IfErr result (λ fault. fault ≡ TypeFault.Memory) }
    {
        self.items.push(item)?;
        match self.names.push(name) {
            Ok(()) => Ok(()),
            Err(fault) => {
                let _last = self.items.pop();
                Err(fault)
            }
        }
    }

    /// Puts the item in the place of the one with this number, which has its name.
    pub fn set(&mut self, number: u32, item: T)
        requires within { number < length self.old }
        requires named { T.name item ≡ T.name (get_or self.old number item) }
        ensures { self.new ≡ slice_set self.old number item }
    {
        self.items.set(number as usize, item);
    }
}
