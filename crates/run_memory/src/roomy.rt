//! A list with room for so many items. After it was made it takes no memory.

ghost use Rattle.std.specs.Prelude.{◌≡◌, ℕ, [], ◌∷◌, ◌++◌, ◌<◌, ◌≤◌, ◌-◌, length, take, IfOk, MatchOption, slice_index_or};
ghost use Rattle.std.specs.List.{remove};

use std::alloc::{AllocError, Global};
use std::marker::Model;

/// A list of at most so many items.
#[derive(Drop)]
pub struct Roomy<T> {
    items: Vec<T>,
    room: usize,
}

impl<T> Model for Roomy<T> {
    ghost use Rattle.std.specs.Prelude.{List, ℕ, ◌≤◌};
    ghost use Rattle.std.specs.Vec.{vec_capacity};
    ghost use Rattle.std.specs.Coded.{coded_list, coded_ℕ, coded×};

    ghost Value = { List T × ℕ };

    ghost coded = { coded× (coded_list T.code) coded_ℕ };

    ghost view = { λ s. (s.items.items, s.room) };

    ghost invariant = { λ s. s.room ≤ vec_capacity s.items };
}

impl<T> Roomy<T> {
    /// An empty list with room for so many items.
    pub fn with_room(alloc: Global, room: usize) -> Result<Roomy<T>, AllocError>
        ensures { IfOk result (λ s. s ≡ ([], room)) }
    {
        Ok(Roomy {
            items: Vec::with_capacity(alloc, room)?,
            room,
        })
    }

    /// The items.
    pub fn as_slice(&self) -> &[T]
        ensures { result.now ≡ self.now.0 }
    {
        self.items.as_slice()
    }

    /// How many there may be.
    pub fn room(&self) -> usize
        ensures { result ≡ self.now.1 }
    {
        self.room
    }

    /// How many there are.
    pub fn len(&self) -> usize
        ensures { result ≡ length self.now.0 }
    {
        self.items.len()
    }
}

impl<T: Drop> Roomy<T> {
    /// One more, at the end.
    pub fn push(&mut self, item: T)
        requires { length self.old.0 < self.old.1 }
        ensures { self.new ≡ (self.old.0 ++ item ∷ [], self.old.1) }
    {
        match self.items.push(item) {
            Ok(()) => {}
            Err(_) => unreachable!(),
        }
    }

    /// The last one goes.
    pub fn pop(&mut self) -> Option<T>
        ensures items { MatchOption result ((self.old.0 ≡ []) × (self.new.0 ≡ [])) (λ last. self.old.0 ≡ self.new.0 ++ last ∷ []) }
        ensures rest { self.new.0 ≡ take (length self.old.0 - 1) self.old.0 }
        ensures room { self.new.1 ≡ self.old.1 }
    {
        self.items.pop()
    }

    /// The item with this number goes, and those after it move down.
    pub fn remove(&mut self, index: usize)
        requires { index < length self.old.0 }
        ensures { self.new ≡ (remove self.old.0 index, self.old.1) }
    {
        self.items.remove(index);
    }
}
