//! A stack with room for so many items, the top first. After it was made it takes no memory.
ghost use Rattle.std.specs.Prelude.{◌≡◌, ℕ, [], ◌∷◌, ◌<◌, ◌≤◌, drop, length, take, IfOk, MatchOption};
ghost use Rattle.run_turns.specs.Lists.{reversed_onto};

use std::alloc::{AllocError, Global};
use std::marker::Model;

/// A stack of at most so many items.
#[derive(Drop)]
pub struct Stack<T> {
    items: Vec<T>,
    room: usize,
}

impl<T> Model for Stack<T> {
    ghost use Rattle.std.specs.Prelude.{List, ℕ, reverse, ◌≤◌, vec_len};
    ghost use Rattle.std.specs.Vec.{vec_capacity};
    ghost use Rattle.std.specs.Coded.{coded_list, coded_ℕ, coded×};

    ghost Value = { List T × ℕ };

    ghost coded = { coded× (coded_list T.code) coded_ℕ };

    ghost view = { λ s. (reverse s.items.items, s.room) };

    ghost invariant = { λ s. s.room ≤ vec_capacity s.items };
}

impl<T> Stack<T> {
    /// An empty stack with room for so many items.
    pub fn with_room(alloc: Global, room: usize) -> Result<Stack<T>, AllocError>
        ensures { IfOk result (λ s. s ≡ ([], room)) }
    {
        Ok(Stack {
            items: Vec::with_capacity(alloc, room)?,
            room,
        })
    }
}

impl<T: Drop> Stack<T> {
    /// Puts an item on top.
    pub fn push(&mut self, item: T)
        requires { length self.old.0 < self.old.1 }
        ensures { self.new ≡ (item ∷ self.old.0, self.old.1) }
    {
        match self.items.push(item) {
            Ok(()) => {}
            Err(_) => unreachable!(),
        }
    }

    /// How many items there are.
    pub fn len(&self) -> usize
        ensures { result ≡ length self.now.0 }
    {
        self.items.len()
    }

    /// The top n items, the topmost last.
    pub fn top(&self, n: usize) -> &[T]
        requires { n ≤ length self.now.0 }
        ensures { result.now ≡ reversed_onto (take n self.now.0) [] }
    {
        &self.items.as_slice()[self.items.len() - n..]
    }

    /// Takes the top n items off.
    pub fn drop_top(&mut self, n: usize)
        requires { n ≤ length self.old.0 }
        ensures { self.new ≡ (drop n self.old.0, self.old.1) }
    {
        self.items.truncate(self.items.len() - n);
    }

    /// Takes the top item off.
    pub fn pop(&mut self) -> Option<T>
        ensures items { MatchOption result ((self.old.0 ≡ []) × (self.new.0 ≡ [])) (λ top. self.old.0 ≡ top ∷ self.new.0) }
        ensures room { self.new.1 ≡ self.old.1 }
    {
        self.items.pop()
    }
}
