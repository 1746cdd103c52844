//! What the program asks of the outside.
//!
//! An object outside may tell what it holds, as one in memory does, or not, as a file of the system. Clauses on
//! contents hold where it tells them. Each counts its faults; a fault is answered only where the count rose in the
//! call, or stands at the last value of a `u64`.

ghost use Rattle.std.specs.Prelude.{◌≡◌, ℕ, ◌≤◌, List, length, Option, Some, IfOk, IsErr, IsErrOf};
ghost use Rattle.weave_base.specs.Causes.{HasCause, Rose};
ghost use Rattle.weave_base.specs.Contents.{File, IsLoaded, failed_name, IsTaken, IsPut};
ghost use Rattle.weave_base.specs.declared.outside.FileFault.TheVariants as fault;

use std::alloc::{AllocError, Global};

/// A call of the outside failed.
#[derive(Clone, Copy, Debug, PartialEq, Eq)]
pub struct Failed;

/// Why a file wasn't loaded.
#[derive(Clone, Copy, Debug, PartialEq, Eq)]
pub enum FileFault {
    /// The file isn't there, or can't be read.
    Failed,
    /// The file has more bytes than asked for.
    TooLong,
    /// Want of memory.
    Memory,
}

impl From<AllocError> for FileFault {
    ghost from_gives = { λ _ e. e ≡ fault.Memory };

    fn from(_: AllocError) -> FileFault {
        FileFault::Memory
    }
}

/// Files by their names.
pub trait Files {
    /// The files, where they are told. Of two files of one name the first counts.
    ghost contents: { Self → Option (List File) };

    /// How many loads have failed.
    ghost faults: { Self → ℕ };

    /// The name of the last load that failed.
    ghost last_failed: { Self → Option (List ℕ) };

    /// The bytes of a file of at most `limit` bytes.
    fn load(&mut self, alloc: Global, name: &str, limit: u64) -> Result<Vec<u8>, FileFault>
        ensures loaded { (files : List File) → contents self.old ≡ Some files → IsLoaded files name.now limit result }
        ensures bounded { IfOk result (λ bytes. length bytes.items ≤ limit) }
        ensures unchanged { contents self.new ≡ contents self.old }
        ensures cause { HasCause (faults self.old) (faults self.new) (IsErrOf result fault.Failed) }
        ensures failed_name { last_failed self.new ≡ failed_name (last_failed self.old) name.now result };
}

/// A source of bytes.
pub trait Source {
    /// The bytes that are left, where they are told.
    ghost left: { Self → Option (List ℕ) };

    /// How many reads have failed.
    ghost faults: { Self → ℕ };

    /// The next byte, or nothing at the end.
    fn next_byte(&mut self) -> Result<Option<u8>, Failed>
        ensures taken { (bytes : List ℕ) → left self.old ≡ Some bytes → IsTaken bytes result (left self.new) }
        ensures cause { HasCause (faults self.old) (faults self.new) (IsErr result) };
}

/// A sink of bytes.
pub trait Sink {
    /// The bytes that it holds, where they are told.
    ghost held: { Self → Option (List ℕ) };

    /// How many writes have failed.
    ghost faults: { Self → ℕ };

    /// Adds a piece, all of it where it answers `Ok`, and else a prefix.
    fn put(&mut self, piece: &[u8]) -> Result<(), Failed>
        ensures put { (bytes : List ℕ) → held self.old ≡ Some bytes → IsPut bytes piece.now result (held self.new) }
        ensures cause { HasCause (faults self.old) (faults self.new) (IsErr result) };
}
