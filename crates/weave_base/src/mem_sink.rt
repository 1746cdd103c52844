//! A sink of bytes in memory.

ghost use Rattle.std.specs.Prelude.{◌≡◌, ◌+◌, ◌≤◌, [], ◌++◌, take, vec_len, vec_capacity, IfOk, OnOk, OnErr};
ghost use Rattle.weave_base.specs.SinkInMemory.{with_entry, write_answer, after_write};

use crate::count::count_up;
use crate::outside::{Failed, Sink};
use std::alloc::{AllocError, Global};
use std::collections::BTreeMap;
use std::marker::Model;

/// A sink with room for a number of bytes, whose listed calls fail.
///
/// Calls are counted from 1. The counts of calls and of faults stand still at `u64::MAX`, so from there on each
/// call has that number.
#[derive(Drop)]
pub struct MemSink {
    held: Vec<u8>,
    room: usize,
    listed: BTreeMap<u64, usize>,
    calls: u64,
    faults: u64,
}

impl Model for MemSink {
    ghost use Rattle.std.specs.Prelude.{◌≤◌, vec_len, vec_capacity};
    ghost use Rattle.weave_base.specs.SinkInMemory.{SinkInMemory};

    ghost Value = { SinkInMemory };

    ghost view = { λ s. record { held = s.held.items; room = s.room; listed = s.listed.entries; calls = s.calls; faults = s.faults } };

    ghost invariant = { λ s. (vec_len s.held ≤ s.room) × (s.room ≤ vec_capacity s.held) };
}

impl MemSink {
    /// An empty sink with room for that many bytes, none of whose calls is listed.
    pub fn new(alloc: Global, room: usize) -> Result<MemSink, AllocError>
        ensures { IfOk result (λ sink. sink ≡ record { held = []; room = room; listed = []; calls = 0; faults = 0 }) }
    {
        let held = Vec::with_capacity(alloc, room)?;
        Ok(MemSink {
            held,
            room,
            listed: BTreeMap::new(alloc),
            calls: 0,
            faults: 0,
        })
    }

    /// Lists a call, so that it fails once it has added the first `keep` bytes of its piece.
    pub fn fail_at(&mut self, call: u64, keep: usize) -> Result<(), AllocError>
        ensures ok { OnOk result (self.new ≡ record self.old { listed = with_entry self.old.listed call keep }) }
        ensures err { OnErr result (self.new ≡ self.old) }
    {
        if !self.listed.contains_key(&call) {
            self.listed.insert(call, keep)?;
        }
        Ok(())
    }

    /// The bytes that it holds.
    pub fn bytes(&self) -> &[u8]
        ensures { result.now ≡ self.now.held }
    {
        &self.held
    }
}

impl Sink for MemSink {
    ghost use Rattle.std.specs.Prelude.{Some};

    ghost held = { λ s. Some s.held };

    ghost faults = { λ s. s.faults };

    #[tactic(auto, using(crate::proofs::Writes::same_after_write))]
    fn put(&mut self, piece: &[u8]) -> Result<(), Failed>
        ensures answer { result ≡ write_answer self.old piece.now }
        ensures after { self.new ≡ after_write self.old piece.now }
    {
        self.calls = count_up(self.calls);
        let keep = self.listed.get(&self.calls).copied();
        let free = self.room - self.held.len();
        append_part(&mut self.held, piece, keep.unwrap_or(piece.len()).min(free));
        if keep.is_none() && piece.len() <= free {
            return Ok(());
        }
        self.faults = count_up(self.faults);
        Err(Failed)
    }
}

// Adds the first `most` bytes of a piece, or all where it has fewer.
#[tactic(auto, using(std::proofs::lemmas::List::take_min))]
fn append_part(held: &mut Vec<u8>, piece: &[u8], most: usize)
    requires { vec_len held.old + most ≤ vec_capacity held.old }
    ensures items { held.new.items ≡ held.old.items ++ take most piece.now }
    ensures capacity { vec_capacity held.old ≤ vec_capacity held.new }
{
    let part = &piece[..most.min(piece.len())];
    held.extend_from_slice(part).unwrap();
}

#[cfg(test)]
mod tests {
    use super::*;
    use std::test::Fail;

    fn put_to<K: Sink>(sink: &mut K, piece: &[u8]) -> Result<(), Failed> {
        sink.put(piece)
    }

    #[test]
    fn faults_keep_a_prefix(rt: HostRuntime) -> Result<(), Fail> {
        let mut sink = MemSink::new(rt.alloc(), 8)?;
        sink.fail_at(2, 1)?;
        sink.fail_at(2, 2)?;
        sink.fail_at(4, 9)?;
        let puts: [(&[u8], Result<(), Failed>, &[u8]); 7] = [
            (b"ab", Ok(()), b"ab"),
            (b"cde", Err(Failed), b"abc"),
            (b"d", Ok(()), b"abcd"),
            (b"ef", Err(Failed), b"abcdef"),
            (b"ghi", Err(Failed), b"abcdefgh"),
            (b"", Ok(()), b"abcdefgh"),
            (b"j", Err(Failed), b"abcdefgh"),
        ];
        for (piece, answer, held) in puts {
            assert_eq!(rt; put_to(&mut sink, piece), answer, "of {piece:?}");
            assert_eq!(rt; sink.bytes(), held);
        }
        Ok(())
    }
}
