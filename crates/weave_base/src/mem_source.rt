//! A source of bytes in memory.

ghost use Rattle.std.specs.Prelude.{◌≡◌, [], IfOk, OnOk, OnErr};
ghost use Rattle.weave_base.specs.Calls.{with_call};
ghost use Rattle.weave_base.specs.SourceInMemory.{read_answer, after_read};

use crate::count::count_up;
use crate::outside::{Failed, Source};
use std::alloc::{AllocError, Global};
use std::collections::{BTreeSet, VecDeque};
use std::marker::Model;

/// A source of the bytes given, whose listed calls fail.
///
/// Calls are counted from 1. The counts of calls and of faults stand still at `u64::MAX`, so from there on each
/// call has that number.
#[derive(Drop)]
pub struct MemSource {
    left: VecDeque<u8>,
    listed: BTreeSet<u64>,
    calls: u64,
    faults: u64,
}

impl Model for MemSource {
    ghost use Rattle.weave_base.specs.SourceInMemory.{SourceInMemory};

    ghost Value = { SourceInMemory };

    ghost view = { λ s. record { left = s.left.items; listed = s.listed.keys; calls = s.calls; faults = s.faults } };
}

impl MemSource {
    /// A source of these bytes, none of whose calls is listed.
    pub fn new(alloc: Global, bytes: &[u8]) -> Result<MemSource, AllocError>
        ensures { IfOk result (λ source. source ≡ record { left = bytes.now; listed = []; calls = 0; faults = 0 }) }
    {
        let bytes = bytes.to_vec(alloc)?;
        Ok(MemSource {
            left: VecDeque::from(bytes),
            listed: BTreeSet::new(alloc),
            calls: 0,
            faults: 0,
        })
    }

    /// Lists a call, so that it fails.
    pub fn fail_at(&mut self, call: u64) -> Result<(), AllocError>
        ensures ok { OnOk result (self.new ≡ record self.old { listed = with_call self.old.listed call }) }
        ensures err { OnErr result (self.new ≡ self.old) }
    {
        self.listed.insert(call)?;
        Ok(())
    }
}

impl Source for MemSource {
    ghost use Rattle.std.specs.Prelude.{Some};

    ghost left = { λ s. Some s.left };

    ghost faults = { λ s. s.faults };

    fn next_byte(&mut self) -> Result<Option<u8>, Failed>
        ensures answer { result ≡ read_answer self.old }
        ensures after { self.new ≡ after_read self.old }
    {
        self.calls = count_up(self.calls);
        if self.listed.contains(&self.calls) {
            self.faults = count_up(self.faults);
            return Err(Failed);
        }
        Ok(self.left.pop_front())
    }
}

#[cfg(test)]
mod tests {
    use super::*;
    use std::test::Fail;

    fn next_of<S: Source>(source: &mut S) -> Result<Option<u8>, Failed> {
        source.next_byte()
    }

    #[test]
    fn listed_calls_fail_and_take_nothing(rt: HostRuntime) -> Result<(), Fail> {
        let mut source = MemSource::new(rt.alloc(), b"ab")?;
        source.fail_at(2)?;
        source.fail_at(5)?;
        let answers = [
            Ok(Some(b'a')),
            Err(Failed),
            Ok(Some(b'b')),
            Ok(None),
            Err(Failed),
            Ok(None),
        ];
        for (i, answer) in answers.into_iter().enumerate() {
            assert_eq!(rt; next_of(&mut source), answer, "in place {i}");
        }
        Ok(())
    }
}
