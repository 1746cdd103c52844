//! A source over a reader of std.

ghost use Rattle.std.specs.Prelude.{◌≡◌, ◌<◌, ◌≤◌, ◌∷◌, length, slice_range};
ghost use Rattle.std.specs.Io.KnownBytes.{prepend_known};

use crate::count::count_up;
use crate::outside::{Failed, Source};
use std::io::Read;

const BUFFER_LEN: usize = 4096;

/// A source that reads into a buffer of a fixed length, and takes no memory.
///
/// A short read isn't the end: the end is a read that gives nothing. It tells what its reader tells: of a stream of
/// the system, as `rt.stdin()`, nothing.
#[derive(Drop)]
pub struct StdSource<R> {
    reader: R,
    buffer: [u8; BUFFER_LEN],
    start: usize,
    end: usize,
    faults: u64,
    ghost in_order: { start ≤ end },
    ghost in_buffer: { end ≤ length buffer },
}

impl<R: Read> StdSource<R> {
    /// A source over this reader, with no faults yet.
    pub fn new(reader: R) -> StdSource<R>
        ensures left { ⟦<StdSource<R> as Source>⟧.left result ≡ R.remaining reader }
        ensures faults { ⟦<StdSource<R> as Source>⟧.faults result ≡ 0 }
    {
        StdSource {
            reader,
            buffer: [0; BUFFER_LEN],
            start: 0,
            end: 0,
            faults: 0,
        }
    }

    fn take_buffered(&mut self) -> u8
        requires { self.old.start < self.old.end }
        ensures taken { slice_range self.old.buffer self.old.start self.old.end
            ≡ result ∷ slice_range self.new.buffer self.new.start self.new.end }
        ensures reader { self.new.reader ≡ self.old.reader }
        ensures faults { self.new.faults ≡ self.old.faults }
    {
        let byte = self.buffer[self.start];
        self.start += 1;
        byte
    }
}

impl<R: Read> Source for StdSource<R> {
    ghost left = { λ s. prepend_known (slice_range s.buffer s.start s.end) (R.remaining s.reader) };

    ghost faults = { λ s. s.faults };

    fn next_byte(&mut self) -> Result<Option<u8>, Failed> {
        if self.start < self.end {
            return Ok(Some(self.take_buffered()));
        }
        match self.reader.read(&mut self.buffer) {
            Ok(0) => Ok(None),
            Ok(count) => {
                self.start = 0;
                self.end = count;
                Ok(Some(self.take_buffered()))
            }
            Err(_) => {
                self.faults = count_up(self.faults);
                Err(Failed)
            }
        }
    }
}

#[cfg(test)]
mod tests {
    use super::*;
    use std::io;
    use std::test::Fail;

    // Gives a byte at a time, and fails at its second call.
    #[derive(Drop)]
    struct SlowReader {
        calls: u8,
    }

    impl Read for SlowReader {
        fn read(&mut self, buf: &mut [u8]) -> io::Result<usize> {
            self.calls = self.calls.saturating_add(1);
            match self.calls {
                1 | 3 => b"a".as_slice().read(buf),
                2 => Err(io::Error::from(io::ErrorKind::Other)),
                _ => Ok(0),
            }
        }
    }

    #[test]
    fn a_short_read_is_not_the_end(rt: HostRuntime) {
        let mut source = StdSource::new(SlowReader { calls: 0 });
        for (i, answer) in [Ok(Some(b'a')), Err(Failed), Ok(Some(b'a')), Ok(None)]
            .into_iter()
            .enumerate()
        {
            assert_eq!(rt; source.next_byte(), answer, "in place {i}");
        }
    }

    #[test]
    fn the_buffer_is_filled_again(rt: HostRuntime) -> Result<(), Fail> {
        let bytes = [7u8; BUFFER_LEN + 904];
        let mut source = StdSource::new(bytes.as_slice());
        let mut count = 0u64;
        for _ in 0..bytes.len() {
            assert_eq!(rt; source.next_byte(), Ok(Some(7)));
            count = count.saturating_add(1);
        }
        assert_eq!(rt; count, 5000);
        assert_eq!(rt; source.next_byte(), Ok(None));
        Ok(())
    }
}
