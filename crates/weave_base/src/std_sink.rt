//! A sink over a writer of std.

ghost use Rattle.std.specs.Prelude.{◌≡◌, ℕ, List, Some};
ghost use Rattle.weave_base.specs.Contents.{IsPut};

use crate::count::count_up;
use crate::outside::{Failed, Sink};
use std::io::Write;

/// A sink that hands each piece to its writer before it answers.
///
/// It has no buffer of its own. Over a stream of the system, as `rt.stdout()` or `rt.stderr()`, what was answered
/// `Ok` was handed to the system. It tells what its writer tells: of a stream of the system, nothing.
#[derive(Drop)]
pub struct StdSink<W> {
    writer: W,
    faults: u64,
}

impl<W: Write> StdSink<W> {
    /// A sink over this writer, with no faults yet.
    pub fn new(writer: W) -> StdSink<W>
        ensures held { ⟦<StdSink<W> as Sink>⟧.held result ≡ W.contents writer }
        ensures faults { ⟦<StdSink<W> as Sink>⟧.faults result ≡ 0 }
    {
        StdSink { writer, faults: 0 }
    }
}

impl<W: Write> Sink for StdSink<W> {
    ghost held = { λ s. W.contents s.writer };

    ghost faults = { λ s. s.faults };

    fn put(&mut self, piece: &[u8]) -> Result<(), Failed> {
        match write_whole(&mut self.writer, piece) {
            Ok(()) => Ok(()),
            Err(failed) => {
                self.faults = count_up(self.faults);
                Err(failed)
            }
        }
    }
}

// A write that takes nothing of what is left is a failure, as one that is interrupted is.
fn write_whole<W: Write>(writer: &mut W, piece: &[u8]) -> Result<(), Failed>
    ensures { (bytes : List ℕ) → W.contents writer.old ≡ Some bytes
        → IsPut bytes piece.now result (W.contents writer.new) }
{
    let mut rest = piece;
    while !rest.is_empty() {
        match writer.write(rest) {
            Ok(0) => return Err(Failed),
            Ok(count) => rest = &rest[count..],
            Err(_) => return Err(Failed),
        }
    }
    Ok(())
}

#[cfg(test)]
mod tests {
    use super::*;
    use std::test::Fail;

    // Takes two bytes of each piece, until it holds five.
    #[derive(Drop)]
    struct SlowWriter<'a>(&'a mut Vec<u8>);

    impl Write for SlowWriter<'_> {
        fn write(&mut self, buf: &[u8]) -> std::io::Result<usize> {
            let count = buf.len().min(2).min(5usize.saturating_sub(self.0.len()));
            self.0.extend_from_slice(&buf[..count])?;
            Ok(count)
        }

        fn flush(&mut self) -> std::io::Result<()> {
            Ok(())
        }
    }

    #[test]
    fn pieces_are_handed_on_whole(rt: HostRuntime) -> Result<(), Fail> {
        let mut held = Vec::new(rt.alloc());
        let mut sink = StdSink::new(SlowWriter(&mut held));
        let answers = [sink.put(b"abc"), sink.put(b""), sink.put(b"def")];
        assert_eq!(rt; answers, [Ok(()), Ok(()), Err(Failed)]);
        assert_eq!(rt; held.as_slice(), b"abcde".as_slice());
        Ok(())
    }
}
