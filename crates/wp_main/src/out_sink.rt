//! The real sink: standard output, flushed after each put.

ghost use Rattle.std.specs.Prelude.{◌≡◌, ◌≤◌, ◌<◌, ℕ, IfSome, length};
ghost use Rattle.wp_main.specs.Writes.{IsWritten};

use std::io;
use std::io::Write;
use wp_edge::{Sink, SinkError};

/// Standard output. It tells nothing of what it took.
#[derive(Drop)]
pub struct OutSink<'a, R: Print> {
    rt: &'a R,
    faults: u64,
}

impl<'a, R: Print> OutSink<'a, R> {
    /// The output that this runtime prints to, with no fault so far.
    pub fn new(rt: &'a R) -> OutSink<'a, R>
        ensures { result.faults ≡ 0 }
    {
        OutSink { rt, faults: 0 }
    }
}

impl<'a, R: Print> Sink for OutSink<'a, R> {
    ghost use Rattle.std.specs.Prelude.{None};

    ghost held = { λ _. None };

    ghost faults = { λ sink. sink.faults };

    fn put(&mut self, piece: &[u8]) -> Result<u64, SinkError> {
        match write_some(&mut io::writer(self.rt), piece) {
            Some(count) => Ok(count),
            None => {
                self.faults = self.faults.saturating_add(1);
                Err(SinkError::Failed)
            }
        }
    }
}

/// Writes some of the piece and flushes. Where nothing was taken that is a failure too.
fn write_some<W: Write>(output: &mut W, piece: &[u8]) -> Option<u64>
    ensures taken { IfSome result
        (IsWritten (W.contents output.old) (W.contents output.new) piece.now) }
{
    let count = output.write(piece).ok()?;
    output.flush().ok()?;
    if count == 0 { None } else { Some(count as u64) }
}

#[cfg(test)]
mod tests {
    use super::*;
    use std::io::{Error, ErrorKind};
    use std::test::Fail;

    /// An output that takes one byte a write, and whose flush fails where it is broken.
    #[derive(Drop)]
    struct Narrow {
        taken: u64,
        broken: bool,
    }

    impl Write for Narrow {
        fn write(&mut self, piece: &[u8]) -> io::Result<usize> {
            if piece.is_empty() {
                return Ok(0);
            }
            self.taken = self.taken.saturating_add(1);
            Ok(1)
        }

        fn flush(&mut self) -> io::Result<()> {
            if self.broken {
                Err(Error::from(ErrorKind::BrokenPipe))
            } else {
                Ok(())
            }
        }
    }

    #[test]
    fn a_piece_goes_to_standard_output(rt: HostRuntime) -> Result<(), Fail> {
        let mut sink = OutSink::new(&rt);
        assert_eq!(rt; sink.put(b"; valid\n")?, 8);
        assert_eq!(rt; sink.faults, 0);
        Ok(())
    }

    #[test]
    fn a_failed_flush_is_a_failed_put(rt: HostRuntime) -> Result<(), Fail> {
        let mut narrow = Narrow {
            taken: 0,
            broken: false,
        };
        assert_eq!(rt; write_some(&mut narrow, b"; valid\n"), Some(1));
        narrow.broken = true;
        assert_eq!(rt; write_some(&mut narrow, b" valid\n"), None);
        assert_eq!(rt; narrow.taken, 2);
        Ok(())
    }
}
