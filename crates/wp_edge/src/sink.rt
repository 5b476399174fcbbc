//! Where the output goes: bytes, taken from the front of a piece, as many as the sink likes.

ghost use Rattle.std.specs.Prelude.{◌≡◌, ◌<◌, ◌≤◌, ℕ, List, Option, length, IfOk, OnErr};
ghost use Rattle.wp_edge.specs.Faults.{Rose};
ghost use Rattle.wp_edge.specs.Put.{IsTaken};

use thiserror::Error;

/// Why nothing of a piece was taken.
#[derive(Debug, Drop, Error)]
pub enum SinkError {
    #[error("the output could not be written")]
    Failed,
}

/// A taker of output.
///
/// `held` is all that it took, where it tells, `faults` counts the puts that failed and never falls.
pub trait Sink {
    ghost held: { Self → Option (List ℕ) };

    ghost faults: { Self → ℕ };

    /// Takes some of the piece from its front, and answers how many bytes.
    fn put(&mut self, piece: &[u8]) -> Result<u64, SinkError>
        requires { 0 < length piece.now }
        ensures ok { IfOk result (IsTaken (held self.old) (held self.new) piece.now) }
        ensures err { OnErr result (held self.new ≡ held self.old) }
        ensures cause { OnErr result (Rose (faults self.old) (faults self.new)) }
        ensures later { faults self.old ≤ faults self.new };
}
