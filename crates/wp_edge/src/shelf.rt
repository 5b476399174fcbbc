//! Where the texts come from: named files, each read whole up to a limit.

ghost use Rattle.std.specs.Prelude.{◌≡◌, ◌≤◌, ℕ, Option, IfOk, IfErr};
ghost use Rattle.wp_edge.specs.Fetch.{Contents, IsFetched, IsCause};
ghost use Rattle.wp_edge.specs.declared.shelf.FetchError.TheVariants.{Memory};

use std::alloc::{AllocError, Global};
use thiserror::Error;

/// Why a file was not given.
#[derive(Debug, Drop, Error)]
pub enum FetchError {
    /// The file is not there, or the outside failed.
    #[error("the file could not be read")]
    Failed,
    /// The file gave `got` bytes, one more than the limit, and was not read further.
    #[error("the file gave {got} bytes, more than its limit")]
    TooLong { got: u64 },
    #[error("out of memory")]
    Memory,
}

impl From<AllocError> for FetchError {
    ghost from_gives = { λ _ error. error ≡ Memory };

    fn from(_error: AllocError) -> FetchError {
        FetchError::Memory
    }
}

/// A source of files.
///
/// `contents` are its files where it tells them, `faults` counts the fetches that failed and never falls.
pub trait Shelf {
    ghost contents: { Self → Option Contents };

    ghost faults: { Self → ℕ };

    /// The bytes of the file of that name, at most `limit` of them.
    fn fetch(&mut self, alloc: Global, name: &str, limit: u64) -> Result<Vec<u8>, FetchError>
        ensures ok { IfOk result (λ bytes. IsFetched (contents self.old) name.now limit bytes.items) }
        ensures err { IfErr result (IsCause (contents self.old) name.now limit (faults self.old) (faults self.new)) }
        ensures same { contents self.new ≡ contents self.old }
        ensures later { faults self.old ≤ faults self.new };
}
