//! Why a pair is not opened.

ghost use Rattle.std.specs.Prelude.{◌≡◌};

use std::alloc::AllocError;
use thiserror::Error;

/// Why a pair of counters gets no words. The tables are then as before.
#[derive(Debug, Drop, Error)]
pub enum PairError {
    /// With one pair more there would be more words than the limit: so many.
    #[error("{need} words are needed")]
    Words { need: u64 },

    /// Want of memory; it says nothing of the pair.
    #[error("out of memory")]
    Memory,
}

impl From<AllocError> for PairError {
    ghost use Rattle.wp_novel.specs.declared.error.PairError.TheVariants.{Memory};

    ghost from_gives = { λ _ e. e ≡ Memory };

    fn from(_error: AllocError) -> PairError {
        PairError::Memory
    }
}
