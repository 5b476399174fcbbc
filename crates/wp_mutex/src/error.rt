//! Why possible pairs are not computed.

ghost use Rattle.std.specs.Prelude.{◌≡◌};

use std::alloc::AllocError;
use thiserror::Error;

/// Why there are no possible pairs of a task.
#[derive(Debug, Drop, Error)]
pub enum PossibleError {
    /// The task has too many atoms for a flag for each pair: so many.
    #[error("{atoms} atoms are too many for pairs")]
    TooMany { atoms: u32 },

    /// Want of memory; it says nothing of the task.
    #[error("out of memory")]
    Memory,
}

impl From<AllocError> for PossibleError {
    ghost use Rattle.wp_mutex.specs.declared.error.PossibleError.TheVariants.{Memory};

    ghost from_gives = { λ _ e. e ≡ Memory };

    fn from(_error: AllocError) -> PossibleError {
        PossibleError::Memory
    }
}
