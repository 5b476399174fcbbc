//! Why words give no command.
ghost use Rattle.std.specs.Prelude.{◌≡◌};
ghost use Rattle.wp_words.specs.declared.error.WordsError.TheVariants.{Memory};

use std::alloc::AllocError;
use thiserror::Error;

/// Why words give no command.
#[derive(Debug, Drop, Error)]
pub enum WordsError {
    /// The words have no command; a call for help has none either.
    #[error("the words have no command")]
    Usage,

    /// Want of memory; it says nothing of the words.
    #[error("out of memory")]
    Memory,
}

impl From<AllocError> for WordsError {
    ghost from_gives = { λ _ e. e ≡ Memory };

    fn from(_error: AllocError) -> WordsError {
        WordsError::Memory
    }
}
