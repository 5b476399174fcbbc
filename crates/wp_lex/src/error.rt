//! The lexical faults of a text.

ghost use Rattle.std.specs.Prelude.{◌≡◌};
ghost use Rattle.wp_lex.specs.declared.error.LexError.TheVariants.{Memory};

use std::alloc::AllocError;
use thiserror::Error;

/// Why a text has no lists: its first lexical fault, with the byte offset from 0 where it stands.
#[derive(Debug, Drop, Error)]
pub enum LexError {
    /// A byte outside comments that is neither printable ASCII nor one of the bytes that separate words.
    #[error("the byte at {at} is not allowed")]
    BadByte { at: u64 },

    /// A word or a closing bracket where no list was opened yet.
    #[error("no list is open at {at}")]
    Unopened { at: u64 },

    /// The text ends within a list.
    #[error("the text ends within a list")]
    Unclosed,

    /// A word or a bracket behind the one list of the text.
    #[error("the list is over before {at}")]
    Trailing { at: u64 },

    /// An opening bracket where 64 lists stand open.
    #[error("the lists are nested too deeply at {at}")]
    TooDeep { at: u64 },

    /// The text has no list.
    #[error("the text has no list")]
    Empty,

    /// Want of memory; it says nothing of the text.
    #[error("out of memory")]
    Memory,
}

impl From<AllocError> for LexError {
    ghost from_gives = { λ _ e. e ≡ Memory };

    fn from(_error: AllocError) -> LexError {
        LexError::Memory
    }
}
