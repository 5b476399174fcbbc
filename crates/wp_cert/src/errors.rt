//! Why there is no certificate.
ghost use Rattle.std.specs.Prelude.{◌≡◌};

use std::alloc::{AllocError, AllocFailed};
use thiserror::Error;

/// Why a text is no certificate. Lines are counted from 1.
#[derive(Debug, Drop, Error)]
pub enum CertError {
    /// The first line that is not of its form. Where lines are missing it is the number after the last line.
    #[error("line {line} is not of its form")]
    Line { line: u64 },

    /// Want of memory; it says nothing of the text.
    #[error("out of memory")]
    Memory,
}

impl From<AllocError> for CertError {
    ghost use Rattle.wp_cert.specs.declared.errors.CertError.TheVariants.{Memory};

    ghost from_gives = { λ _ e. e ≡ Memory };

    fn from(_error: AllocError) -> CertError {
        CertError::Memory
    }
}

impl<T: Drop> From<AllocFailed<T>> for CertError {
    ghost use Rattle.wp_cert.specs.declared.errors.CertError.TheVariants.{Memory};

    ghost from_gives = { λ _ e. e ≡ Memory };

    fn from(_error: AllocFailed<T>) -> CertError {
        CertError::Memory
    }
}

/// Why there is no certificate of the reachable states.
#[derive(Debug, Drop, Error)]
pub enum CloseError {
    /// There are more of them than the limit.
    #[error("more states than the limit are reachable")]
    Limit,

    /// Want of memory.
    #[error("out of memory")]
    Memory,
}

impl From<AllocError> for CloseError {
    ghost use Rattle.wp_cert.specs.declared.errors.CloseError.TheVariants.{Memory};

    ghost from_gives = { λ _ e. e ≡ Memory };

    fn from(_error: AllocError) -> CloseError {
        CloseError::Memory
    }
}

impl<T: Drop> From<AllocFailed<T>> for CloseError {
    ghost use Rattle.wp_cert.specs.declared.errors.CloseError.TheVariants.{Memory};

    ghost from_gives = { λ _ e. e ≡ Memory };

    fn from(_error: AllocFailed<T>) -> CloseError {
        CloseError::Memory
    }
}
