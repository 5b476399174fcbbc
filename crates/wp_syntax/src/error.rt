//! The faults of a text that is a tree but no PDDL, or whose names mean nothing.

ghost use Rattle.std.specs.Prelude.{◌≡◌, IfOk};
ghost use Rattle.wp_syntax.specs.declared.error.Fault.{Fault};

use std::alloc::{AllocError, AllocFailed, Global};
use thiserror::Error;
use wp_edge::Text;

/// The file in which a fault stands.
#[derive(Clone, Copy, Debug, PartialEq, Eq)]
pub enum Part {
    Domain,
    Problem,
    Plan,
    Certificate,
}

/// What is wrong. Readers answer the first four and `TooMany`, by way of `ReadKind`; the others are faults of names.
#[derive(Debug, Drop)]
pub enum PddlKind {
    /// The grammar has no such item there, or an item is missing from the list.
    Shape,

    /// A construct of PDDL that this planner does not have, at the word that names it. The word is in lower case.
    Unsupported { word: Text },

    /// A predicate is declared by a word of the language.
    Reserved,

    /// The second of what may stand once.
    Duplicate,

    UnknownType,

    UnknownPredicate,

    UnknownObject,

    UnknownVariable,

    /// An atom has more or fewer terms than its predicate has parameters.
    Arity,

    /// The first item that passes a limit.
    TooMany { limit: u32 },
}

/// Why a text is refused. The place is a byte offset from 0 in the text of the part.
#[derive(Debug, Drop, Error)]
pub enum PddlError {
    #[error("{kind:?} at {at} of the {part:?}")]
    Bad { part: Part, kind: PddlKind, at: u64 },

    /// Want of memory; it says nothing of the text.
    #[error("out of memory")]
    Memory,
}

impl From<AllocError> for PddlError {
    ghost use Rattle.wp_syntax.specs.declared.error.PddlError.TheVariants.{Memory};

    ghost from_gives = { λ _ e. e ≡ Memory };

    fn from(_error: AllocError) -> PddlError {
        PddlError::Memory
    }
}

/// What can be wrong with a tree, in the order in which it is told at one place.
#[derive(Debug, Drop)]
pub enum ReadKind {
    Shape,
    Unsupported { word: Text },
    Reserved,
    Duplicate,
    TooMany { limit: u32 },
}

/// A fault of a tree, before it is said in which part.
#[derive(Debug, Drop)]
pub struct Fault {
    pub kind: ReadKind,
    pub at: u64,
}

/// What ends a reading that takes memory.
#[derive(Debug, Drop)]
pub enum ReadError {
    Bad { fault: Fault },
    Memory,
}

impl From<Fault> for ReadError {
    ghost use Rattle.wp_syntax.specs.declared.error.ReadError.TheVariants.{Bad};

    ghost from_gives = { λ fault e. e ≡ Bad fault };

    fn from(fault: Fault) -> ReadError {
        ReadError::Bad { fault }
    }
}

impl From<AllocError> for ReadError {
    ghost use Rattle.wp_syntax.specs.declared.error.ReadError.TheVariants.{Memory};

    ghost from_gives = { λ _ e. e ≡ Memory };

    fn from(_error: AllocError) -> ReadError {
        ReadError::Memory
    }
}

impl<T: Drop> From<AllocFailed<T>> for ReadError {
    ghost use Rattle.wp_syntax.specs.declared.error.ReadError.TheVariants.{Memory};

    ghost from_gives = { λ _ e. e ≡ Memory };

    fn from(_error: AllocFailed<T>) -> ReadError {
        ReadError::Memory
    }
}

/// The fault of a kind at a place.
pub fn wrong(kind: ReadKind, at: u64) -> Fault
    ensures { result ≡ (let fault : Fault = record { kind = kind; at = at } in fault) }
{
    Fault { kind, at }
}

/// The fault of a kind at a place, as what ends a reading.
pub fn bad(kind: ReadKind, at: u64) -> ReadError
    ensures { result ≡ ReadError.Bad (record { kind = kind; at = at }) }
{
    ReadError::Bad {
        fault: wrong(kind, at),
    }
}

pub fn shape(at: u64) -> ReadError
    ensures { result ≡ ReadError.Bad (record { kind = ReadKind.Shape; at = at }) }
{
    bad(ReadKind::Shape, at)
}

pub fn unsupported(alloc: Global, word: &Text, at: u64) -> Result<ReadError, AllocError>
    ensures { IfOk result (λ error. error ≡ ReadError.Bad (record { kind = ReadKind.Unsupported word.now; at = at })) }
{
    let word = word.copy(alloc)?;
    Ok(bad(ReadKind::Unsupported { word }, at))
}
