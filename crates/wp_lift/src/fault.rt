//! Faults of names, and numbers of what fits into memory.

ghost use Rattle.std.specs.Prelude.{◌≡◌, ◌++◌, ◌∷◌, [], IfOk, OnOk};
ghost use Rattle.wp_lift.specs.declared.fault.Fault.{Fault};

use std::alloc::AllocError;
use wp_syntax::{Part, PddlError, PddlKind};

/// A fault with the text in which it stands, and its place there.
#[derive(Debug, Drop)]
pub struct Fault {
    pub part: Part,
    pub kind: PddlKind,
    pub at: u64,
}

impl From<Fault> for PddlError {
    ghost use Rattle.wp_syntax.specs.declared.error.PddlError.TheVariants.{Bad};

    ghost from_gives = { λ fault e. e ≡ Bad fault.part fault.kind fault.at };

    fn from(fault: Fault) -> PddlError {
        let Fault { part, kind, at } = fault;
        PddlError::Bad { part, kind, at }
    }
}

/// The fault of a kind at a place of a part.
pub fn wrong(part: Part, kind: PddlKind, at: u64) -> Fault
    ensures { result ≡ (let fault : Fault = record { part = part; kind = kind; at = at } in fault) }
{
    Fault { part, kind, at }
}

/// The same as the answer to a call.
pub fn bad(part: Part, kind: PddlKind, at: u64) -> PddlError
    ensures { result ≡ PddlError.Bad part kind at }
{
    PddlError::Bad { part, kind, at }
}

/// A place or a count. More than 32 bits are want of memory.
pub fn narrow(number: usize) -> Result<u32, AllocError>
    ensures { IfOk result (λ same. same ≡ number) }
{
    match u32::try_from(number) {
        Ok(number) => Ok(number),
        Err(_) => Err(AllocError),
    }
}

/// Puts an item at the end.
pub fn push<T: Drop>(items: &mut Vec<T>, item: T) -> Result<(), AllocError>
    ensures { OnOk result (items.new.items ≡ items.old.items ++ item ∷ []) }
{
    items.push(item)?;
    Ok(())
}
