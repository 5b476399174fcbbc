//! Tests of lists of atoms in a state: looked up where they are few, and in whole words where they are many.
//!
//! A set of atoms has a bit for each atom of the task, so it is kept only where its words are at most half as many as the
//! listed atoms. So sets take no more room than the lists, however many atoms and actions there are.
ghost use Rattle.std.specs.Prelude.{◌≡◌, not, count_by, IfOk};
ghost use Rattle.std.specs.List.{list_all};
ghost use Rattle.wp_task.specs.Set.{has, AreAtoms};
ghost use Rattle.wp_task.specs.Many.{IsSetOf};

use crate::atoms::Atoms;
use crate::state::State;
use std::alloc::{AllocError, Global};

/// The set of the listed atoms, where they are many for its words.
pub(crate) fn set_of_many(
    alloc: Global,
    atoms: &Atoms,
    size: u32,
) -> Result<Option<Box<State>>, AllocError>
    requires { AreAtoms size atoms.now }
    ensures { IfOk result (λ set. IsSetOf set atoms.now) }
{
    let count = atoms.as_slice().len();
    if count < 16 || count < (size / 32) as usize {
        return Ok(None);
    }
    let state = State::of(alloc, atoms, size)?;
    let set = Box::new(alloc, state)?;
    Ok(Some(set))
}

/// Whether all the atoms are in the state.
pub(crate) fn has_all(s: &State, atoms: &[u32], set: &Option<Box<State>>) -> bool
    requires { IsSetOf set.now atoms.now }
    ensures { result ≡ list_all (has s.now) atoms.now }
{
    if let Some(set) = set {
        let set: &State = set;
        if set.size() == s.size() {
            return s.has_all(set);
        }
    }
    atoms.iter().all(|p| s.has(*p))
}

/// How many of the atoms are not in the state.
pub(crate) fn count_missing(s: &State, atoms: &[u32], set: &Option<Box<State>>) -> usize
    requires { IsSetOf set.now atoms.now }
    ensures { result ≡ count_by (λ p. not (has s.now p)) atoms.now }
{
    if let Some(set) = set {
        let set: &State = set;
        if set.size() == s.size() {
            return s.count_missing(set) as usize;
        }
    }
    atoms.iter().filter(|p| !s.has(**p)).count()
}
