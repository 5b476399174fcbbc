//! The fresh atoms of a child: those that an earlier birth with its counters lacks. Each tuple without one of them was marked by
//! that birth, or before it.
ghost use Rattle.std.specs.Prelude.{◌≡◌, [], ◌∷◌, ◌++◌, IfOk, IfSome, OnOk, if◌then◌else◌};
ghost use Rattle.wp_novel.specs.NoveltyTables.{counters_of};
ghost use Rattle.wp_commit.specs.Entering.{IsEarlier, AreBeside, AreFresh};

use crate::latest::latest_state;
use crate::searched::Searched;
use std::alloc::{AllocError, Global};
use wp_nodes::Kept;
use wp_novel::Pair;
use wp_task::{Atoms, State};

/// The fresh atoms of a child of the node `parent`, where an earlier birth has its pair.
pub(crate) fn fresh_of(
    alloc: Global,
    searched: &Searched,
    parent: &Kept,
    pair: Pair,
    state: &State,
) -> Result<Option<Atoms>, AllocError>
    ensures { IfOk result (λ fresh. IfSome fresh (AreFresh searched.now parent.now (counters_of pair) state.now)) }
{
    match earlier_state(searched, parent, pair) {
        Some(earlier) => Ok(Some(atoms_beside(alloc, state, earlier)?)),
        None => Ok(None),
    }
}

/// The state of an earlier birth of the pair.
// The parent is one action away, so its state is taken where it has the pair.
fn earlier_state<'a>(searched: &'a Searched, parent: &'a Kept, pair: Pair) -> Option<&'a State>
    ensures { IfSome result (λ state. IsEarlier searched.now parent.now (counters_of pair) state.now) }
{
    if parent.mark.g == pair.g && parent.mark.r == pair.r {
        return Some(&parent.state);
    }
    latest_state(searched, pair)
}

/// The atoms of a state that an earlier one lacks.
fn atoms_beside(alloc: Global, state: &State, earlier: &State) -> Result<Atoms, AllocError>
    ensures { IfOk result (AreBeside state.now earlier.now) }
{
    let size = state.size();
    let mut atoms = Vec::new(alloc);
    let mut from = 0;
    while let Some(p) = state.next(from) {
        push_unless(&mut atoms, earlier.has(p), p)?;
        from = p + 1;
    }
    Ok(Atoms::of_vec(atoms))
}

fn push_unless(atoms: &mut Vec<u32>, had: bool, p: u32) -> Result<(), AllocError>
    ensures { OnOk result (atoms.new.items ≡ (if had then atoms.old.items else atoms.old.items ++ p ∷ [])) }
{
    if !had {
        atoms.push(p)?;
    }
    Ok(())
}
