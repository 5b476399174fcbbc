//! The reachable states, breadth first.
ghost use Rattle.std.specs.Prelude.{◌≡◌, ◌<◌, ◌≤◌, ◌∷◌, [], ℕ, fold, length, map, slice_index_or, IfOk, OnOk, IsTrue, All};
ghost use Rattle.wp_task.specs.Set.{atoms_in, AreAtoms};
ghost use Rattle.wp_task.specs.Task.{act_at, result_of};
ghost use Rattle.wp_cert.specs.Closing.{closed_cert, widened, with_state, GivesClosed};

use crate::errors::CloseError;
use crate::states::{Cert, push_state};
use indexmap::IndexSet;
use std::alloc::{AllocError, Global};
use wp_succ::{Successors, Tree};
use wp_task::{Atoms, State, Task};

/// The certificate of the reachable states, breadth first, each where it came first, unless there are more than the limit.
pub fn close(alloc: Global, task: &Task, limit: u64) -> Result<Cert, CloseError>
    requires { limit ≤ 100000000 }
    ensures { GivesClosed result (closed_cert task.now limit) }
{
    let tree = Tree::of(alloc, task)?;
    let mut found = opening(alloc, task)?;
    let mut place = 0;
    while found.len() as u64 <= limit {
        if place >= found.len() {
            let cert = listed(alloc, task.atoms(), &found)?;
            return Ok(cert);
        }
        widen(alloc, task, &tree, &mut found, place)?;
        place += 1;
    }
    Err(CloseError::Limit)
}

/// The opening state alone.
fn opening(alloc: Global, task: &Task) -> Result<IndexSet<State>, AllocError>
    ensures keys { IfOk result (λ found. found.keys ≡ task.now.init ∷ []) }
    ensures size { IfOk result (λ found. length task.now.init ≡ task.now.atoms) }
{
    let mut found = IndexSet::new(alloc);
    put_state(&mut found, task.init().copy(alloc)?)?;
    Ok(found)
}

/// Puts in a state that is not there.
fn put_state(found: &mut IndexSet<State>, state: State) -> Result<(), AllocError>
    ensures { OnOk result (found.new.keys ≡ with_state found.old.keys state) }
{
    found.insert(state)?;
    Ok(())
}

/// Puts in the states that the actions lead to from the one at a place.
fn widen(
    alloc: Global,
    task: &Task,
    tree: &Tree,
    found: &mut IndexSet<State>,
    place: usize,
) -> Result<(), AllocError>
    requires serves { IsTrue (⟦<Tree as Successors>⟧.serves tree.now task.now) }
    requires place { place < length found.old.keys }
    requires sizes { All (λ s. length s ≡ task.now.atoms) found.old.keys }
    ensures value { OnOk result (found.new.keys ≡ widened task.now.acts found.old.keys place) }
    ensures sizes { OnOk result (All (λ s. length s ≡ task.now.atoms) found.new.keys) }
{
    let state = state_at(alloc, task, found, place)?;
    let acts = tree.list(alloc, task, &state)?;
    put_results(alloc, task, found, &state, acts.as_slice())?;
    Ok(())
}

/// The state at a place.
fn state_at(
    alloc: Global,
    task: &Task,
    found: &IndexSet<State>,
    place: usize,
) -> Result<State, AllocError>
    requires place { place < length found.now.keys }
    requires sizes { All (λ s. length s ≡ task.now.atoms) found.now.keys }
    ensures value { IfOk result (λ state. state ≡ slice_index_or found.now.keys place []) }
    ensures size { IfOk result (λ state. length state ≡ task.now.atoms) }
{
    let _ = task;
    let state = found.as_slice()[place].copy(alloc)?;
    Ok(state)
}

/// Puts in the states that these actions lead to.
fn put_results(
    alloc: Global,
    task: &Task,
    found: &mut IndexSet<State>,
    state: &State,
    acts: &[u32],
) -> Result<(), AllocError>
    requires size { length state.now ≡ task.now.atoms }
    requires numbers { All (λ a. a < length task.now.acts) acts.now }
    ensures { OnOk result (found.new.keys ≡ fold with_state found.old.keys
        (map (λ (a : ℕ). result_of (act_at task.now.acts a) state.now) acts.now)) }
{
    for a in acts {
        let next = task.apply(alloc, state, *a)?;
        put_state(found, next)?;
    }
    Ok(())
}

/// The states by their atoms, of so many.
fn listed(alloc: Global, atoms: u32, found: &IndexSet<State>) -> Result<Cert, AllocError>
    requires atoms { atoms ≤ 65536 }
    requires few { length found.now.keys ≤ 100000000 }
    requires sizes { All (λ s. length s ≡ atoms) found.now.keys }
    ensures { IfOk result (λ cert. cert ≡ map atoms_in found.now.keys) }
{
    let states = all_listed(alloc, atoms, found.as_slice())?;
    Ok(Cert::of_vec(states))
}

fn all_listed(alloc: Global, atoms: u32, sets: &[State]) -> Result<Vec<Atoms>, AllocError>
    requires atoms { atoms ≤ 65536 }
    requires sizes { All (λ s. length s ≡ atoms) sets.now }
    ensures value { IfOk result (λ states. states.items ≡ map atoms_in sets.now) }
    ensures fits { IfOk result (λ states. All (AreAtoms 65536) states.items) }
{
    let mut states = Vec::with_capacity(alloc, sets.len())?;
    for place in 0..sets.len() {
        let listed = listed_at(alloc, atoms, sets, place)?;
        push_state(&mut states, listed)?;
    }
    Ok(states)
}

/// The atoms of the state at a place.
fn listed_at(alloc: Global, atoms: u32, sets: &[State], place: usize) -> Result<Atoms, AllocError>
    requires atoms { atoms ≤ 65536 }
    requires place { place < length sets.now }
    requires sizes { All (λ s. length s ≡ atoms) sets.now }
    ensures value { IfOk result (λ listed. listed ≡ atoms_in (slice_index_or sets.now place [])) }
    ensures fits { IfOk result (AreAtoms 65536) }
{
    let _ = atoms;
    let listed = atoms_of(alloc, &sets[place])?;
    Ok(listed)
}

/// The atoms of a state, in order.
fn atoms_of(alloc: Global, state: &State) -> Result<Atoms, AllocError>
    requires { length state.now ≤ 65536 }
    ensures value { IfOk result (λ atoms. atoms ≡ atoms_in state.now) }
    ensures fits { IfOk result (AreAtoms 65536) }
{
    let mut atoms = Vec::new(alloc);
    let mut from = 0;
    while let Some(p) = state.next(from) {
        atoms.push(p)?;
        from = p + 1;
    }
    Ok(Atoms::of_vec(atoms))
}
