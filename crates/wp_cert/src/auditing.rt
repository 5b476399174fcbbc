//! The audit of a certificate: whether its states are closed under the actions of a task.
//!
//! States are found by hash. The list of the certificate is gone over, not the set: a state that is listed twice has two
//! numbers.
ghost use Rattle.std.specs.Prelude.{[], slice_index_or, ◌≡◌, ◌<◌, length, IfOk, IfSome, IfNone, IsTrue, All};
ghost use Rattle.std.specs.List.{list_all};
ghost use Rattle.wp_task.specs.Set.{has, set_of};
ghost use Rattle.wp_cert.specs.Audits.{audit_of, audit_states, foreign_from, is_foreign, is_among, faults_from, fault_at, leaving, first_leaving, states_of, NamesAct};

use crate::answer::Audit;
use crate::states::Cert;
use indexmap::IndexSet;
use std::alloc::{AllocError, Global};
use wp_succ::{Successors, Tree};
use wp_task::{Atoms, State, Task};

/// Whether the states of a certificate are closed in the task, or where they fail first.
#[tactic(auto, using(crate::proofs::FoundLemmas::native_audit))]
pub fn audit(alloc: Global, task: &Task, cert: &Cert) -> Result<Audit, AllocError>
    ensures value { IfOk result (λ audit. audit ≡ audit_of task.now cert.now) }
    ensures act { IfOk result (NamesAct (length task.now.acts)) }
{
    let states = cert.as_slice();
    match first_foreign(task, states) {
        Some(state) => Ok(Audit::Foreign { state }),
        None => audit_native(alloc, task, states),
    }
}

/// The same, where all numbers are atoms.
fn audit_native(alloc: Global, task: &Task, states: &[Atoms]) -> Result<Audit, AllocError>
    requires { All (All (λ p. p < task.now.atoms)) states.now }
    ensures value { IfOk result (λ audit. audit ≡ audit_states task.now (states_of task.now.atoms states.now)) }
    ensures act { IfOk result (NamesAct (length task.now.acts)) }
{
    let found = sets_of(alloc, task, states)?;
    if !has_start(task, &found) {
        return Ok(Audit::NoStart);
    }
    let tree = Tree::of(alloc, task)?;
    let audit = first_fault(alloc, task, &tree, states, &found)?;
    Ok(audit)
}

/// Whether the initial state is among the states.
fn has_start(task: &Task, found: &IndexSet<State>) -> bool
    ensures { result ≡ is_among found.now.keys task.now.init }
{
    found.contains(task.init())
}

/// The first state with a number that is no atom.
fn first_foreign(task: &Task, states: &[Atoms]) -> Option<u64>
    ensures value { result ≡ foreign_from task.now.atoms 0 states.now }
    ensures none { IfNone result (All (All (λ p. p < task.now.atoms)) states.now) }
{
    let atoms = task.atoms();
    for number in 0..states.len() {
        if is_foreign(&states[number], atoms) {
            return Some(number as u64);
        }
    }
    None
}

/// Whether a number is listed that is no atom.
fn is_foreign(listed: &Atoms, atoms: u32) -> bool
    ensures { result ≡ is_foreign atoms listed.now }
{
    listed.as_slice().iter().any(|p| *p >= atoms)
}

/// The states as sets of atoms, each once.
fn sets_of(alloc: Global, task: &Task, states: &[Atoms]) -> Result<IndexSet<State>, AllocError>
    requires { All (All (λ p. p < task.now.atoms)) states.now }
    ensures { IfOk result (λ found. is_among found.keys ≡ is_among (states_of task.now.atoms states.now)) }
{
    let mut found = IndexSet::new(alloc);
    for number in 0..states.len() {
        let state = set_at(alloc, task, states, number)?;
        found.insert(state)?;
    }
    Ok(found)
}

/// The state of a number as a set of atoms.
#[tactic(auto, using(crate::proofs::FoundLemmas::length_set_of))]
fn set_at(alloc: Global, task: &Task, states: &[Atoms], number: usize) -> Result<State, AllocError>
    requires number { number < length states.now }
    requires fits { All (All (λ p. p < task.now.atoms)) states.now }
    ensures value { IfOk result (λ state. state ≡ set_of (slice_index_or states.now number []) task.now.atoms) }
    ensures size { IfOk result (λ state. length state ≡ task.now.atoms) }
{
    let state = State::of(alloc, &states[number], task.atoms())?;
    Ok(state)
}

/// What fails first, of all states.
fn first_fault(
    alloc: Global,
    task: &Task,
    tree: &Tree,
    states: &[Atoms],
    found: &IndexSet<State>,
) -> Result<Audit, AllocError>
    requires serves { IsTrue (⟦<Tree as Successors>⟧.serves tree.now task.now) }
    requires fits { All (All (λ p. p < task.now.atoms)) states.now }
    ensures value { IfOk result (λ audit. audit ≡ faults_from task.now (is_among found.now.keys) 0 (states_of task.now.atoms states.now)) }
    ensures act { IfOk result (NamesAct (length task.now.acts)) }
{
    for number in 0..states.len() {
        let state = set_at(alloc, task, states, number)?;
        if let Some(fault) = fault_at(alloc, task, tree, found, number as u64, &state)? {
            return Ok(fault);
        }
    }
    Ok(Audit::Yes)
}

/// What fails at the state of a number.
fn fault_at(
    alloc: Global,
    task: &Task,
    tree: &Tree,
    found: &IndexSet<State>,
    number: u64,
    state: &State,
) -> Result<Option<Audit>, AllocError>
    requires serves { IsTrue (⟦<Tree as Successors>⟧.serves tree.now task.now) }
    requires size { length state.now ≡ task.now.atoms }
    ensures value { IfOk result (λ fault. fault ≡ fault_at task.now (is_among found.now.keys) number state.now) }
    ensures act { IfOk result (λ fault. IfSome fault (NamesAct (length task.now.acts))) }
{
    if has_goals(task, state) {
        return Ok(Some(Audit::Goal { state: number }));
    }
    match leaving(alloc, task, tree, found, state)? {
        Some(act) => Ok(Some(Audit::Open { state: number, act })),
        None => Ok(None),
    }
}

/// Whether the state has all goals.
fn has_goals(task: &Task, state: &State) -> bool
    ensures { result ≡ list_all (has state.now) task.now.goals }
{
    task.goals().as_slice().iter().all(|p| state.has(*p))
}

/// The first action that applies in the state and leads to one that was not found.
fn leaving(
    alloc: Global,
    task: &Task,
    tree: &Tree,
    found: &IndexSet<State>,
    state: &State,
) -> Result<Option<u32>, AllocError>
    requires serves { IsTrue (⟦<Tree as Successors>⟧.serves tree.now task.now) }
    requires size { length state.now ≡ task.now.atoms }
    ensures value { IfOk result (λ act. act ≡ leaving task.now.acts (is_among found.now.keys) state.now) }
    ensures act { IfOk result (λ act. IfSome act (λ a. a < length task.now.acts)) }
{
    let acts = tree.list(alloc, task, state)?;
    first_leaving(alloc, task, found, state, acts.as_slice())
}

/// The first of the actions that leads to a state that was not found.
fn first_leaving(
    alloc: Global,
    task: &Task,
    found: &IndexSet<State>,
    state: &State,
    acts: &[u32],
) -> Result<Option<u32>, AllocError>
    requires size { length state.now ≡ task.now.atoms }
    requires numbers { All (λ a. a < length task.now.acts) acts.now }
    ensures value { IfOk result (λ act. act ≡ first_leaving task.now.acts (is_among found.now.keys) state.now acts.now) }
    ensures act { IfOk result (λ act. IfSome act (λ a. a < length task.now.acts)) }
{
    for a in acts {
        let next = task.apply(alloc, state, *a)?;
        if !found.contains(&next) {
            return Ok(Some(*a));
        }
    }
    Ok(None)
}
