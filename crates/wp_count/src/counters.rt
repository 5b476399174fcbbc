//! Counters of the root and of the children of a node.
ghost use Rattle.std.specs.Prelude.{◌≡◌, [], ◌<◌, ◌≤◌, false, map, length, replicate, IsTrue, IfOk, All, None};
ghost use Rattle.wp_task.specs.Set.{atoms_in};
ghost use Rattle.wp_task.specs.Task.{act_at, goal_counter, result_of};
ghost use Rattle.wp_relax.specs.RelaxedPlan.{relaxed_atoms_of};
ghost use Rattle.wp_relax.specs.Workspace.{room_for};
ghost use Rattle.wp_count.specs.Broods.{IsCountOn, IsMarkOf, with_achieved, base_child, child_of, brood_of, root_mark};
ghost use Rattle.wp_count.specs.Laws.{IsMarked};

use crate::brood::{Brood, Child, Children};
use std::alloc::{AllocError, Global};
use wp_relax::{Workspace, relaxed_atoms, relaxed_atoms_in};
use wp_succ::Successors;
use wp_task::{Atoms, Mark, State, Task, Track};

/// What the root is and keeps: the opening state, its mark, and R of it as track 0.
pub fn root_of(alloc: Global, task: &Task) -> Result<(State, Mark, Track), AllocError>
    ensures value { IfOk result (λ root. root ≡ (task.now.init, root_mark task.now, relaxed_atoms_of task.now.acts task.now.goals task.now.init)) }
    ensures marked { IfOk result (λ root. IsMarked task.now root.0 [] root.1 root.2) }
{
    let state = task.init().copy(alloc)?;
    let track = relaxed_atoms(alloc, task, &state)?;
    let got = no_atoms(alloc, task.atoms())?;
    let mark = Mark {
        g: task.unmet_goals(&state),
        r: 0,
        track: 0,
        got,
    };
    Ok((state, mark, track))
}

/// The children of a node, with their counters, from its state, its mark and its track.
pub fn brood_of<S: Successors>(
    alloc: Global,
    task: &Task,
    succ: &S,
    number: u64,
    state: &State,
    mark: &Mark,
    track: &Track,
) -> Result<Brood, AllocError>
    requires serves { IsTrue (S.serves succ.now task.now) }
    requires size { length state.now ≡ task.now.atoms }
    requires marked { IsMarkOf task.now state.now mark.now track.now }
    ensures value { IfOk result (λ brood. brood ≡ brood_of task.now number state.now mark.now track.now) }
    ensures few { IfOk result (λ brood. length brood.children ≤ length task.now.acts) }
{
    let acts = succ.list(alloc, task, state)?;
    let children = children_of(alloc, task, state, mark, track, &acts)?;
    Ok(Brood::of(number, children))
}

/// The children that some actions lead to.
fn children_of(
    alloc: Global,
    task: &Task,
    state: &State,
    mark: &Mark,
    track: &Track,
    acts: &Atoms,
) -> Result<Children, AllocError>
    requires size { length state.now ≡ task.now.atoms }
    requires marked { IsMarkOf task.now state.now mark.now track.now }
    requires numbers { All (λ a. a < length task.now.acts) acts.now }
    ensures { IfOk result (λ children. children ≡ map (λ a. child_of task.now mark.now track.now a (result_of (act_at task.now.acts a) state.now)) acts.now) }
{
    let mut work = Workspace::of(alloc, task)?;
    children_in(alloc, task, &mut work, state, mark, track, acts)
}

/// The same, made in a workspace that serves the task.
fn children_in(
    alloc: Global,
    task: &Task,
    work: &mut Workspace,
    state: &State,
    mark: &Mark,
    track: &Track,
    acts: &Atoms,
) -> Result<Children, AllocError>
    requires serves { work.old ≡ room_for task.now }
    requires size { length state.now ≡ task.now.atoms }
    requires marked { IsMarkOf task.now state.now mark.now track.now }
    requires numbers { All (λ a. a < length task.now.acts) acts.now }
    ensures { IfOk result (λ children. children ≡ map (λ a. child_of task.now mark.now track.now a (result_of (act_at task.now.acts a) state.now)) acts.now) }
{
    let mut children = Vec::with_capacity(alloc, acts.as_slice().len())?;
    for a in acts.as_slice() {
        let child = child_of(alloc, task, work, state, mark, track, *a)?;
        children.push(child)?;
    }
    Ok(Children::of_vec(children))
}

/// The child that an action leads to.
fn child_of(
    alloc: Global,
    task: &Task,
    work: &mut Workspace,
    state: &State,
    mark: &Mark,
    track: &Track,
    a: u32,
) -> Result<Child, AllocError>
    requires serves { work.old ≡ room_for task.now }
    requires size { length state.now ≡ task.now.atoms }
    requires marked { IsMarkOf task.now state.now mark.now track.now }
    requires number { a < length task.now.acts }
    ensures value { IfOk result (λ child. child ≡ child_of task.now mark.now track.now a (result_of (act_at task.now.acts a) state.now)) }
    ensures room { work.new ≡ work.old }
{
    let next = task.apply(alloc, state, a)?;
    evaluate(alloc, task, work, a, next, mark, track)
}

/// The child that an action leads to, which is in the state: a base where #g falls, else one that goes on with its
/// parent's atoms. The workspace is one that serves the task, and does so afterwards.
pub fn evaluate(
    alloc: Global,
    task: &Task,
    work: &mut Workspace,
    a: u32,
    state: State,
    mark: &Mark,
    track: &Track,
) -> Result<Child, AllocError>
    requires serves { work.old ≡ room_for task.now }
    requires size { length state ≡ task.now.atoms }
    requires counts { IsCountOn task.now mark.now track.now }
    ensures value { IfOk result (λ child. child ≡ child_of task.now mark.now track.now a state) }
    ensures room { work.new ≡ work.old }
{
    let g = task.unmet_goals(&state);
    if g < mark.g {
        base_child(alloc, task, work, a, state, g)
    } else {
        later_child(alloc, a, state, g, mark, track)
    }
}

/// A child with fewer unmet goals than its parent: #r starts anew on its own relaxed plan.
fn base_child(
    alloc: Global,
    task: &Task,
    work: &mut Workspace,
    a: u32,
    state: State,
    g: u32,
) -> Result<Child, AllocError>
    requires serves { work.old ≡ room_for task.now }
    requires size { length state ≡ task.now.atoms }
    requires unmet { g ≡ goal_counter task.now.goals state }
    ensures value { IfOk result (λ child. child ≡ base_child task.now a state) }
    ensures room { work.new ≡ work.old }
{
    let fresh = relaxed_atoms_in(alloc, work, task, &state)?;
    let got = no_atoms(alloc, task.atoms())?;
    Ok(Child {
        act: a,
        g,
        r: 0,
        got,
        fresh: Some(fresh),
        state,
    })
}

/// A child whose #r counts on its parent's track.
fn later_child(
    alloc: Global,
    a: u32,
    state: State,
    g: u32,
    mark: &Mark,
    track: &Track,
) -> Result<Child, AllocError>
    requires size { length state ≡ length mark.now.got }
    requires count { mark.now.r ≡ length (atoms_in mark.now.got) }
    ensures { IfOk result (λ child. child ≡ record { act = a; state = state; g = g; r = length (atoms_in (with_achieved mark.now.got track.now state)); got = with_achieved mark.now.got track.now state; fresh = None }) }
{
    let mut got = mark.got.copy(alloc)?;
    let r = got.insert_common(track.atoms(), &state, mark.r);
    Ok(Child {
        act: a,
        g,
        r,
        got,
        fresh: None,
        state,
    })
}

fn no_atoms(alloc: Global, size: u32) -> Result<State, AllocError>
    ensures { IfOk result (λ state. state ≡ replicate size false) }
{
    let state = State::of(alloc, &Atoms::of_vec(Vec::new(alloc)), size)?;
    Ok(state)
}
