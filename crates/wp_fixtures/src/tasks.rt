//! Tasks of small numbers, made from lists of atoms.
ghost use Rattle.std.specs.Prelude.{◌≡◌, ℕ, true, false, length, IfOk, OnOk, All};
ghost use Rattle.wp_task.specs.Set.{lists, set_of, AreAtoms};
ghost use Rattle.wp_task.specs.Task.{IsAct};

use std::alloc::Global;
use std::test::Fail;
use wp_task::{Act, Acts, Atoms, State, Task};

/// The preconditions, add and delete effects of an action.
#[derive(Clone, Copy)]
pub struct Row<'a> {
    pub pre: &'a [u32],
    pub add: &'a [u32],
    pub del: &'a [u32],
}

/// Fails unless the atoms are below the size and rise.
fn check_atoms(size: u32, numbers: &[u32]) -> Result<(), Fail>
    ensures { OnOk result (AreAtoms size numbers.now) }
{
    for i in 0..numbers.len() {
        if numbers[i] >= size || (0 < i && numbers[i - 1] >= numbers[i]) {
            return Err(Fail::new("atoms that do not rise below the size"));
        }
    }
    Ok(())
}

/// Fails where an atom is in both lists.
fn check_apart(add: &[u32], del: &[u32]) -> Result<(), Fail>
    ensures { OnOk result ((p : ℕ) → lists add.now p ≡ true → lists del.now p ≡ false) }
{
    for p in del {
        if add.contains(p) {
            return Err(Fail::new("an atom is added and deleted"));
        }
    }
    Ok(())
}

fn atoms_of(alloc: Global, size: u32, numbers: &[u32]) -> Result<Atoms, Fail>
    ensures fits { IfOk result (λ atoms. AreAtoms size atoms) }
    ensures value { IfOk result (λ atoms. atoms ≡ numbers.now) }
{
    check_atoms(size, numbers)?;
    let items = Vec::from_slice(alloc, numbers)?;
    Ok(Atoms::of_vec(items))
}

pub fn state_of(alloc: Global, size: u32, numbers: &[u32]) -> Result<State, Fail>
    ensures size { IfOk result (λ state. length state ≡ size) }
    ensures value { IfOk result (λ state. state ≡ set_of numbers.now size) }
{
    let atoms = atoms_of(alloc, size, numbers)?;
    let state = State::of(alloc, &atoms, size)?;
    Ok(state)
}

pub fn act_of(alloc: Global, size: u32, row: &Row) -> Result<Act, Fail>
    ensures fits { IfOk result (λ act. IsAct size act) }
    ensures value { IfOk result (λ act. (act.pre ≡ row.now.pre.now) × (act.add ≡ row.now.add.now) × (act.del ≡ row.now.del.now)) }
{
    let pre = atoms_of(alloc, size, row.pre)?;
    let add = atoms_of(alloc, size, row.add)?;
    let del = atoms_of(alloc, size, row.del)?;
    check_apart(add.as_slice(), del.as_slice())?;
    Ok(Act { pre, add, del })
}

pub fn acts_of(alloc: Global, size: u32, rows: &[Row]) -> Result<Acts, Fail>
    ensures { IfOk result (λ acts. All (IsAct size) acts) }
{
    let mut acts = Vec::new(alloc);
    for row in rows {
        let act = act_of(alloc, size, row)?;
        acts.push(act)?;
    }
    Ok(Acts::of_vec(acts))
}

/// The task of these parts; fails where they do not fit together.
pub fn task_of(
    alloc: Global,
    size: u32,
    init: &[u32],
    goals: &[u32],
    acts: Acts,
) -> Result<Task, Fail>
    requires { All (IsAct size) acts }
    ensures { IfOk result (λ task. task ≡ record { atoms = size; init = set_of init.now size; goals = goals.now; acts = acts }) }
{
    if size > 65536 || acts.as_slice().len() > 1048576 {
        return Err(Fail::new("a task above its limits"));
    }
    let state = state_of(alloc, size, init)?;
    let goals = atoms_of(alloc, size, goals)?;
    let task = Task::new(alloc, size, state, goals, acts)?;
    Ok(task)
}

/// A chain: a gives b, and b gives c and takes a away.
pub fn chain(alloc: Global) -> Result<Task, Fail> {
    let rows = [
        Row {
            pre: &[0],
            add: &[1],
            del: &[],
        },
        Row {
            pre: &[1],
            add: &[2],
            del: &[0],
        },
    ];
    let acts = acts_of(alloc, 3, &rows)?;
    task_of(alloc, 3, &[0], &[2], acts)
}

/// No way out: t costs s, and z needs both.
pub fn dead_end(alloc: Global) -> Result<Task, Fail> {
    let rows = [
        Row {
            pre: &[0],
            add: &[1],
            del: &[0],
        },
        Row {
            pre: &[0, 1],
            add: &[2],
            del: &[],
        },
    ];
    let acts = acts_of(alloc, 3, &rows)?;
    task_of(alloc, 3, &[0], &[2], acts)
}

/// A trap: the cheap way to z is over t, and it spends s (atoms s t z m n o).
pub fn trap(alloc: Global) -> Result<Task, Fail> {
    let rows = [
        Row {
            pre: &[0],
            add: &[1],
            del: &[0],
        },
        Row {
            pre: &[0, 1],
            add: &[2],
            del: &[],
        },
        Row {
            pre: &[],
            add: &[3],
            del: &[],
        },
        Row {
            pre: &[],
            add: &[4],
            del: &[],
        },
        Row {
            pre: &[],
            add: &[5],
            del: &[],
        },
        Row {
            pre: &[3, 4, 5],
            add: &[2],
            del: &[],
        },
    ];
    let acts = acts_of(alloc, 6, &rows)?;
    task_of(alloc, 6, &[0], &[2], acts)
}
