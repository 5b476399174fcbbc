//! States of each size, and the actions that apply in a state.
ghost use Rattle.std.specs.Prelude.{◌≡◌, length};

use std::alloc::{AllocError, Global};
use std::test::Fail;
use wp_fixtures::{Row, acts_of, state_of, task_of, trap};
use wp_succ::{Plain, Successors, Tree};
use wp_task::{Atoms, State, Task};

/// The actions that apply in a state, by the generator that tries each and by the tree.
fn applicable(alloc: Global, task: &Task, state: &State) -> Result<(Atoms, Atoms), AllocError>
    requires { length state.now ≡ task.now.atoms }
{
    let tried = Plain::of(task).list(alloc, task, state)?;
    let tree = Tree::of(alloc, task)?;
    let reached = tree.list(alloc, task, state)?;
    Ok((tried, reached))
}

#[test]
fn the_actions_of_the_trap_that_apply_are_listed(rt: HostRuntime) -> Result<(), Fail> {
    let alloc = rt.alloc();
    let task = trap(alloc)?;
    for (atoms, acts) in [
        ([0].as_slice(), [0, 2, 3, 4].as_slice()),
        ([1, 3, 4, 5].as_slice(), [2, 3, 4, 5].as_slice()),
    ] {
        let state = state_of(alloc, task.atoms(), atoms)?;
        let (tried, reached) = applicable(alloc, &task, &state)?;
        assert_eq!(rt; tried.as_slice(), acts);
        assert_eq!(rt; reached.as_slice(), acts);
    }
    Ok(())
}

/// A task with one action, which needs each atom; each is a goal, and at the start the last is not true.
fn last_missing(alloc: Global, size: u32) -> Result<Task, Fail> {
    let mut all = Vec::new(alloc);
    for p in 0..size {
        all.push(p)?;
    }
    let rows = [Row {
        pre: all.as_slice(),
        add: &[],
        del: &[],
    }];
    let acts = acts_of(alloc, size, &rows)?;
    let most = &all[..all.len().saturating_sub(1)];
    task_of(alloc, size, most, all.as_slice(), acts)
}

#[test]
fn states_of_each_size_are_compared(rt: HostRuntime) -> Result<(), Fail> {
    let alloc = rt.alloc();
    for size in [0, 63, 64, 65, 300, 1000] {
        let task = last_missing(alloc, size)?;
        let full = state_of(alloc, size, task.goals().as_slice())?;
        let same = full == *task.init();
        let unmet = (task.unmet_goals(&full), task.unmet_goals(task.init()));
        assert!(rt; same == (size == 0) && unmet == (0, size.min(1)));
        assert!(rt; task.act_count() == 1);
        let applies = (task.applies(&full, 0), task.applies(task.init(), 0));
        assert!(rt; applies == (true, size == 0));
    }
    Ok(())
}
