//! Tasks of small numbers, with their plans, relaxed plans and costs: each call that takes memory answers.
ghost use Rattle.std.specs.Prelude.{◌≤◌, IfOk};
ghost use Rattle.wp_task.specs.Task.{IsAct};

use std::alloc::{AllocError, Global};
use std::test::Fail;
use wp_fixtures::{Row, act_of, task_of, trap};
use wp_relax::{Costs, relaxed_atoms, relaxed_plan};
use wp_task::{Act, Acts, Atoms, Task};

/// The action of a level: it needs both atoms of the level below, and adds both of its own.
fn level(alloc: Global, size: u32, i: u32) -> Result<Act, Fail>
    requires { i ≤ 100 }
    ensures { IfOk result (λ act. IsAct size act) }
{
    let below = [(2 * i).saturating_sub(2), (2 * i).saturating_sub(1)];
    let pre = if i == 0 {
        [].as_slice()
    } else {
        below.as_slice()
    };
    act_of(
        alloc,
        size,
        &Row {
            pre,
            add: &[2 * i, 2 * i + 1],
            del: &[],
        },
    )
}

/// Levels above one another; the goal is one atom of the last. The cost of an atom of level i, from 1, is 2 ^ i - 1.
fn levels(alloc: Global, n: u32) -> Result<Task, Fail>
    requires least { 1 ≤ n }
    requires most { n ≤ 100 }
{
    let mut acts = Vec::new(alloc);
    for i in 0..n {
        let act = level(alloc, 2 * n, i)?;
        acts.push(act)?;
    }
    task_of(alloc, 2 * n, &[], &[2 * n - 2], Acts::of_vec(acts))
}

/// How many actions the relaxed plan at the opening state has, if there is one, and how many atoms its track has.
fn relaxed_sizes(alloc: Global, task: &Task) -> Result<(Option<usize>, usize), AllocError> {
    let track = relaxed_atoms(alloc, task, task.init())?;
    let atoms = track.atoms().as_slice().len();
    match relaxed_plan(alloc, task, task.init())? {
        Some(plan) => Ok((Some(plan.as_slice().len()), atoms)),
        None => Ok((None, atoms)),
    }
}

/// The cost of an atom at the opening state, and whether it has a supporter.
fn cost_of(alloc: Global, task: &Task, p: u32) -> Result<(Option<u64>, bool), Fail> {
    if p >= task.atoms() {
        return Err(Fail::new("no such atom"));
    }
    let costs = Costs::of(alloc, task, task.init())?;
    Ok((costs.cost(p), costs.supporter(p).is_some()))
}

#[test]
fn the_long_way_leads_through_the_trap(rt: HostRuntime) -> Result<(), Fail> {
    let alloc = rt.alloc();
    let task = trap(alloc)?;
    for (plan, valid) in [
        ([2, 3, 4, 5].as_slice(), true),
        ([0, 1].as_slice(), false),
        ([2, 3, 4].as_slice(), false),
    ] {
        let plan = Atoms::of_vec(Vec::from_slice(alloc, plan)?);
        let answer = task.plan_ok(alloc, &plan)?;
        assert_eq!(rt; answer, valid);
    }
    // The relaxed plan is the short way.
    assert!(rt; relaxed_sizes(alloc, &task)? == (Some(2), 2));
    Ok(())
}

#[test]
fn costs_are_finite_below_two_to_the_sixtieth(rt: HostRuntime) -> Result<(), Fail> {
    let alloc = rt.alloc();
    assert!(rt; relaxed_sizes(alloc, &levels(alloc, 60)?)? == (Some(60), 120));
    let task = levels(alloc, 61)?;
    assert!(rt; relaxed_sizes(alloc, &task)? == (None, 0));
    for (atom, cost) in [
        (0, Some(1)),
        (2, Some(3)),
        (19, Some(1023)),
        (118, Some(1152921504606846975)),
        (120, None),
    ] {
        let (found, supported) = cost_of(alloc, &task, atom)?;
        assert!(rt; found == cost && supported == cost.is_some());
    }
    Ok(())
}
