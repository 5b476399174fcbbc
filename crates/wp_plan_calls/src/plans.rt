//! Plans that are trimmed.
use std::alloc::{AllocError, Global};
use std::test::Fail;
use wp_fixtures::{chain, trap};
use wp_ladder::trim;
use wp_task::{Atoms, Task};

/// What is left of the actions where they are a plan.
fn trimmed(alloc: Global, task: &Task, actions: &[u32]) -> Result<Option<Vec<u32>>, AllocError> {
    let plan = Atoms::of_vec(Vec::from_slice(alloc, actions)?);
    if !task.plan_ok(alloc, &plan)? {
        return Ok(None);
    }
    let left = trim(alloc, task, &plan)?;
    Ok(Some(left.into_vec()))
}

/// Fails unless so much is left of the actions.
fn check_trimmed(
    alloc: Global,
    task: &Task,
    actions: &[u32],
    wanted: Option<&[u32]>,
) -> Result<(), Fail> {
    let left = trimmed(alloc, task, actions)?;
    match (&left, wanted) {
        (None, None) => Ok(()),
        (Some(left), Some(wanted)) if left.as_slice() == wanted => Ok(()),
        _ => Err(Fail::new("another plan is left")),
    }
}

#[test]
fn a_plan_loses_what_it_does_not_need(rt: HostRuntime) -> Result<(), Fail> {
    let alloc = rt.alloc();
    let task = chain(alloc)?;
    check_trimmed(alloc, &task, &[0, 0, 1], Some(&[0, 1]))?;
    check_trimmed(alloc, &task, &[0, 1], Some(&[0, 1]))?;
    check_trimmed(alloc, &task, &[0], None)?;
    let task = trap(alloc)?;
    check_trimmed(alloc, &task, &[0, 2, 3, 4, 5], Some(&[2, 3, 4, 5]))
}
