//! The children of a root, as jobs make and share them.

use std::alloc::{AllocError, Global};
use std::test::Fail;
use wp_count::{Brood, brood_of, root_of};
use wp_fixtures::chain;
use wp_succ::Plain;
use wp_task::Task;

// Broods are made by jobs and given back by them.
fn send<T: Send>(_: &T) {}

/// The children of the root.
fn root_brood(alloc: Global, task: &Task) -> Result<Brood, AllocError> {
    let (state, mark, track) = root_of(alloc, task)?;
    brood_of(alloc, task, &Plain::of(task), 7, &state, &mark, &track)
}

#[test]
fn a_job_makes_the_children_of_the_root(rt: HostRuntime) -> Result<(), Fail> {
    let alloc = rt.alloc();
    let task = chain(alloc)?;
    let (_, mark, track) = root_of(alloc, &task)?;
    assert_eq!(rt; mark.copy(alloc)?.g, 1);
    assert_eq!(rt; track.copy(alloc)?.atoms().as_slice(), [1, 2].as_slice());
    let brood = root_brood(alloc, &task)?;
    send(&brood);
    assert_eq!(rt; brood.number(), 7);
    let children = brood.into_children();
    assert_eq!(rt; children.as_slice().len(), 1);
    for child in children.as_slice() {
        assert!(rt; child.act == 0 && child.g == 1 && child.r == 1 && child.fresh.is_none());
    }
    Ok(())
}
