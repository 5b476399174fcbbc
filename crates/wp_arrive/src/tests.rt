//! Worked cases.
use crate::arrivals::Arrivals;
use std::test::Fail;
use std::thread::join_mut;

// Both types may be lent to other threads: without the marker traits of a pass this does not check.
fn lend<T: Send + Sync>(_: &T) {}

#[test]
fn the_least_of_two_passes_came_first(rt: HostRuntime) -> Result<(), Fail> {
    let (arrivals, mut pass) = Arrivals::new(rt.alloc(), 2)?;
    lend(&arrivals);
    lend(&pass);
    let mut other = arrivals.split(&mut pass);
    arrivals.mark(&mut pass, 0, 5);
    arrivals.mark(&mut other, 0, 3);
    arrivals.join(&mut pass, other);
    assert!(rt; arrivals.look(&mut pass, 0) == 3);
    assert!(rt; arrivals.look(&mut pass, 1) == 18446744073709551615);
    Ok(())
}

#[test]
fn two_threads_mark_the_same_words(rt: HostRuntime) -> Result<(), Fail> {
    let (arrivals, mut pass) = Arrivals::new(rt.alloc(), 2)?;
    let mut other = arrivals.split(&mut pass);
    join_mut(
        &rt,
        &mut || arrivals.mark(&mut pass, 0, 7),
        &mut || arrivals.mark(&mut other, 0, 4),
    );
    arrivals.join(&mut pass, other);
    assert!(rt; arrivals.look(&mut pass, 0) == 4 && arrivals.look(&mut pass, 1) == u64::MAX);
    Ok(())
}
