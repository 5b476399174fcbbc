//! The front of the open list, with ample memory.

use std::test::Fail;
use wp_queue::Queue;

#[test]
fn the_front_has_the_least_nodes_in_order(rt: HostRuntime) -> Result<(), Fail> {
    let alloc = rt.alloc();
    let mut queue = Queue::new(alloc);
    queue.put(2, 1, 3)?;
    queue.put(1, 2, 4)?;
    queue.put(1, 2, 1)?;
    queue.put(1, 1, 5)?;
    let front = queue.first(alloc, 3)?;
    assert_eq!(rt; front.as_slice(), [5, 1, 4].as_slice());
    assert_eq!(rt; queue.take(), Some(5));
    Ok(())
}
