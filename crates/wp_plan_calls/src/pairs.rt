//! Possible pairs of small numbers, and their places.

use std::test::Fail;
use wp_fixtures::chain;
use wp_mutex::{PairIndex, Possible};
use wp_tuples::Places;

#[test]
fn the_ends_of_the_chain_have_no_place_together(rt: HostRuntime) -> Result<(), Fail> {
    let alloc = rt.alloc();
    let task = chain(alloc)?;
    let possible = match Possible::of(alloc, &task) {
        Ok(possible) => possible,
        Err(_) => return Err(Fail::new("no possible pairs")),
    };
    assert_eq!(rt; possible.atoms(), 3);
    assert!(rt; possible.pair(0, 1));
    assert!(rt; possible.pair(1, 2));
    assert!(rt; !possible.pair(0, 2));
    let index = PairIndex::new(alloc, possible)?;
    assert_eq!(rt; index.len(), 5);
    assert_eq!(rt; index.atom_place(2), 2);
    assert_eq!(rt; index.pair_place(0, 1), 3);
    assert_eq!(rt; index.pair_place(1, 2), 4);
    Ok(())
}
