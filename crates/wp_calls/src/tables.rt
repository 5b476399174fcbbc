//! Novelty tables, with ample memory.

use std::test::Fail;
use wp_novel::{Pair, PairError, Tables};
use wp_tuples::TupleIndex;

#[test]
fn a_pair_whose_words_are_above_the_limit_is_refused(rt: HostRuntime) -> Result<(), Fail> {
    let alloc = rt.alloc();
    let mut tables = Tables::new(alloc, TupleIndex::new(3, 1), 5);
    let first = Pair { g: 1, r: 0 };
    let second = Pair { g: 1, r: 1 };
    assert_eq!(rt; tables.pairs(), 0);
    assert!(rt; tables.open_pair(first).is_ok());
    assert!(rt; tables.has(first));
    assert!(rt; !tables.has(second));
    match tables.open_pair(second) {
        Err(PairError::Words { need }) => assert_eq!(rt; need, 6),
        _ => assert!(rt; false),
    }
    assert!(rt; !tables.has(second));
    assert_eq!(rt; tables.pairs(), 1);
    Ok(())
}
