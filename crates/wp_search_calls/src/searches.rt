//! A search over tables of the caller, with a watcher that wants one expansion and one that says nothing.
ghost use Rattle.std.specs.Prelude.{◌≡◌, [], All};

use std::alloc::Global;
use std::process::Abort;
use std::test::Fail;
use std::thread::Threads;
use wp_commit::search_over;
use wp_edge::{OpenGate, Texts};
use wp_fixtures::chain;
use wp_novel::Tables;
use wp_plain::{Ending, How, Search, Settings};
use wp_tuples::TupleIndex;
use wp_watch::{Silent, Trace, Watch, Watchers};

/// The ending of the search of the chain, the pairs that are open in its tables, and what the watchers say of it.
fn search_the_chain<R: Threads + Sync>(
    rt: &R,
    alloc: Global,
    list: Vec<Box<dyn Watch>>,
) -> Result<(Ending, u64, Texts), Fail>
    requires { All (λ watch. told watch ≡ []) list.items }
{
    let task = chain(alloc)?;
    let settings = Settings {
        search: Search::KBfws,
        width: 1,
        budget: 100,
        words: 9,
        workers: 1,
        ahead: 0,
    };
    let index = TupleIndex::new(task.atoms(), 1);
    let mut tables = Tables::new(alloc, index, 9);
    let mut watchers = Watchers::new(alloc, list)?;
    let ending = search_over(
        rt,
        alloc,
        &task,
        &mut tables,
        &settings,
        &OpenGate,
        &mut watchers,
    )?;
    let texts = watchers.texts(alloc)?;
    Ok((ending, tables.pairs(), texts))
}

/// Fails unless the texts are these.
pub(crate) fn compare<R: Abort>(rt: &R, texts: &Texts, wanted: &[&str]) {
    assert!(rt; texts.as_slice().len() == wanted.len());
    for (text, want) in texts.as_slice().iter().zip(wanted) {
        assert!(rt; text.as_slice() == want.as_bytes());
    }
}

#[test]
fn a_search_leaves_its_tables_and_tells_its_watchers(rt: HostRuntime) -> Result<(), Fail> {
    let alloc = rt.alloc();
    let mut list: Vec<Box<dyn Watch>> = Vec::new(alloc);
    list.push(Box::new(alloc, Trace::new(alloc, Some(1)))?)?;
    list.push(Box::new(alloc, Silent::new(alloc, None))?)?;
    let (ending, pairs, texts) = search_the_chain(&rt, alloc, list)?;
    match &ending.how {
        How::Found { plan } => assert_eq!(rt; plan.as_slice(), [0, 1].as_slice()),
        _ => assert!(rt; false),
    }
    assert_eq!(rt; pairs, 3);
    compare(
        &rt,
        &texts,
        &[
            "; expand 0 w 1 g 1 r 0 repeats 0\n; born 1 act 0 w 1 g 1 r 1 kept\n",
            "",
        ],
    );
    Ok(())
}
