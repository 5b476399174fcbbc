//! A search over an index that leaves out two atoms which no state has together, beside one over the index of all tuples.
ghost use Rattle.std.specs.Prelude.{◌≡◌, ◌≤◌, [], All, IfOk};
ghost use Rattle.wp_task.specs.Task.{IsReachable};
ghost use Rattle.wp_novel.specs.MarkedTuples.{AreCounted};
ghost use Rattle.wp_search_calls.specs.Shuttle.{shuttle};

use crate::searches::compare;
use std::alloc::Global;
use std::process::Abort;
use std::test::Fail;
use std::thread::Threads;
use wp_commit::search_over;
use wp_edge::{OpenGate, Texts};
use wp_fixtures::{Row, act_of, task_of};
use wp_novel::Tables;
use wp_plain::{Ending, How, Search, Settings};
use wp_task::{Acts, Task};
use wp_tuples::{Places, TupleIndex};
use wp_watch::{Trace, Watch, Watchers};

/// The single ones of three atoms, and the pairs that have the first.
#[derive(Drop)]
struct WithoutBoth;

impl Places for WithoutBoth {
    ghost use Rattle.wp_search_calls.specs.Shuttle.{without_both};

    ghost places = { λ _. without_both };

    fn width(&self) -> u8 {
        2
    }

    fn len(&self) -> u64 {
        5
    }

    fn atom_place(&self, p: u32) -> u64 {
        u64::from(p)
    }

    fn pair_place(&self, _p: u32, q: u32) -> u64 {
        u64::from(q) + 2
    }
}

/// One thing goes between two places, the atoms 1 and 2; atom 0 is always true.
fn shuttle_of(alloc: Global) -> Result<Task, Fail>
    ensures { IfOk result (λ task. task ≡ shuttle) }
{
    let go = act_of(
        alloc,
        3,
        &Row {
            pre: &[1],
            add: &[2],
            del: &[1],
        },
    )?;
    let back = act_of(
        alloc,
        3,
        &Row {
            pre: &[2],
            add: &[1],
            del: &[2],
        },
    )?;
    let mut acts = Vec::new(alloc);
    acts.push(go)?;
    acts.push(back)?;
    let task = task_of(alloc, 3, &[0, 1], &[2], Acts::of_vec(acts))?;
    Ok(task)
}

/// The ending of the search of the shuttle over the index, where there may be so many words, and what its watchers say.
fn search_the_shuttle<R: Threads + Sync, P: Places + Drop>(
    rt: &R,
    alloc: Global,
    index: P,
    words: u64,
    list: Vec<Box<dyn Watch>>,
) -> Result<(Ending, Texts), Fail>
    requires atoms { (P.places index).atoms ≡ 3 }
    requires width { (P.places index).width ≡ 2 }
    requires counted { (state : _) → IsReachable shuttle state → AreCounted (P.places index) state }
    requires words { (1 ≤ words) × (words ≤ 536870912) }
    requires untold { All (λ watch. told watch ≡ []) list.items }
{
    let task = shuttle_of(alloc)?;
    let settings = Settings {
        search: Search::F5,
        width: 2,
        budget: 100,
        words,
        workers: 2,
        ahead: 1,
    };
    let mut tables = Tables::new(alloc, index, words);
    let mut watchers = Watchers::new(alloc, list)?;
    let ending = search_over(
        rt,
        alloc,
        &task,
        &mut tables,
        &settings,
        &OpenGate,
        &mut watchers,
    )?;
    Ok((ending, watchers.texts(alloc)?))
}

/// Fails unless going is found, and this is told.
fn compare_found<R: Abort>(rt: &R, ending: &Ending, texts: &Texts) {
    match &ending.how {
        How::Found { plan } => assert_eq!(rt; plan.as_slice(), [0].as_slice()),
        _ => assert!(rt; false),
    }
    assert!(rt;
        ending.counts.expanded == 1 && ending.counts.numbered == 2 && ending.counts.pairs == 2
    );
    compare(
        rt,
        texts,
        &["; expand 0 w 1 g 1 r 0 repeats 0\n; born 1 act 0 w 1 g 0 r 0 kept\n"],
    );
}

/// A watcher that tells each expansion.
fn traced(alloc: Global) -> Result<Vec<Box<dyn Watch>>, Fail>
    ensures { IfOk result (λ list. All (λ watch. told watch ≡ []) list.items) }
{
    let mut list: Vec<Box<dyn Watch>> = Vec::new(alloc);
    list.push(Box::new(alloc, Trace::new(alloc, None))?)?;
    Ok(list)
}

#[test]
fn a_pair_that_no_state_has_may_be_left_out(rt: HostRuntime) -> Result<(), Fail> {
    let alloc = rt.alloc();
    let (all, texts) = search_the_shuttle(&rt, alloc, TupleIndex::new(3, 2), 12, traced(alloc)?)?;
    compare_found(&rt, &all, &texts);
    let (fewer, texts) = search_the_shuttle(&rt, alloc, WithoutBoth, 12, traced(alloc)?)?;
    compare_found(&rt, &fewer, &texts);
    Ok(())
}

#[test]
fn fewer_tuples_want_fewer_words(rt: HostRuntime) -> Result<(), Fail> {
    let alloc = rt.alloc();
    let (all, _) = search_the_shuttle(&rt, alloc, TupleIndex::new(3, 2), 10, traced(alloc)?)?;
    assert!(rt; matches!(&all.how, How::Words { pairs: 2 }));
    let (fewer, texts) = search_the_shuttle(&rt, alloc, WithoutBoth, 10, traced(alloc)?)?;
    compare_found(&rt, &fewer, &texts);
    Ok(())
}
