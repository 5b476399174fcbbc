//! The search: the driver of wp_plain over the fast store.
ghost use Rattle.std.specs.Prelude.{◌≡◌, [], ℕ, List, Option, None, IfOk, OnOk};
ghost use Rattle.wp_watch.specs.declared.watch.WatchKind.{WatchKind};
ghost use Rattle.wp_watch.specs.Places.{AreAfter, AreUntold};
ghost use Rattle.wp_novel.specs.NoveltyTables.{placed, open_pairs, IsAtHome};
ghost use Rattle.wp_plain.specs.Places.{places_in};
ghost use Rattle.wp_plain.specs.Ranges.{AreInRange};
ghost use Rattle.wp_plain.specs.Laws.{AnswersFor};
ghost use Rattle.wp_plain.specs.Pairs.{all_tuples};
ghost use Rattle.wp_plain.specs.Run.{run, ending_of};
ghost use Rattle.wp_commit.specs.Expansions.{ArePairsToOpen};
ghost use Rattle.wp_commit.specs.Lending.{CanEnter, HasEntered};
ghost use Rattle.wp_commit.specs.Searched.{IsIndexFor, LeavesTables};

use crate::births::{Numbered, enter};
use crate::evaluation::Expansion;
use crate::pairs::new_pairs;
use crate::root::opening;
use crate::run::Run;
use crate::searched::Searched;
use crate::store::Store;
use std::alloc::{AllocError, Global};
use std::marker::PhantomData;
use std::thread::Threads;
use wp_ahead::{AheadJobs, Broods};
use wp_count::Child;
use wp_edge::Gate;
use wp_novel::{Pair, Tables};
use wp_plain::{Ending, Settings, endings_answer, exceeds, root_alone, search_from};
use wp_task::Task;
use wp_tuples::{Places, TupleIndex, tuples_have_places};
use wp_watch::Watchers;

/// The search of a task, to its ending, with each expansion told. After want of memory the watchers are only good for being
/// dropped.
pub fn search<R: Threads + Sync, G: Gate>(
    rt: &R,
    alloc: Global,
    task: &Task,
    settings: &Settings,
    gate: &G,
    watchers: &mut Watchers,
) -> Result<Ending, AllocError>
    requires range { AreInRange settings.now }
    requires untold { AreUntold (places_in kind until told watchers.old) }
    ensures ending { IfOk result (λ ending. ending ≡ ending_of task.now settings.now (all_tuples task.now settings.now)) }
    ensures answers { IfOk result (AnswersFor task.now settings.now (all_tuples task.now settings.now)) }
    ensures events { OnOk result ((list : List (WatchKind × Option ℕ)) →
        AreAfter list [] (places_in kind until told watchers.old) →
        AreAfter list (run task.now settings.now (all_tuples task.now settings.now)).1.events (places_in kind until told watchers.new)) }
{
    let index = TupleIndex::new(task.atoms(), settings.width);
    let mut tables = Tables::new(alloc, index, settings.words);
    search_over(rt, alloc, task, &mut tables, settings, gate, watchers)
}

/// The same over tables of the caller, which are empty, and no job of which is out. Their index may leave out pairs of atoms that no
/// reachable state has: the same nodes are expanded then, and each pair of counters has fewer words. Where memory is refused the tables are
/// spent, as the watchers are.
pub fn search_over<R: Threads + Sync, P: Places, G: Gate>(
    rt: &R,
    alloc: Global,
    task: &Task,
    tables: &mut Tables<P>,
    settings: &Settings,
    gate: &G,
    watchers: &mut Watchers,
) -> Result<Ending, AllocError>
    requires range { AreInRange settings.now }
    requires index { IsIndexFor task.now settings.now (P.places tables.old.index) }
    requires limit { tables.old.limit ≡ settings.now.words }
    requires empty { open_pairs (placed P.places tables.old) ≡ [] }
    requires collected { tables.old.last ≡ None }
    requires home { IsAtHome (placed P.places tables.old) }
    requires untold { AreUntold (places_in kind until told watchers.old) }
    ensures ending { IfOk result (λ ending. ending ≡ ending_of task.now settings.now (P.places tables.old.index).len) }
    ensures answers { IfOk result (AnswersFor task.now settings.now (P.places tables.old.index).len) }
    ensures tables { OnOk result (LeavesTables task.now settings.now (P.places tables.old.index).len (placed P.places tables.new)) }
    ensures home { OnOk result (IsAtHome (placed P.places tables.new)) }
    ensures events { OnOk result ((list : List (WatchKind × Option ℕ)) →
        AreAfter list [] (places_in kind until told watchers.old) →
        AreAfter list (run task.now settings.now (P.places tables.old.index).len).1.events (places_in kind until told watchers.new)) }
{
    // By these laws an ending of the run answers for its task, with so many tuples as have places.
    endings_answer();
    tuples_have_places();
    // The parts of the task fit together: by this look at it that is at hand.
    let _ = task.atoms();
    let tuples = tables.len();
    if exceeds(settings.words, 1, tuples) {
        return Ok(root_alone());
    }
    let asked = wp_plain::Run::of(alloc, task, *settings, tuples);
    let own = Run::of(alloc, task, *settings, tuples)?;
    let searched = opening(rt, &own, gate, tables)?;
    // What touches the tables is made here, where the bounds of the index, of the threads and of the gate are known of every thread.
    let find_pairs = |tables: &Tables<P>, children: &[Child]| -> Result<Vec<Pair>, AllocError>
        ensures { IfOk result (λ pairs. ArePairsToOpen (placed P.places tables.now) children.now pairs.items) }
    { new_pairs(alloc, tables, children) };
    let enter_all = |run: &Run, searched: &Searched, tables: &mut Tables<
        P,
    >, broods: &mut Broods, number: u64, expansion: Expansion| -> Result<
        (Numbered, AheadJobs),
        AllocError,
    >
        requires { CanEnter run.now searched.now (placed P.places tables.now) broods.now number expansion }
        ensures { IfOk result (HasEntered run.now searched.now (placed P.places tables.entry.now) number expansion (placed P.places tables.exit.now) broods.exit.now) }
    { enter(rt, run, gate, searched, tables, broods, number, expansion) };
    let mut store = Store {
        run: own,
        find: find_pairs,
        enter: enter_all,
        searched,
        broods: Broods::new(alloc),
        pairs: 1,
        lent: PhantomData,
    };
    let ending = search_from(&asked, &mut store, tables, watchers)?;
    Ok(ending)
}
