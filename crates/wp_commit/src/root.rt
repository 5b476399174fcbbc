//! The opening: the root alone.
ghost use Rattle.std.specs.Prelude.{◌≡◌, ◌<◌, ◌≤◌, ◌^◌, [], ◌∷◌, None, length, false, IfOk, OnOk};
ghost use Rattle.wp_task.specs.Novelty.{novelty_of};
ghost use Rattle.wp_novel.specs.MarkedTuples.{AreCounted};
ghost use Rattle.wp_novel.specs.NoveltyTables.{placed, open_pairs, IsAtHome};
ghost use Rattle.wp_novel.specs.StandsFor.{StandsFor};
ghost use Rattle.wp_plain.specs.Pairs.{exceeds};
ghost use Rattle.wp_plain.specs.Run.{opening};
ghost use Rattle.wp_commit.specs.Searched.{IsIndexFor, StandsAt};

use crate::latest::root_latest;
use crate::marking::mark_all;
use crate::pairs::open;
use crate::run::Run;
use crate::searched::Searched;
use std::alloc::AllocError;
use std::thread::Threads;
use wp_ahead::AheadJobs;
use wp_count::counters_are_carried;
use wp_edge::Gate;
use wp_nodes::{Kept, Nodes};
use wp_novel::{Birth, Births, Pair, Tables, no_tuple_is_old};
use wp_queue::Queue;
use wp_tuples::Places;

/// The root, marked in tables that are empty, kept and waiting.
pub(crate) fn opening<R: Threads + Sync, P: Places, G: Gate>(
    rt: &R,
    run: &Run,
    gate: &G,
    tables: &mut Tables<P>,
) -> Result<Searched, AllocError>
    requires index { IsIndexFor run.now.task run.now.settings (P.places tables.old.index) }
    requires limit { tables.old.limit ≡ run.now.settings.words }
    requires empty { open_pairs (placed P.places tables.old) ≡ [] }
    requires collected { tables.old.last ≡ None }
    requires home { IsAtHome (placed P.places tables.old) }
    requires few { exceeds run.now.settings.words 1 (P.places tables.old.index).len ≡ false }
    ensures stands { IfOk result (λ searched. StandsAt run.now.task run.now.settings searched (placed P.places tables.new) (opening run.now.task run.now.settings)) }
    ensures index { OnOk result (P.places tables.new.index ≡ P.places tables.old.index) }
{
    // The law of the counters: what is kept of a node gives those of its whole path.
    counters_are_carried();
    let alloc = run.alloc;
    let (state, mark, track) = wp_count::root_of(alloc, run.task)?;
    let g = mark.g;
    let copy = state.copy(alloc)?;
    let pair = Pair { g, r: mark.r };
    let root = Birth::of(alloc, 0, pair, copy, None)?;
    let w = mark_root(rt, run, gate, tables, root)?;
    let mut nodes = Nodes::new(alloc);
    nodes.add_track(track)?;
    nodes.add(Kept {
        number: 0,
        w,
        back: None,
        state,
        mark,
    })?;
    let mut queue = Queue::new(alloc);
    queue.put(w, g, 0)?;
    let latest = root_latest(alloc, pair)?;
    Ok(Searched {
        nodes,
        queue,
        latest,
        numbered: 1,
        kept: 1,
        expanded: 0,
        repeats: 0,
    })
}

/// Opens the root's pair, marks the root, and reads its novelty: a phase of one job, since nothing waits yet.
fn mark_root<R: Threads + Sync, P: Places, G: Gate>(
    rt: &R,
    run: &Run,
    gate: &G,
    tables: &mut Tables<P>,
    root: Birth,
) -> Result<u8, AllocError>
    requires empty { open_pairs (placed P.places tables.old) ≡ [] }
    requires collected { tables.old.last ≡ None }
    requires home { IsAtHome (placed P.places tables.old) }
    requires within { (P.places tables.old.index).len ≤ tables.old.limit }
    requires size { length root.node.state ≡ (P.places tables.old.index).atoms }
    requires counted { AreCounted (P.places tables.old.index) root.node.state }
    requires number { root.node.number < 2 ^ 63 }
    requires fresh { root.fresh ≡ None }
    ensures novelty { IfOk result (λ w. w ≡ novelty_of (P.places tables.old.index).width (root.node ∷ []) root.node) }
    ensures stands { OnOk result (StandsFor (placed P.places tables.new) (root.node ∷ [])) }
    ensures pairs { OnOk result (open_pairs (placed P.places tables.new) ≡ root.node.counters ∷ []) }
    ensures home { OnOk result (IsAtHome (placed P.places tables.new)) }
    ensures index { OnOk result ((P.places tables.new.index) ≡ (P.places tables.old.index)) }
    ensures limit { OnOk result (tables.new.limit ≡ tables.old.limit) }
{
    // All atoms of the root are new.
    no_tuple_is_old();
    open(tables, root.pair())?;
    let mut births = Vec::new(run.alloc);
    births.push(root)?;
    let none = AheadJobs::of_vec(Vec::new(run.alloc));
    let (births, _) = mark_all(rt, run, gate, tables, Births::of_vec(births), none)?;
    Ok(tables.novelty(&births.as_slice()[0]))
}
