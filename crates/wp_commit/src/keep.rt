//! Newborns that are not pruned are kept, and wait.
ghost use Rattle.std.specs.Prelude.{◌≡◌, ◌≢◌, ◌+◌, ◌<◌, ◌^◌, [], ◌∷◌, ◌++◌, length, All, OnOk, IfOk};
ghost use Rattle.std.specs.Option.{option_to_list};
ghost use Rattle.wp_nodes.specs.KeptNodes.{IsKept};
ghost use Rattle.wp_plain.specs.Explored.{track_number};
ghost use Rattle.wp_commit.specs.Newborns.{with_newborns, with_newborn, waiting_of, AreNew, AreQueued, IsCommitted};
ghost use Rattle.wp_commit.specs.Expansions.{CanKeep};
ghost use Rattle.wp_commit.specs.Latest.{AreNoted};

use crate::births::Numbered;
use crate::latest::{Latest, note};
use crate::newborn::Newborn;
use crate::searched::Searched;
use std::alloc::AllocError;
use wp_count::Child;
use wp_nodes::{Back, Kept, Nodes};
use wp_novel::Pair;
use wp_plain::{Settings, keeps};
use wp_task::{Mark, Track};

/// Takes up an expansion of the node `parent`, whose track has the number `track`.
pub(crate) fn keep_expansion(
    searched: &mut Searched,
    settings: &Settings,
    parent: u64,
    track: u64,
    numbered: Numbered,
) -> Result<(), AllocError>
    requires { CanKeep searched.old parent track numbered }
    ensures { OnOk result (IsCommitted settings.now parent track numbered.newborns.items numbered.repeats searched.old searched.new) }
{
    let Numbered { newborns, repeats } = numbered;
    searched.numbered += newborns.len() as u64;
    searched.expanded += 1;
    searched.repeats += repeats;
    keep_all(searched, settings, parent, track, newborns)
}

/// Keeps the newborns of the node `parent`, whose track has the number `track`, but for those that are pruned.
fn keep_all(
    searched: &mut Searched,
    settings: &Settings,
    parent: u64,
    track: u64,
    newborns: Vec<Newborn>,
) -> Result<(), AllocError>
    requires new { AreNew searched.old.nodes.kept newborns.items }
    requires parent { IsKept searched.old.nodes.kept parent }
    requires track { track < length searched.old.nodes.tracks }
    requires few { searched.old.kept + length newborns.items < 2 ^ 64 }
    ensures nodes { OnOk result (searched.new.nodes ≡ with_newborns settings.now parent track searched.old.nodes newborns.items) }
    ensures queue { OnOk result (AreQueued searched.old.queue (waiting_of settings.now newborns.items) searched.new.queue) }
    ensures latest { OnOk result (AreNoted newborns.items searched.old.latest.entries searched.new.latest.entries) }
    ensures kept { OnOk result (searched.new.kept + length searched.old.nodes.kept ≡ searched.old.kept + length searched.new.nodes.kept) }
    ensures numbered { searched.new.numbered ≡ searched.old.numbered }
    ensures expanded { searched.new.expanded ≡ searched.old.expanded }
    ensures repeats { searched.new.repeats ≡ searched.old.repeats }
{
    for newborn in newborns {
        keep(searched, settings, parent, track, newborn)?;
    }
    Ok(())
}

/// Keeps one newborn, unless it is pruned.
fn keep(
    searched: &mut Searched,
    settings: &Settings,
    parent: u64,
    track: u64,
    newborn: Newborn,
) -> Result<(), AllocError>
    requires later { All (λ k. k.number < newborn.number) searched.old.nodes.kept }
    requires unseen { All (λ k. k.state ≢ newborn.child.state) searched.old.nodes.kept }
    requires parent { IsKept searched.old.nodes.kept parent }
    requires track { track < length searched.old.nodes.tracks }
    requires few { searched.old.kept + 1 < 2 ^ 64 }
    ensures nodes { OnOk result (searched.new.nodes ≡ with_newborn settings.now parent track searched.old.nodes newborn) }
    ensures queue { OnOk result (AreQueued searched.old.queue (waiting_of settings.now (newborn ∷ [])) searched.new.queue) }
    ensures latest { OnOk result (AreNoted (newborn ∷ []) searched.old.latest.entries searched.new.latest.entries) }
    ensures kept { OnOk result (searched.new.kept + length searched.old.nodes.kept ≡ searched.old.kept + length searched.new.nodes.kept) }
    ensures numbered { searched.new.numbered ≡ searched.old.numbered }
    ensures expanded { searched.new.expanded ≡ searched.old.expanded }
    ensures repeats { searched.new.repeats ≡ searched.old.repeats }
{
    let Newborn { number, w, child } = newborn;
    let Child {
        act,
        state,
        g,
        r,
        got,
        fresh: own,
    } = child;
    let pair = Pair { g, r };
    if !keeps(settings, w) {
        // A pruned node marks too, and so may be the latest birth of its pair.
        let birth = Latest {
            number,
            pruned: Some(state),
        };
        note(&mut searched.latest, pair, birth)?;
        return Ok(());
    }
    let birth = Latest {
        number,
        pruned: None,
    };
    note(&mut searched.latest, pair, birth)?;
    let track = keep_track(&mut searched.nodes, own, track)?;
    searched.nodes.add(Kept {
        number,
        w,
        back: Some(Back { parent, act }),
        state,
        mark: Mark { g, r, track, got },
    })?;
    searched.queue.put(w, g, number)?;
    searched.kept += 1;
    Ok(())
}

/// The number of a node's track, which is kept where it is a new one.
fn keep_track(nodes: &mut Nodes, own: Option<Track>, track: u64) -> Result<u64, AllocError>
    requires { track < length nodes.old.tracks }
    ensures tracks { OnOk result (nodes.new ≡ record nodes.old { tracks = nodes.old.tracks ++ option_to_list own }) }
    ensures number { IfOk result (λ number. number ≡ track_number (length nodes.old.tracks) track own) }
    ensures within { IfOk result (λ number. number < length nodes.new.tracks) }
{
    match own {
        Some(own) => nodes.add_track(own),
        None => Ok(track),
    }
}
