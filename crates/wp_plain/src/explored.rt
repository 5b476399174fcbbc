//! What the search keeps: lists by number, of nodes, of the ways to them, and of the tracks that #r counts on.
ghost use Rattle.std.specs.Prelude.{◌≡◌, ◌++◌, ◌+◌, ◌<◌, ◌≤◌, ◌^◌, length, OnOk, IfOk};
ghost use Rattle.std.specs.Option.{option_to_list};
ghost use Rattle.wp_plain.specs.Explored.{act_of, expanded_at, track_number, lists_of, with_child, with_children};

use crate::node::{GeneratedNode, SearchNode};
use crate::novelty::novelty;
use crate::settings::{Settings, keeps};
use std::alloc::{AllocError, Global};
use wp_count::Child;
use wp_task::{Mark, Track};

/// The parent of a node, and the action that led from it.
#[derive(Clone, Copy, Drop)]
pub(crate) struct Link {
    pub parent: u64,
    pub act: u32,
}

/// How a node was reached, and what its counters go on from.
#[derive(Drop)]
pub(crate) struct Way {
    pub back: Option<Link>,
    pub mark: Mark,
}

impl Way {
    /// The action that led there; for the root, to which none led, it is 0.
    pub(crate) fn act(&self) -> u32
        ensures { result ≡ act_of self.now.back }
    {
        match self.back {
            Some(link) => link.act,
            None => 0,
        }
    }
}

/// The search so far. Pruned nodes stay in the lists, since they make tuples old.
#[derive(Drop)]
pub(crate) struct Explored {
    pub nodes: Vec<SearchNode>,
    pub ways: Vec<Way>,
    pub tracks: Vec<Track>,
    pub pairs: Vec<(u32, u32)>,
    pub expanded: u64,
    pub repeats: u64,
}

/// The children of a node that are no repeats, how many are, and the pairs of all nodes with them.
#[derive(Drop)]
pub(crate) struct Expansion {
    pub fresh: Vec<Child>,
    pub repeats: u64,
    pub pairs: Vec<(u32, u32)>,
}

/// Takes up an expansion: the node at a place waits no longer, and its children are numbered.
pub(crate) fn number_children(
    alloc: Global,
    explored: &mut Explored,
    settings: &Settings,
    place: usize,
    children: Vec<Child>,
    repeats: u64,
) -> Result<(), AllocError>
    requires place { place < length explored.old.nodes.items }
    requires ways { length explored.old.ways.items ≡ length explored.old.nodes.items }
    requires width { (1 ≤ settings.now.width) × (settings.now.width ≤ 2) }
    requires expanded { explored.old.expanded + 1 < 2 ^ 64 }
    requires repeats { explored.old.repeats + repeats < 2 ^ 64 }
    ensures lists { OnOk result (lists_of explored.new ≡ expanded_at settings.now place (lists_of explored.old) children.items) }
    ensures pairs { OnOk result (explored.new.pairs ≡ explored.old.pairs) }
    ensures expanded { OnOk result (explored.new.expanded ≡ explored.old.expanded + 1) }
    ensures repeats { OnOk result (explored.new.repeats ≡ explored.old.repeats + repeats) }
{
    explored.nodes[place].leave();
    explored.expanded += 1;
    explored.repeats += repeats;
    let track = explored.ways[place].mark.track;
    add_all(alloc, explored, settings, place as u64, track, children)
}

/// Numbers the children of the node `parent`, whose track has the number `track`.
fn add_all(
    alloc: Global,
    explored: &mut Explored,
    settings: &Settings,
    parent: u64,
    track: u64,
    children: Vec<Child>,
) -> Result<(), AllocError>
    requires { (1 ≤ settings.now.width) × (settings.now.width ≤ 2) }
    ensures lists { OnOk result (lists_of explored.new ≡ with_children settings.now parent track (lists_of explored.old) children.items) }
    ensures pairs { OnOk result (explored.new.pairs ≡ explored.old.pairs) }
    ensures expanded { OnOk result (explored.new.expanded ≡ explored.old.expanded) }
    ensures repeats { OnOk result (explored.new.repeats ≡ explored.old.repeats) }
{
    for child in children {
        add(alloc, explored, settings, parent, track, child)?;
    }
    Ok(())
}

fn add(
    alloc: Global,
    explored: &mut Explored,
    settings: &Settings,
    parent: u64,
    track: u64,
    child: Child,
) -> Result<(), AllocError>
    requires { (1 ≤ settings.now.width) × (settings.now.width ≤ 2) }
    ensures lists { OnOk result (lists_of explored.new ≡ with_child settings.now parent track (lists_of explored.old) child) }
    ensures pairs { OnOk result (explored.new.pairs ≡ explored.old.pairs) }
    ensures expanded { OnOk result (explored.new.expanded ≡ explored.old.expanded) }
    ensures repeats { OnOk result (explored.new.repeats ≡ explored.old.repeats) }
{
    let Child {
        act,
        state,
        g,
        r,
        got,
        fresh,
    } = child;
    let generated = GeneratedNode::of(explored.nodes.len() as u64, g, r, state);
    let w = novelty(alloc, settings.width, &explored.nodes, &generated)?;
    let track = keep_track(&mut explored.tracks, fresh, track)?;
    explored
        .nodes
        .push(SearchNode::of(generated, w, keeps(settings, w)))?;
    explored.ways.push(Way {
        back: Some(Link { parent, act }),
        mark: Mark { g, r, track, got },
    })?;
    Ok(())
}

/// The number of a child's track, which is kept where it is a new one.
fn keep_track(tracks: &mut Vec<Track>, fresh: Option<Track>, track: u64) -> Result<u64, AllocError>
    ensures tracks { OnOk result (tracks.new.items ≡ tracks.old.items ++ option_to_list fresh) }
    ensures number { IfOk result (λ number. number ≡ track_number (length tracks.old.items) track fresh) }
{
    match fresh {
        Some(fresh) => {
            let number = tracks.len() as u64;
            tracks.push(fresh)?;
            Ok(number)
        }
        None => Ok(track),
    }
}
