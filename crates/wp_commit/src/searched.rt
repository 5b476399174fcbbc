//! What the search keeps besides the novelty tables.
ghost use Rattle.std.specs.Prelude.{◌≡◌, ◌<◌, Some, length, Contains};
ghost use Rattle.wp_nodes.specs.KeptNodes.{node_of, AreLinked};
ghost use Rattle.wp_commit.specs.Searched.{HoldsSomewhere, IsTakenSomewhere, AreCountsOf};

use crate::latest::Latest;
use indexmap::IndexMap;
use wp_nodes::{Kept, Nodes};
use wp_novel::Pair;
use wp_plain::Counts;
use wp_queue::Queue;

/// The search so far. Of a pruned node nothing is kept here, unless it is the latest birth of its pair: it has its number, and its
/// tuples are marked in the tables.
#[derive(Drop)]
pub(crate) struct Searched {
    pub nodes: Nodes,
    pub queue: Queue,
    pub latest: IndexMap<Pair, Latest>,
    pub numbered: u64,
    pub kept: u64,
    pub expanded: u64,
    pub repeats: u64,
}

/// The node that was taken.
pub(crate) fn node_at(searched: &Searched, number: u64) -> &Kept
    requires taken { IsTakenSomewhere searched.now number }
    ensures node { node_of searched.now.nodes.kept number ≡ Some result.now }
    ensures there { Contains searched.now.nodes.kept result.now }
    ensures named { result.now.number ≡ number }
    ensures track { result.now.mark.track < length searched.now.nodes.tracks }
    ensures linked { AreLinked searched.now.nodes }
{
    match searched.nodes.get(number) {
        Some(node) => node,
        None => unreachable!(),
    }
}

/// What was counted, where so many pairs are open.
pub(crate) fn counts_of(searched: &Searched, pairs: u64) -> Counts
    requires { HoldsSomewhere searched.now }
    ensures { AreCountsOf searched.now pairs result }
{
    Counts {
        expanded: searched.expanded,
        numbered: searched.numbered,
        kept: searched.kept,
        pruned: searched.numbered - searched.kept,
        repeats: searched.repeats,
        pairs,
    }
}
