//! The latest birth of each pair of counters. A child with the pair shares most of its atoms with it, and so most of its tuples.
ghost use Rattle.std.specs.Prelude.{◌≡◌, Some, Contains, IfOk, OnOk, IfSome, if◌then◌else◌};
ghost use Rattle.wp_novel.specs.NoveltyTables.{is_pair};
ghost use Rattle.wp_nodes.specs.declared.kept.Kept.{Kept};
ghost use Rattle.wp_commit.specs.Latest.{latest_of, IsOfRoot, HasLatestState};

use crate::searched::Searched;
use indexmap::IndexMap;
use std::alloc::{AllocError, Global};
use wp_nodes::Nodes;
use wp_novel::Pair;
use wp_task::State;

/// What is kept of the latest birth of a pair: its number, and its state where it was pruned. A kept node has its state itself.
#[derive(Drop)]
pub(crate) struct Latest {
    pub number: u64,
    pub pruned: Option<State>,
}

/// The latest birth of each pair where the root alone is born.
pub(crate) fn root_latest(alloc: Global, pair: Pair) -> Result<IndexMap<Pair, Latest>, AllocError>
    ensures { IfOk result (λ latest. IsOfRoot pair latest.entries) }
{
    let mut latest = IndexMap::new(alloc);
    note(
        &mut latest,
        pair,
        Latest {
            number: 0,
            pruned: None,
        },
    )?;
    Ok(latest)
}

/// Notes the latest birth of a pair.
pub(crate) fn note(
    latest: &mut IndexMap<Pair, Latest>,
    pair: Pair,
    birth: Latest,
) -> Result<(), AllocError>
    ensures { OnOk result ((other : _) → latest_of latest.new.entries other ≡ (if is_pair pair other then Some birth else latest_of latest.old.entries other)) }
{
    latest.insert(pair, birth)?;
    Ok(())
}

/// The state of the latest birth of a pair, where there is one.
pub(crate) fn latest_state<'a>(searched: &'a Searched, pair: Pair) -> Option<&'a State>
    ensures { IfSome result (λ state. HasLatestState searched.now.nodes.kept searched.now.latest.entries pair state.now) }
{
    let latest = searched.latest.get(&pair)?;
    match &latest.pruned {
        Some(state) => Some(state),
        None => kept_state(&searched.nodes, latest.number),
    }
}

/// The state of the kept node of a number.
fn kept_state(nodes: &Nodes, number: u64) -> Option<&State>
    ensures { IfSome result (λ state. (k : Kept) × Contains nodes.now.kept k × (k.number ≡ number) × (k.state ≡ state.now)) }
{
    let node = nodes.get(number)?;
    Some(&node.state)
}
