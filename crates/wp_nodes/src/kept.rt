//! A kept node.

use wp_task::{Mark, State};

/// The link of a node to its parent: the parent's number, and the action that led from it.
#[derive(Clone, Copy)]
pub struct Back {
    pub parent: u64,
    pub act: u32,
}

/// A generated node that was not pruned: its number in the order of generation, its novelty, its link, which a root has
/// not, its state, and what it keeps for the counters.
#[derive(Drop)]
pub struct Kept {
    pub number: u64,
    pub w: u8,
    pub back: Option<Back>,
    pub state: State,
    pub mark: Mark,
}
