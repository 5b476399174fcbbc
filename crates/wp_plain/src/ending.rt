//! How a search ends.

use wp_task::Atoms;

/// What a search counts: expansions, numbered nodes (the root among them), how many of these were kept and how many
/// pruned, children that were repeats, and the pairs (#g, #r) of the numbered nodes that differ.
#[derive(Clone, Copy, Drop)]
pub struct Counts {
    pub expanded: u64,
    pub numbered: u64,
    pub kept: u64,
    pub pruned: u64,
    pub repeats: u64,
    pub pairs: u64,
}

/// How a search ends: with a plan; with no node that waits; with its budget of expansions spent; or with more words
/// wanted than its limit, for that many pairs of counters.
#[derive(Drop)]
pub enum How {
    Found { plan: Atoms },
    Emptied,
    Budget,
    Words { pairs: u64 },
}

/// The ending of a search, with its counts.
#[derive(Drop)]
pub struct Ending {
    pub how: How,
    pub counts: Counts,
}
