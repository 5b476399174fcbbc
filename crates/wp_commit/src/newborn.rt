//! The children that an expansion numbers.

use wp_count::Child;

/// A child that is no repeat: its number in the order of generation, its novelty (1 to 3), and what it was evaluated to.
#[derive(Drop)]
pub(crate) struct Newborn {
    pub number: u64,
    pub w: u8,
    pub child: Child,
}
