//! The open list: the generated nodes that wait, least first by (novelty, #g, number).
//!
//! Callers see the set of these triples, listed in order (`specs/OpenList.antt`). `take` gives the least, and `first`
//! the front in order. Inside is a tree set whose derived order is that of the triples, so both ends of the work, a
//! node that comes and one that leaves, take logarithmic time. The search takes from it, and what is made ahead looks
//! at its front. It knows nothing of states.
#![tactic(auto)]

pub mod laws;
pub mod queue;

pub use laws::one_list_for_a_set;
pub use queue::{Queue, Waiting};
