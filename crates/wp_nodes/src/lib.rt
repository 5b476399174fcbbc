//! The nodes that a search keeps, with the tracks that their counters count on.
//!
//! Callers see the list of kept nodes, by rising number, and the list of tracks (`specs/KeptNodes.antt`). A node is
//! found by its state or by its number, and the plan to it follows the links to the parents (`specs/Links.antt`).
//! Inside, the nodes lie in one table that is hashed by state and keeps the order of arrival, so each state is there
//! once: what is known already is found by hash, and a number by halving, since numbers only rise. A search asks it
//! for repeats and for plans. It knows nothing of novelty, nor of which nodes wait.
#![tactic(auto)]

mod by_state;
pub mod kept;
pub mod laws;
pub mod nodes;

pub use kept::{Back, Kept};
pub use laws::plans_follow_links;
pub use nodes::Nodes;
