//! Counters of nodes.
#![tactic(auto)]

pub mod brood;
pub mod counters;
pub mod laws;
pub mod sent;

pub use brood::{Brood, Child, Children};
pub use counters::{brood_of, evaluate, root_of};
pub use laws::counters_are_carried;
pub use sent::broods_are_sent;
