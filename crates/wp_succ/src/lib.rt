//! Successor generators: which actions apply in a state.
//!
//! The trait `Successors` has one meaning, the tasks that a generator serves; for these its list is the applicable
//! actions in number order, whatever is inside. `Plain` tries every action and serves every task: it is the
//! definition made to run. `Tree` is made of one task and asks each atom once for all actions that share it. Searches
//! take any generator. It knows nothing of costs or of a search.
#![tactic(auto)]

mod growing;
pub mod plain;
pub mod successors;
pub mod tree;

pub use plain::Plain;
pub use successors::Successors;
pub use tree::Tree;
