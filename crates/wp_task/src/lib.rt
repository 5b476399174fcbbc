//! Planning tasks over numbered atoms: states, ground actions, what an action leads to, plans.
//!
//! Callers see a state as the set of its true atoms (`specs/Set.antt`) and a task as its atoms, opening state, goals
//! and actions (`specs/Task.antt`). The novelty of a generated node is defined here too (`specs/Novelty.antt`), since
//! both the plain and the fast search cite it. Inside, a state is packed into words of 64 bits, and a task keeps for
//! each atom the lists of the actions that add it and of those that need it. Everything that plans stands on this crate; it knows nothing of
//! names, of PDDL or of a search.
#![tactic(auto)]

pub mod acts;
pub mod atoms;
mod bits;
mod flat;
mod lanes;
mod many;
pub mod novelty;
mod places;
pub mod state;
mod tables;
pub mod task;
pub mod track;

pub use acts::{Act, Acts};
pub use atoms::Atoms;
pub use novelty::novelty_is_computed;
pub use state::State;
pub use task::Task;
pub use track::{Mark, Track};
