//! Additive costs of atoms and relaxed plans, under the delete relaxation.
//!
//! Callers see the costs and best supporters of a state (`specs/AdditiveCost.antt`), and the relaxed plan that the
//! supporters make with the atoms that it adds (`specs/RelaxedPlan.antt`). The definitions go by rounds; laws say that
//! they give the one table and the least set. Inside, atoms are settled in the order of their costs and each wanted atom
//! is looked at once, so that the work grows with the sizes of the actions. Counters are counted on the atoms of a
//! relaxed plan. It knows nothing of deletes, nor of a search.
#![tactic(auto)]

mod buckets;
pub mod costs;
mod frontier;
pub mod laws;
mod pending;
pub mod plans;
mod settle;
mod wanted;
pub mod workspace;

pub use costs::Costs;
pub use laws::{
    costs_settle, one_table, relaxed_plans_reach, supporters_are_there, supporters_need_less,
    wanted_are_least,
};
pub use plans::{relaxed_atoms, relaxed_atoms_in, relaxed_plan};
pub use workspace::Workspace;
