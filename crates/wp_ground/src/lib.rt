//! Grounding: the task of a lifted problem, over the atoms that are reached when nothing is deleted.
//!
//! Callers see the reached atoms (`specs/Reached.antt`), the task over them with the names of its atoms and actions
//! (`specs/Tasks.antt`, `specs/Texts.antt`), and the causes of a refusal (`specs/Refusals.antt`). Other texts print atoms and
//! objects by the calls that make these names.
#![tactic(auto)]

mod acts;
mod bindings;
mod choices;
mod filling;
mod finding;
mod flat;
mod forms;
mod grounding;
mod joins;
mod laws;
mod lists;
mod meeting;
mod numbering;
mod picking;
mod pruning;
mod scratch;
mod steps;
mod stopping;
mod table;
mod taken;
mod taking;
mod texts;

pub use grounding::{GroundError, Grounded, ground};
pub use laws::{
    plans_are_valid, reached_atoms_are_least, unreached_goals_have_no_plan,
    valid_plans_are_numbered,
};
pub use texts::{atom_text, object_name};
