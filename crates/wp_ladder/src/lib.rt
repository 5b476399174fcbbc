//! Plans without needless steps.
//!
//! Callers see the trimmed plan (`specs/Trimmed.antt`): action elimination, one pass over the steps. It is a plan of the
//! task and left of the plan where some of its steps are left out. Inside, one state stands for the steps that are kept, and
//! each try walks over the rest of the plan from a copy of it. It knows nothing of names and of texts.
#![tactic(auto)]

pub mod elimination;

pub use elimination::{plans_are_trimmed, trim};
