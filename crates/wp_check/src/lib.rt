//! Plan files and verdicts: whether the steps of a plan, as a user writes them, are valid in a lifted problem.
//!
//! `read_plan` gives the steps of a plan file, `verdict` the first step that is bad, with its first cause, else the first
//! goal atom that does not hold after the last step. Both are defined by `specs/PlanFile.antt` and `specs/Verdict.antt`,
//! on the lifted level: nothing is grounded, and no planner is trusted. `wp_app` calls it for `check`.
#![tactic(auto)]

mod cause;
mod judging;
mod laws;
mod reading;
mod step;

pub use cause::{Verdict, Why};
pub use judging::verdict;
pub use laws::{
    comments_join, plans_of_texts_are_read_back, printed_plans_are_read, valid_plans_are_read_back,
    valid_plans_give_valid_steps, valid_steps_name_valid_plans, verdicts_name_the_first,
};
pub use reading::read_plan;
pub use step::{PlanError, Step, Steps};
