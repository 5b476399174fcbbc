//! The top call: words and files in, bytes and a status out.
//!
//! `run_words` writes the text and answers the status that `specs/Table.antt` defines of the words and the files' bytes: for each
//! command a list of steps, in the order of refusals. It names each fault of the outside by its cause, a count that rose.
//!
//! The whole text of an answer is made before its first byte is put; a step of the way either goes on with a value or ends with
//! a reply. `wp_main` calls it with the real files and output, tests with those in memory.
#![tactic(auto)]

mod audit;
mod check;
mod closed;
mod fetch;
mod generate;
mod generated;
mod ground;
mod inputs;
mod laws;
mod meanings;
mod plan;
mod put;
mod readers;
mod reply;
mod run;
mod shown;
mod stop;

pub use generated::made_tasks_are_not_refused;
pub use laws::{
    answers_of_no_plan_are_true, closed_answers_are_certified, done_answers_are_valid_plans,
    emptied_searches_have_no_plan, found_plans_are_read_back, goals_out_of_reach_have_no_plan,
    large_limits_are_not_reached, searches_are_bounded,
};
pub use meanings::{
    answers_are_of_their_commands, audits_are_true, checks_are_true, endings_have_their_statuses,
    missing_files_have_no_answer, no_plan_is_true, plain_plays_no_part, refusals_have_their_causes,
    tasks_are_grounded, unreached_goals_are_answered, usage_is_of_no_command,
    workers_change_no_answer,
};
pub use reply::{Reply, Status};
pub use run::run_words;
