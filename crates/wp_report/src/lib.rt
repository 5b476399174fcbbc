//! The texts of the answers: one line, or some, for each way in which a run may end.
//!
//! Each call makes the text that a definition gives of its arguments, byte for byte, unless memory is refused: of words, of
//! files that are not there to be read and of a task that is made (`specs/Inputs.antt`), of a text that is refused (`specs/Refusals.antt`), of a verdict
//! (`specs/Verdicts.antt`), of a numbered task or of why there is none (`specs/Tasks.antt`), and of a search that has ended
//! (`specs/Endings.antt`).
//!
//! Inside, each piece is put behind what was written so far, so a line is a row of appends, and so is its proof. `wp_app`
//! writes the texts; this crate knows nothing of commands, statuses and files.
#![tactic(auto)]

mod conditions;
mod endings;
mod inputs;
mod pieces;
mod refusals;
mod tasks;
mod verdicts;

pub use endings::ending_text;
pub use inputs::{gen_text, read_fault_text, too_long_text, usage_text};
pub use refusals::{lex_text, pddl_text, plan_error_text};
pub use tasks::{ground_error_text, ground_text};
pub use verdicts::verdict_text;
