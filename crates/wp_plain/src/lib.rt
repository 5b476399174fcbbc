//! The search as it is defined, and a scanning search that is the definition made to run.
//!
//! Callers see the definition: what an expansion generates (`specs/Expansion.antt`), and the run with its endings, counts
//! and events (`specs/Run.antt`); no worker, table or watcher occurs in it. `plain_search` ends as it does. Inside are
//! lists of all nodes, scanned anew in each step; a link to the parent stands for each path, and an atom set beside it
//! for the relaxed atoms of the path, which a law makes the same. Every faster search has to equal these definitions, and
//! tests compare with this one. It knows nothing of threads and of texts.
#![tactic(auto)]

pub mod best_first;
pub mod ending;
mod explored;
mod first;
pub mod laws;
mod node;
mod novelty;
mod pairs;
mod paths;
mod repeats;
pub mod run;
pub mod search;
pub mod settings;
mod telling;

pub use best_first::{BestFirst, root_alone, search_from};
pub use ending::{Counts, Ending, How};
pub use first::first_is_least;
pub use laws::{
    children_are_numbered, emptied_has_no_plan, endings_answer, expansions_are_few, found_is_plan,
    limits_are_enough, limits_are_reached, nodes_are_numbered, numbers_are_small, steps_are_taken,
    tuples_are_counted,
};
pub use pairs::{exceeds, pairs_are_listed, tuple_count};
pub use repeats::repeats_are_left_out;
pub use run::Run;
pub use search::plain_search;
pub use settings::{Search, Settings, keeps, workers_play_no_part};
