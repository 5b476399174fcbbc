//! Novelty tables: for each pair of counters (#g, #r) one shared word a tuple of atoms, which tells who had the tuple first.
//!
//! A node is new by a tuple where no node that was generated before it with its counters has the tuple. So it is enough to
//! keep the least number of a node that has each tuple: callers see tables that stand for the list of nodes that were
//! collected (`specs/StandsFor.antt`), and `novelty` of such a node is its novelty in that list. Births are dealt to jobs, which
//! any threads work on in any order, and are then collected (`specs/Jobs.antt`): each job has a pass of each table that it marks, and
//! words are read only where all passes are back, so no schedule shows. Inside, a pair is found by
//! hashing and its words are laid out by an index of tuples, so a node's novelty takes one look a tuple of its own state,
//! however many nodes there were. A birth may say which of its atoms are new; its other tuples were then marked by an earlier one, and
//! only tuples with a new atom are marked and looked at. Marks go through one list of these (`specs/MarkedTuples.antt`), by plain
//! loops over its new and its other atoms, which a birth lists once. The search deals the nodes and asks; it keeps the nodes, says
//! what their counters are and which atoms are new, and starts the threads. Of an index it knows what `Places` says, and no formula.
#![tactic(auto)]

pub mod birth;
mod deal;
pub mod error;
mod first;
mod grow;
mod home;
pub mod job;
pub mod laws;
mod marks;
mod places;
pub mod tables;
mod walk;

pub use birth::{Birth, Births, Pair};
pub use error::PairError;
pub use job::{JobPass, MarkJob, MarkJobs};
pub use laws::{
    first_numbers_are_first, marked_tuples_are_new, no_tuple_is_old, shared_tuples_are_marked,
    worked_jobs_are_out,
};
pub use tables::Tables;
