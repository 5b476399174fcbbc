//! The fast search: BFWS(f5) and k-BFWS over an ordered open list, a table of the kept nodes and novelty tables.
//!
//! Callers see that it ends as the definition of the run does (`wp_plain`), tells its watchers the events of that run, and
//! leaves tables that stand for all numbered nodes. Inside, the first waiting node is taken from an ordered set, repeats are
//! found by hashing states, and the novelty of a child is read from one word for each tuple of its state; nothing is scanned
//! but the actions, once an expansion. Beside the marks of an expansion the first waiting nodes may be evaluated ahead: what is
//! evaluated is the same, whoever did it. What is kept is tied to the moments of the definition by `specs/Searched.antt`. It knows
//! nothing of texts.
#![tactic(auto)]

pub mod best_first;
mod births;
mod evaluation;
mod fresh;
mod keep;
mod latest;
mod lent;
mod made;
mod marking;
mod newborn;
mod pairs;
mod root;
mod run;
mod searched;
mod store;
mod telling;
mod unseen;

pub use best_first::{search, search_over};
