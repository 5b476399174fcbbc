//! Words that many workers mark at once, each with the first arrival at its place.
//!
//! Callers see a pass as its table, its marks and its parts of the right to know all marks (`specs/Seen.antt`), and
//! `look` gives the least number that was marked at a place (`specs/FirstArrival.antt`). Inside, a mark is one atomic
//! minimum, so no worker waits for another and no order of the marks matters. Passes take no bytes: whoever holds all
//! parts knows that nobody else has marks, so a word is the first arrival of the marks in hand
//! (`specs/Rule.antt`). It is meant for novelty tables that several workers fill, and knows nothing of
//! tuples or nodes.
#![tactic(auto)]

pub mod arrivals;
pub mod laws;
mod rule;
#[cfg(test)]
mod tests;
pub mod view;

pub use arrivals::{Arrivals, Pass};
pub use laws::{all_parts_have_all_marks, marks_in_any_order};
pub use view::{Arrival, View};
