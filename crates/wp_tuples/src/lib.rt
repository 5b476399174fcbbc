//! Places of tuples of atoms, for tables with one word a tuple.
//!
//! A tuple is a set of one atom up to `width` atoms, where the width is 1 or 2. The trait `Places` says what an index of tuples is
//! (`specs/Placing.antt`): a place for each single atom and, at width 2, for each pair that is counted, different for different tuples.
//! Callers see `TupleIndex`, which counts every pair, as its number of atoms and its width (`specs/TuplePlaces.antt`); a law says
//! that its places number the tuples, with no gap. Inside is the formula of triangular numbers, which nothing else knows, so this
//! index takes no memory, and one tuple's place needs no other's. Novelty tables are laid out by an index; it knows nothing of
//! states, words or counters.
#![tactic(auto)]

pub mod index;
pub mod laws;
pub mod places;
pub mod ranks;

pub use index::TupleIndex;
pub use laws::{tuples_are_numbered, tuples_have_places};
pub use places::Places;
pub use ranks::Ranks;
