//! Pairs of atoms that are possible, and an index of tuples without the others.
//!
//! A pair of atoms that no reachable state has is a mutex, and a table needs no word for it. Callers see the pairs that h2 leaves possible
//! as a triangle of flags (`specs/PossiblePairs.antt`): laws say that they are the least set that has the pairs of the opening state and all
//! that the actions make possible, and that every two atoms of a reachable state are among them. `PairIndex` places the single atoms and
//! these pairs (`specs/PairPlaces.antt`), as the trait `Places` of `wp_tuples` wants it. Inside is a work list of new pairs: an action is
//! looked at again only where a pair that it waits for became possible. Rounds over all actions, as in the definition, would take each
//! action as often as there are rounds. It knows nothing of a search, of counters or of words.
#![tactic(auto)]

pub mod error;
pub mod index;
pub mod laws;
pub mod possible;
mod triangle;
mod work;

pub use error::PossibleError;
pub use index::PairIndex;
pub use laws::{least_are_closed, pairs_settle, reachable_pairs_are_possible};
pub use possible::Possible;
