//! What a search tells of itself, and who hears it: one event for each expansion, and boxed watchers that keep events
//! and make a text of them.
//!
//! Callers see an event as its numbers and the list of the nodes born in it, in order. A watcher has a kind, the events
//! that it was told, and the number that it wants, where it does not want all; its text is a function of kind and events
//! (`specs/Texts.antt`). `Watchers` are a list of places, each live or done with its text (`specs/Places.antt`): after
//! every list of events each place is the place of its watcher after them.
//! A search makes events and knows nothing of who hears them; a watcher knows nothing of a search.
#![tactic(auto)]

pub mod event;
pub mod fronts;
mod heard;
pub mod kinds;
pub mod laws;
mod pieces;
pub mod silent;
pub mod slot;
pub mod tally;
pub mod trace;
pub mod watch;
pub mod watchers;

pub use event::{Born, Borns, Event, Events};
pub use fronts::Fronts;
pub use kinds::WatchKinds;
pub use laws::places_follow;
pub use silent::Silent;
pub use slot::Slot;
pub use tally::Tally;
pub use trace::Trace;
pub use watch::{Heed, Watch, WatchKind};
pub use watchers::Watchers;
