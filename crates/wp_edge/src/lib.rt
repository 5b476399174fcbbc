//! The outside of the planner as three traits, and their stand-ins in memory.
//!
//! `Shelf` gives files, `Sink` takes output, `Gate` is a test's hook before a job. The first two say as ghost
//! members what they hold, where they can tell, and how many of their calls have failed: so a contract above
//! speaks of any file system, real or not, and a fault that it answers has a cause.
//! `Text`, `Texts` and `Numbers` are the lists that the crates above share. Nothing here knows of planning.
#![tactic(auto)]

mod calls;
pub mod files;
pub mod gate;
pub mod lists;
pub mod mem_shelf;
pub mod mem_sink;
pub mod shelf;
pub mod sink;

pub use files::{File, Files};
pub use gate::{Gate, JobName, OpenGate};
pub use lists::numbers::Numbers;
pub use lists::text::Text;
pub use lists::texts::Texts;
pub use mem_shelf::MemShelf;
pub use mem_sink::MemSink;
pub use shelf::{FetchError, Shelf};
pub use sink::{Sink, SinkError};
