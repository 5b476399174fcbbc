//! What a pass knows, in the terms of the proof alone: no value of these types is made.
use std::collections::LinkedList;

/// The number `number` came to the place `place`.
pub struct Arrival {
    pub place: u64,
    pub number: u64,
}

/// The marks that a pass has, and its parts of the right to know all marks.
pub struct View {
    pub parts: u64,
    pub marks: LinkedList<Arrival>,
}
