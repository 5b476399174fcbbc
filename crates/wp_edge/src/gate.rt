//! A hook that each job of a search passes before it begins, so that a test can hold jobs back.

/// The name of a job: the births of one place are marked, or the successors of one node are made ahead.
#[derive(Clone, Copy, Debug, PartialEq, Eq)]
pub enum JobName {
    /// Marks the births of this place.
    Mark { place: u32 },
    /// Makes the successors of the node of this number.
    Ahead { number: u64 },
}

/// What a job passes before it begins. All workers share it, and it answers nothing.
pub trait Gate: Sync {
    fn pass(&self, job: JobName);
}

/// The gate of the product, which lets each job pass at once.
#[derive(Clone, Copy, Debug, Drop)]
pub struct OpenGate;

impl Gate for OpenGate {
    fn pass(&self, _job: JobName) {}
}
