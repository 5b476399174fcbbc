//! What an audit answers.

/// Whether the states of a certificate are closed, or where they fail first. States are counted from 0.
#[derive(Clone, Copy, Debug, Drop)]
pub enum Audit {
    /// They are closed, so the task has no plan.
    Yes,

    /// The first state with a number that is no atom of the task.
    Foreign { state: u64 },

    /// The opening state is not listed.
    NoStart,

    /// A state has all goals.
    Goal { state: u64 },

    /// An action applies in a state and leads to one that is not listed.
    Open { state: u64, act: u32 },
}
