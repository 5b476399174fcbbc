//! What a run answers.

ghost use Rattle.std.specs.Prelude.{◌≡◌};

use wp_edge::Text;

/// How a run ended, as an exit status.
#[derive(Clone, Copy, Debug, PartialEq, Eq)]
pub enum Status {
    /// A plan was found, or is valid, or a task was printed, or the states of a certificate are closed.
    Done,
    /// The plan that was to be checked is not valid.
    InvalidPlan,
    /// The words have no command.
    Usage,
    /// A text has a fault.
    Refused,
    /// A file or a task is larger than its limit.
    Limit,
    /// The states of a certificate are not closed.
    InvalidCert,
    /// BFWS(f5) has no node left to expand: no plan exists.
    NoPlan,
    /// k-BFWS has no node left to expand, which says nothing of plans.
    QueueEmpty,
    /// As many nodes were expanded as were allowed.
    Budget,
    /// The novelty tables would have more words than were allowed.
    Words,
    /// A goal atom is not reached even without deletes: no plan exists.
    OutOfReach,
    /// A file could not be read.
    ReadFault,
    /// The output was not taken; it has a prefix of the text.
    WriteFault,
    /// Memory was refused; the output has nothing of the text.
    Memory,
}

impl Status {
    ghost use Rattle.wp_app.specs.Statuses.{code_of};

    /// The exit code of the program.
    pub fn code(&self) -> u8
        ensures { result ≡ code_of self.now }
    {
        match self {
            Status::Done => 0,
            Status::InvalidPlan => 1,
            Status::Usage => 2,
            Status::Refused => 3,
            Status::Limit => 4,
            Status::InvalidCert => 5,
            Status::NoPlan => 10,
            Status::QueueEmpty => 11,
            Status::Budget => 12,
            Status::Words => 13,
            Status::OutOfReach => 14,
            Status::ReadFault => 20,
            Status::WriteFault => 21,
            Status::Memory => 30,
        }
    }
}

/// An answer: the whole text, and the status that comes with it.
#[derive(Drop)]
pub struct Reply {
    pub text: Text,
    pub status: Status,
}
