//! Jobs: each makes the brood of one node from a copy of what the node keeps.
ghost use Rattle.std.specs.Prelude.{◌≡◌};

use std::marker::Model;
use wp_count::Brood;
use wp_task::{Mark, State, Track};

/// What became of a job: it was not worked yet, it made its brood, or it was refused memory.
#[derive(Drop)]
pub enum Outcome {
    NotWorked,
    Made { brood: Brood },
    Refused,
}

/// The number of a node with copies of its state, its mark and its track, and what became of the job.
#[derive(Drop)]
pub struct AheadJob {
    pub(crate) number: u64,
    pub(crate) state: State,
    pub(crate) mark: Mark,
    pub(crate) track: Track,
    pub(crate) outcome: Outcome,
}

impl Model for AheadJob {
    ghost use Rattle.wp_ahead.specs.Jobs.{Job};

    ghost Value = { Job };

    ghost view = { λ j. record { number = j.number; state = j.state; mark = j.mark; track = j.track; outcome = j.outcome } };
}

/// A list of jobs.
#[derive(Drop)]
pub struct AheadJobs {
    items: Vec<AheadJob>,
}

impl Model for AheadJobs {
    ghost use Rattle.std.specs.Prelude.{List};
    ghost use Rattle.wp_ahead.specs.Jobs.{Job};

    ghost Value = { List Job };

    ghost view = { λ j. j.items.items };
}

impl AheadJobs {
    pub fn of_vec(items: Vec<AheadJob>) -> AheadJobs
        ensures { result ≡ items.items }
    {
        AheadJobs { items }
    }

    pub fn into_vec(self) -> Vec<AheadJob>
        ensures { result.items ≡ self }
    {
        let AheadJobs { items } = self;
        items
    }

    pub fn as_slice(&self) -> &[AheadJob]
        ensures { result.now ≡ self.now }
    {
        self.items.as_slice()
    }
}
