//! Jobs: births that one worker marks, with the right to mark the tables of their pairs.
ghost use Rattle.std.specs.Prelude.{◌≡◌};

use crate::birth::{Birth, Pair};
use std::marker::Model;
use wp_arrive::Pass;

/// A pair, and a pass of its table.
#[derive(Drop)]
pub struct JobPass {
    pub pair: Pair,
    pub pass: Pass,
}

/// Births that are to be marked, or are.
#[derive(Drop)]
pub struct MarkJob {
    pub(crate) place: u32,
    pub(crate) births: Vec<Birth>,
    pub(crate) passes: Vec<JobPass>,
    pub(crate) worked: bool,
}

impl Model for MarkJob {
    ghost use Rattle.wp_novel.specs.Jobs.{JobView};

    ghost Value = { JobView };

    ghost view = { λ j. record { births = j.births.items; passes = j.passes.items; worked = j.worked } };
}

/// A list of jobs.
#[derive(Drop)]
pub struct MarkJobs {
    items: Vec<MarkJob>,
}

impl Model for MarkJobs {
    ghost use Rattle.std.specs.Prelude.{List};
    ghost use Rattle.wp_novel.specs.Jobs.{JobView};

    ghost Value = { List JobView };

    ghost view = { λ j. j.items.items };
}

impl MarkJobs {
    pub fn of_vec(items: Vec<MarkJob>) -> MarkJobs
        ensures { result ≡ items.items }
    {
        MarkJobs { items }
    }

    pub fn into_vec(self) -> Vec<MarkJob>
        ensures { result.items ≡ self }
    {
        let MarkJobs { items } = self;
        items
    }
}
