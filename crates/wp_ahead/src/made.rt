//! Broods that jobs made, as they are kept.
ghost use Rattle.std.specs.Prelude.{◌≡◌, ◌≢◌, [], ◌∷◌, All, IsOk, OnOk, OnErr};
ghost use Rattle.wp_ahead.specs.declared.job.Outcome.TheVariants.{NotWorked, Refused};
ghost use Rattle.wp_ahead.specs.KeptBroods.{Adds, AddsSome};

use crate::job::{AheadJob, Outcome};
use std::alloc::AllocError;
use std::collections::BTreeMap;
use wp_count::Brood;

/// Keeps the broods of the jobs that have one. Where memory is refused those of the first jobs are kept.
pub(crate) fn keep_all(
    kept: &mut BTreeMap<u64, Brood>,
    jobs: Vec<AheadJob>,
) -> Result<(), AllocError>
    requires { All (λ j. j.outcome ≢ NotWorked) jobs.items }
    ensures kept { OnOk result (Adds jobs.items kept.old.entries kept.new.entries) }
    ensures refused { OnErr result (AddsSome jobs.items kept.old.entries kept.new.entries) }
    ensures ends_nothing { All (λ j. j.outcome ≡ Refused) jobs.items → IsOk result }
{
    for job in jobs {
        keep(kept, job)?;
    }
    Ok(())
}

/// Keeps the brood of a job, if it has one.
fn keep(kept: &mut BTreeMap<u64, Brood>, job: AheadJob) -> Result<(), AllocError>
    requires { job.outcome ≢ NotWorked }
    ensures kept { OnOk result (Adds (job ∷ []) kept.old.entries kept.new.entries) }
    ensures refused { OnErr result (kept.new.entries ≡ kept.old.entries) }
    ensures ends_nothing { job.outcome ≡ Refused → IsOk result }
{
    let AheadJob {
        number,
        state: _,
        mark: _,
        track: _,
        outcome,
    } = job;
    match outcome {
        Outcome::Made { brood } => {
            kept.insert(number, brood)?;
        }
        Outcome::Refused => {}
        Outcome::NotWorked => unreachable!(),
    }
    Ok(())
}
