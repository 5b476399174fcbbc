//! The work of a job.
ghost use Rattle.std.specs.Prelude.{IsTrue};
ghost use Rattle.wp_ahead.specs.Jobs.{CanWork, IsWorked};

use crate::job::{AheadJob, Outcome};
use std::alloc::{AllocError, Global};
use wp_count::brood_of;
use wp_edge::{Gate, JobName};
use wp_succ::Successors;
use wp_task::Task;

/// Passes the gate and makes the brood of the job's node, or says that memory was refused: then the search makes the brood
/// itself, when the node is taken.
pub fn work<S: Successors, G: Gate>(
    alloc: Global,
    job: &mut AheadJob,
    task: &Task,
    succ: &S,
    gate: &G,
)
    requires job { CanWork task.now job.old }
    requires serves { IsTrue (S.serves succ.now task.now) }
    ensures { IsWorked task.now job.old job.new }
{
    gate.pass(JobName::Ahead { number: job.number });
    let made = brood_of(
        alloc, task, succ, job.number, &job.state, &job.mark, &job.track,
    );
    job.outcome = match made {
        Ok(brood) => Outcome::Made { brood },
        Err(AllocError) => Outcome::Refused,
    };
}
