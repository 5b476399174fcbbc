//! The laws of broods and jobs, each on a function of its own.
ghost use Rattle.wp_ahead.specs.Laws.{FitOn, JobsCanBeWorked, WorkFits};

use crate::broods::Broods;
use crate::job::AheadJob;

/// Broods that fit the nodes of a search fit them where nodes and tracks are added.
pub fn broods_go_on_fitting()
    ensures { FitOn }
{}

/// The jobs of kept nodes can be worked, where what is kept of each node can stand for its state.
pub fn jobs_can_be_worked()
    ensures { JobsCanBeWorked }
{}

/// A job for a kept node has the brood of that node once it was worked, or none.
pub fn worked_jobs_fit()
    ensures { WorkFits }
{}

/// Asks of a type that its values may be given to another thread, and be looked at by several.
fn is_sent<T: Send + Sync>(_: &T) {}

/// A job is worked in any thread. Where a part of one may not go there, this is refused.
pub fn jobs_are_sent(job: &AheadJob, broods: &Broods) {
    is_sent(job);
    is_sent(broods);
}
