//! The front of the open list: whose broods stay, and which nodes get a job.
ghost use Rattle.std.specs.Prelude.{◌≡◌, ℕ, [], ◌∷◌, map, All, IfOk, OnOk, OnErr};
ghost use Rattle.std.specs.BTreeSet.{contains};
ghost use Rattle.std.specs.Ordering.{nat_cmp};
ghost use Rattle.wp_task.specs.Set.{lists};
ghost use Rattle.wp_nodes.specs.KeptNodes.{IsKept};
ghost use Rattle.wp_ahead.specs.Jobs.{IsJobOf};
ghost use Rattle.wp_ahead.specs.KeptBroods.{KeepsOnly, without_brood, AddsJobs};

use crate::job::{AheadJob, Outcome};
use std::alloc::{AllocError, Global};
use std::collections::{BTreeMap, BTreeSet};
use wp_count::Brood;
use wp_nodes::Nodes;

/// Drops each brood whose number is not among these. Where memory is refused none is dropped.
pub(crate) fn keep_only(
    alloc: Global,
    kept: &mut BTreeMap<u64, Brood>,
    numbers: &[u64],
) -> Result<(), AllocError>
    ensures kept { OnOk result (KeepsOnly numbers.now kept.old.entries kept.new.entries) }
    ensures refused { OnErr result (kept.new.entries ≡ kept.old.entries) }
{
    if kept.is_empty() {
        return Ok(());
    }
    let numbers = set_of(alloc, numbers)?;
    kept.retain(|number, _| numbers.contains(number));
    Ok(())
}

/// The numbers as a set.
fn set_of(alloc: Global, numbers: &[u64]) -> Result<BTreeSet<u64>, AllocError>
    ensures { IfOk result (λ set. (n : ℕ) → contains nat_cmp set n ≡ lists numbers.now n) }
{
    let mut set = BTreeSet::new(alloc);
    for number in numbers {
        set.insert(*number)?;
    }
    Ok(set)
}

/// A job for each of the numbers under which no brood is kept.
pub(crate) fn jobs_for(
    alloc: Global,
    kept: &BTreeMap<u64, Brood>,
    nodes: &Nodes,
    numbers: &[u64],
) -> Result<Vec<AheadJob>, AllocError>
    requires { All (IsKept nodes.now.kept) numbers.now }
    ensures numbers { IfOk result (λ jobs. map (λ j. j.number) jobs.items ≡ without_brood kept.now.entries numbers.now) }
    ensures jobs { IfOk result (λ jobs. All (IsJobOf nodes.now) jobs.items) }
{
    let mut jobs = Vec::new(alloc);
    for number in numbers {
        add_job(alloc, kept, nodes, *number, &mut jobs)?;
    }
    Ok(jobs)
}

/// Adds a job for the number, unless a brood is kept under it.
fn add_job(
    alloc: Global,
    kept: &BTreeMap<u64, Brood>,
    nodes: &Nodes,
    number: u64,
    jobs: &mut Vec<AheadJob>,
) -> Result<(), AllocError>
    requires { IsKept nodes.now.kept number }
    ensures { OnOk result (AddsJobs kept.now.entries nodes.now (number ∷ []) jobs.old.items jobs.new.items) }
{
    if kept.contains_key(&number) {
        return Ok(());
    }
    let job = job_of(alloc, nodes, number)?;
    jobs.push(job)?;
    Ok(())
}

/// The job of a kept node, which is not worked yet.
fn job_of(alloc: Global, nodes: &Nodes, number: u64) -> Result<AheadJob, AllocError>
    requires { IsKept nodes.now.kept number }
    ensures number { IfOk result (λ job. job.number ≡ number) }
    ensures job { IfOk result (IsJobOf nodes.now) }
{
    let node = match nodes.get(number) {
        Some(node) => node,
        None => unreachable!(),
    };
    Ok(AheadJob {
        number,
        state: node.state.copy(alloc)?,
        mark: node.mark.copy(alloc)?,
        track: nodes.track(node.mark.track).copy(alloc)?,
        outcome: Outcome::NotWorked,
    })
}
