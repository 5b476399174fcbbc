//! The broods that are kept.
ghost use Rattle.std.specs.Prelude.{◌≡◌, ◌≢◌, ◌≤◌, [], length, map, All, IfOk, IfSome, IsOk, OnOk, OnErr};
ghost use Rattle.wp_task.specs.Task.{PlanningTask};
ghost use Rattle.wp_nodes.specs.KeptNodes.{Keeping, IsKept};
ghost use Rattle.wp_ahead.specs.declared.job.Outcome.TheVariants.{NotWorked, Refused};
ghost use Rattle.wp_ahead.specs.Jobs.{IsJobOf, IsJobFor};
ghost use Rattle.wp_ahead.specs.KeptBroods.{brood_under, front, without_brood, KeepsOnly, AreAmong, Adds, AddsSome, IsWithout, IsBroodAt, Fit};

use crate::front::{jobs_for, keep_only};
use crate::job::AheadJobs;
use crate::made::keep_all;
use std::alloc::{AllocError, Global};
use std::collections::BTreeMap;
use std::marker::Model;
use wp_count::Brood;
use wp_nodes::Nodes;
use wp_queue::Queue;

/// Broods by the numbers of their nodes, which wait.
#[derive(Drop)]
pub struct Broods {
    kept: BTreeMap<u64, Brood>,
}

impl Model for Broods {
    ghost use Rattle.wp_ahead.specs.KeptBroods.{KeptBroods};

    ghost Value = { KeptBroods };

    ghost view = { λ b. b.kept.entries };
}

impl Broods {
    /// No brood is kept.
    pub fn new(alloc: Global) -> Broods
        ensures value { result ≡ [] }
        ensures fits { (task : PlanningTask) (nodes : Keeping) → Fit task nodes result }
    {
        Broods {
            kept: BTreeMap::new(alloc),
        }
    }

    /// Drops the broods of nodes that are not among the first `ahead` of the open list, and gives a job for each of these
    /// nodes that has no brood. Where memory is refused some broods may be gone.
    pub fn jobs(
        &mut self,
        alloc: Global,
        queue: &Queue,
        nodes: &Nodes,
        ahead: u32,
    ) -> Result<AheadJobs, AllocError>
        requires { All (λ x. IsKept nodes.now.kept x.number) queue.now }
        ensures kept { OnOk result (KeepsOnly (front queue.now ahead) self.old self.new) }
        ensures numbers { IfOk result (λ jobs. map (λ j. j.number) jobs ≡ without_brood self.new (front queue.now ahead)) }
        ensures jobs { IfOk result (λ jobs. All (IsJobOf nodes.now) jobs) }
        ensures few { IfOk result (λ jobs. length jobs ≤ ahead) }
        ensures refused { OnErr result (AreAmong self.old self.new) }
        ensures fits { (task : PlanningTask) (at : Keeping) → Fit task at self.old → Fit task at self.new }
    {
        let numbers = queue.first(alloc, ahead)?;
        keep_only(alloc, &mut self.kept, numbers.as_slice())?;
        let jobs = jobs_for(alloc, &self.kept, nodes, numbers.as_slice())?;
        Ok(AheadJobs::of_vec(jobs))
    }

    /// Keeps the broods that the jobs made, each under its number. Where memory is refused some of them are kept. A job that was refused
    /// ends nothing: its node is evaluated when it is taken.
    pub fn keep(&mut self, jobs: AheadJobs) -> Result<(), AllocError>
        requires { All (λ j. j.outcome ≢ NotWorked) jobs }
        ensures kept { OnOk result (Adds jobs self.old self.new) }
        ensures refused { OnErr result (AddsSome jobs self.old self.new) }
        ensures ends_nothing { All (λ j. j.outcome ≡ Refused) jobs → IsOk result }
        ensures fits { (task : PlanningTask) (nodes : Keeping) → Fit task nodes self.old → All (IsJobFor task nodes) jobs → Fit task nodes self.new }
    {
        keep_all(&mut self.kept, jobs.into_vec())
    }

    /// Takes the brood of a node out; nothing where none is kept.
    pub fn take(&mut self, number: u64) -> Option<Brood>
        ensures taken { result ≡ brood_under self.old number }
        ensures rest { IsWithout number self.old self.new }
        ensures brood { (task : PlanningTask) (nodes : Keeping) → Fit task nodes self.old → IfSome result (IsBroodAt task nodes number) }
        ensures fits { (task : PlanningTask) (nodes : Keeping) → Fit task nodes self.old → Fit task nodes self.new }
    {
        self.kept.remove(&number)
    }
}
