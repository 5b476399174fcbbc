//! For each action what is left of its preconditions, while atoms are settled.
ghost use Rattle.std.specs.Prelude.{◌≡◌, ◌+◌, ◌-◌, ◌<◌, ◌≤◌, min, length, map, replicate, slice_index, slice_set, IfOk};
ghost use Rattle.wp_relax.specs.AdditiveCost.{infinite};

use crate::frontier::INFINITE;
use std::alloc::{AllocError, Global};
use wp_task::Task;

/// How many preconditions of each action are not settled, and 1 and the costs of those that are, at most infinite.
#[derive(Drop)]
pub(crate) struct Pending {
    pub(crate) left: Vec<u32>,
    pub(crate) prices: Vec<u64>,
}

impl Pending {
    /// Room for so many actions.
    pub(crate) fn of(alloc: Global, acts: u32) -> Result<Pending, AllocError>
        ensures left { IfOk result (λ pending. length pending.left.items ≡ acts) }
        ensures prices { IfOk result (λ pending. length pending.prices.items ≡ acts) }
    {
        let left = vec![in alloc; 0u32; acts as usize]?;
        let prices = vec![in alloc; 1u64; acts as usize]?;
        Ok(Pending { left, prices })
    }

    /// Nothing is settled.
    pub(crate) fn reset(&mut self, task: &Task)
        requires left { length self.old.left.items ≡ length task.now.acts }
        requires prices { length self.old.prices.items ≡ length task.now.acts }
        ensures left { self.new.left.items ≡ map (λ act. length act.pre) task.now.acts }
        ensures prices { self.new.prices.items ≡ replicate (length task.now.acts) 1 }
    {
        self.left.copy_from_slice(task.need_counts());
        self.prices.fill(1);
    }

    /// A precondition of an action is settled at a cost.
    pub(crate) fn settle(&mut self, a: u32, cost: u64)
        requires left { a < length self.old.left.items }
        requires price { a < length self.old.prices.items }
        requires waits { 0 < slice_index self.old.left.items a }
        requires bounded { slice_index self.old.prices.items a ≤ infinite }
        requires cost { cost ≤ infinite }
        ensures left { self.new.left.items ≡ slice_set self.old.left.items a (slice_index self.old.left.items a - 1) }
        ensures prices { self.new.prices.items ≡ slice_set self.old.prices.items a (min infinite (slice_index self.old.prices.items a + cost)) }
    {
        self.left[a as usize] -= 1;
        let price = self.prices[a as usize];
        self.prices[a as usize] = INFINITE.min(price + cost);
    }
}
