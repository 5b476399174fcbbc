//! The costs of atoms, settled one after another.
//!
//! An atom of least cost is settled, then the actions that it was the last precondition of offer their prices to what
//! they add: Knuth's generalization of Dijkstra's algorithm (Information Processing Letters 6, 1977), in which each
//! precondition and each add effect is looked at once. The rival, rounds until nothing changes, looks at all of them in
//! each round. A price is above the costs that it is the sum of, so what is settled stays.
ghost use Rattle.std.specs.Prelude.{◌≡◌, ◌==◌, ◌&&◌, ◌+◌, ◌-◌, ◌<◌, ◌≤◌, ℕ, min, length, replicate, slice_index, IfOk, OnOk, All, if◌then◌else◌};
ghost use Rattle.std.specs.List.{range_with_len};
ghost use Rattle.std.specs.List.Sorted.{IsStrictlyIncreasing};
ghost use Rattle.wp_task.specs.Set.{has, lists, AreAtoms};
ghost use Rattle.wp_task.specs.Task.{act_at};
ghost use Rattle.wp_relax.specs.AdditiveCost.{infinite, costs_of, supporters_of};
ghost use Rattle.wp_relax.specs.Frontier.{offered_to, better, after_offer, after_offers};

use crate::frontier::Frontier;
use crate::pending::Pending;
use std::alloc::AllocError;
use wp_task::{State, Task};

/// Settles the costs and the supporters of all atoms in a state. Nothing of what was settled before is left.
pub(crate) fn settle(
    frontier: &mut Frontier,
    pending: &mut Pending,
    task: &Task,
    s: &State,
) -> Result<(), AllocError>
    requires state { length s.now ≡ task.now.atoms }
    requires atoms { length frontier.old.costs ≡ task.now.atoms }
    requires left { length pending.old.left.items ≡ length task.now.acts }
    requires prices { length pending.old.prices.items ≡ length task.now.acts }
    ensures costs { OnOk result (frontier.new.costs ≡ costs_of task.now.acts s.now) }
    ensures supporters { OnOk result (frontier.new.supporters ≡ supporters_of task.now.acts s.now (costs_of task.now.acts s.now)) }
    ensures atoms { length frontier.new.costs ≡ length frontier.old.costs }
    ensures left { length pending.new.left.items ≡ length pending.old.left.items }
    ensures prices { length pending.new.prices.items ≡ length pending.old.prices.items }
{
    frontier.reset();
    pending.reset(task);
    put_state(frontier, s, task.atoms())?;
    offer_all(frontier, task, pending)?;
    while let Some(p) = frontier.settle_nearest() {
        let acts = task.needers(p);
        let cost = frontier.cost(p);
        settle_needers(frontier, pending, task, acts, cost)?;
    }
    Ok(())
}

/// The atoms of a state cost 0.
fn put_state(frontier: &mut Frontier, s: &State, atoms: u32) -> Result<(), AllocError>
    requires size { length s.now ≡ atoms }
    requires reset { frontier.old.costs ≡ replicate atoms infinite }
    ensures costs { OnOk result ((p : ℕ) → p < length s.now → slice_index frontier.new.costs p ≡ (if has s.now p then 0 else infinite)) }
    ensures supporters { frontier.new.supporters ≡ frontier.old.supporters }
    ensures settled { frontier.new.settled ≡ frontier.old.settled }
    ensures size { length frontier.new.costs ≡ length frontier.old.costs }
{
    for p in 0..atoms {
        frontier.put(p, s.has(p))?;
    }
    Ok(())
}

/// Each action offers its price, where it has no precondition.
fn offer_all(frontier: &mut Frontier, task: &Task, pending: &Pending) -> Result<(), AllocError>
    requires size { length frontier.old.costs ≡ task.now.atoms }
    requires left { length pending.now.left.items ≡ length task.now.acts }
    requires prices { length pending.now.prices.items ≡ length task.now.acts }
    ensures offers { OnOk result ((p : ℕ) → offered_to frontier.new p ≡ after_offers task.now.acts pending.now.left.items pending.now.prices.items (range_with_len 0 (length task.now.acts)) p (offered_to frontier.old p)) }
    ensures settled { frontier.new.settled ≡ frontier.old.settled }
    ensures size { length frontier.new.costs ≡ length frontier.old.costs }
    ensures room { length frontier.new.supporters ≡ length frontier.old.supporters }
{
    for a in 0..task.act_count() {
        offer(frontier, task, pending, a)?;
    }
    Ok(())
}

/// A precondition of the actions is settled at a cost, and those of which none is left offer their prices.
fn settle_needers(
    frontier: &mut Frontier,
    pending: &mut Pending,
    task: &Task,
    acts: &[u32],
    cost: u64,
) -> Result<(), AllocError>
    requires atoms { length frontier.old.costs ≡ task.now.atoms }
    requires size { length pending.old.left.items ≡ length task.now.acts }
    requires room { length pending.old.prices.items ≡ length task.now.acts }
    requires rising { IsStrictlyIncreasing acts.now }
    requires numbers { All (λ a. a < length task.now.acts) acts.now }
    requires waits { All (λ a. 0 < slice_index pending.old.left.items a) acts.now }
    requires bounded { All (λ price. price ≤ infinite) pending.old.prices.items }
    requires cost { cost ≤ infinite }
    ensures left { OnOk result ((a : ℕ) → slice_index pending.new.left.items a ≡ (if lists acts.now a then slice_index pending.old.left.items a - 1 else slice_index pending.old.left.items a)) }
    ensures prices { OnOk result ((a : ℕ) → slice_index pending.new.prices.items a ≡ (if lists acts.now a then min infinite (slice_index pending.old.prices.items a + cost) else slice_index pending.old.prices.items a)) }
    ensures lefts { length pending.new.left.items ≡ length pending.old.left.items }
    ensures sizes { length pending.new.prices.items ≡ length pending.old.prices.items }
    ensures offers { OnOk result ((p : ℕ) → offered_to frontier.new p ≡ after_offers task.now.acts pending.new.left.items pending.new.prices.items acts.now p (offered_to frontier.old p)) }
    ensures settled { frontier.new.settled ≡ frontier.old.settled }
    ensures costs { length frontier.new.costs ≡ length frontier.old.costs }
    ensures supporters { length frontier.new.supporters ≡ length frontier.old.supporters }
{
    for a in acts {
        pending.settle(*a, cost);
        offer(frontier, task, pending, *a)?;
    }
    Ok(())
}

/// An action offers its price for what it adds, where no precondition is left.
fn offer(frontier: &mut Frontier, task: &Task, pending: &Pending, a: u32) -> Result<(), AllocError>
    requires size { length frontier.old.costs ≡ task.now.atoms }
    requires left { length pending.now.left.items ≡ length task.now.acts }
    requires prices { length pending.now.prices.items ≡ length task.now.acts }
    requires number { a < length task.now.acts }
    ensures offers { OnOk result ((p : ℕ) → offered_to frontier.new p ≡ after_offer task.now.acts pending.now.left.items pending.now.prices.items p (offered_to frontier.old p) a) }
    ensures settled { frontier.new.settled ≡ frontier.old.settled }
    ensures size { length frontier.new.costs ≡ length frontier.old.costs }
    ensures room { length frontier.new.supporters ≡ length frontier.old.supporters }
{
    if pending.left[a as usize] == 0 {
        offer_price(frontier, task.add(a), a, pending.prices[a as usize])?;
    }
    Ok(())
}

fn offer_price(frontier: &mut Frontier, atoms: &[u32], a: u32, price: u64) -> Result<(), AllocError>
    requires { AreAtoms (length frontier.old.costs) atoms.now }
    ensures offers { OnOk result ((p : ℕ) → offered_to frontier.new p ≡ (if lists atoms.now p then better (offered_to frontier.old p) a price else offered_to frontier.old p)) }
    ensures settled { frontier.new.settled ≡ frontier.old.settled }
    ensures size { length frontier.new.costs ≡ length frontier.old.costs }
    ensures room { length frontier.new.supporters ≡ length frontier.old.supporters }
{
    for p in atoms {
        frontier.offer(*p, a, price)?;
    }
    Ok(())
}
