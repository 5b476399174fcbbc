//! The additive costs of a state.
ghost use Rattle.std.specs.Prelude.{◌≡◌, ◌<◌, ◌≤◌, length, slice_index, slice_index_or, IfOk, All, None, nat_lt};
ghost use Rattle.wp_task.specs.Set.{AreAtoms};
ghost use Rattle.wp_relax.specs.AdditiveCost.{infinite, price_of, finite, pricing_of};
ghost use Rattle.wp_relax.specs.RelaxedPlan.{AreActs};

use crate::frontier::{Frontier, INFINITE};
use crate::pending::Pending;
use crate::settle::settle;
use std::alloc::{AllocError, Global};
use std::marker::Model;
use wp_task::{Act, State, Task};

/// The costs of all atoms in a state, and their supporters.
#[derive(Drop)]
pub struct Costs {
    costs: Vec<u64>,
    supporters: Vec<Option<u32>>,
}

impl Model for Costs {
    ghost use Rattle.std.specs.Prelude.{◌≡◌, length};
    ghost use Rattle.wp_relax.specs.AdditiveCost.{Pricing};

    ghost Value = { Pricing };

    ghost view = { λ c. record { costs = c.costs.items; supporters = c.supporters.items } };

    ghost invariant = { λ c. length c.supporters.items ≡ length c.costs.items };
}

impl Costs {
    /// The costs and supporters of a state of the task.
    pub fn of(alloc: Global, task: &Task, s: &State) -> Result<Costs, AllocError>
        requires { length s.now ≡ task.now.atoms }
        ensures value { IfOk result (λ costs. costs ≡ pricing_of task.now.acts s.now) }
        ensures size { IfOk result (λ costs. length costs.costs ≡ task.now.atoms) }
        ensures bounded { IfOk result (λ costs. All (λ cost. cost ≤ infinite) costs.costs) }
        ensures numbers { IfOk result (λ costs. AreActs (length task.now.acts) costs.supporters) }
    {
        let mut frontier = Frontier::of(alloc, task.atoms())?;
        let mut pending = Pending::of(alloc, task.act_count())?;
        settle(&mut frontier, &mut pending, task, s)?;
        let (costs, supporters) = frontier.into_tables();
        Ok(Costs { costs, supporters })
    }

    /// The cost of an atom; None where it is infinite.
    pub fn cost(&self, p: u32) -> Option<u64>
        requires { p < length self.now.costs }
        ensures { result ≡ finite (slice_index self.now.costs p) }
    {
        let cost = self.costs[p as usize];
        if cost < INFINITE { Some(cost) } else { None }
    }

    /// The best supporter of an atom; None where it is in the state or its cost is infinite.
    pub fn supporter(&self, p: u32) -> Option<u32>
        requires { p < length self.now.costs }
        ensures { result ≡ slice_index_or self.now.supporters p None }
    {
        self.supporters[p as usize]
    }

    /// The supporters of all atoms.
    pub(crate) fn supporters(&self) -> &[Option<u32>]
        ensures { result.now ≡ self.now.supporters }
    {
        self.supporters.as_slice()
    }

    /// The costs of all atoms.
    pub(crate) fn costs(&self) -> &[u64]
        ensures { result.now ≡ self.now.costs }
    {
        self.costs.as_slice()
    }

    /// 1 and the costs of the preconditions of an action, at most infinite.
    pub(crate) fn price(&self, act: &Act) -> u64
        requires bounded { All (λ cost. cost ≤ infinite) self.now.costs }
        requires fits { AreAtoms (length self.now.costs) act.now.pre }
        ensures { result ≡ price_of self.now.costs act.now }
    {
        price(act, self.costs.as_slice())
    }
}

/// 1 and the costs of the preconditions, at most infinite.
fn price(act: &Act, costs: &[u64]) -> u64
    requires bounded { All (λ cost. cost ≤ infinite) costs.now }
    requires fits { AreAtoms (length costs.now) act.now.pre }
    ensures { result ≡ price_of costs.now act.now }
{
    let mut total = 1;
    for q in act.pre.as_slice() {
        total = INFINITE.min(total + costs[*q as usize]);
    }
    total
}
