//! The costs of atoms while they are settled, the nearest first.
//!
//! Each cost that an atom was given waits. Costs only fall, so the first that comes out for an atom is the one that it
//! has; those that come later, when it is settled, are dropped.
ghost use Rattle.std.specs.Prelude.{◌≡◌, ◌==◌, ◌<◌, ℕ, false, true, replicate, length, slice_index, slice_set, None, IfOk, IfSome, IfNone, OnOk, if◌then◌else◌};
ghost use Rattle.wp_relax.specs.AdditiveCost.{infinite};
ghost use Rattle.wp_relax.specs.Frontier.{IsNearest, IsSpent, offered_to, better, preferred};

use crate::buckets::Buckets;
use std::alloc::{AllocError, Global};
use std::marker::Model;

/// An infinite cost.
pub(crate) const INFINITE: u64 = 1 << 60;

/// The costs and supporters of the atoms so far, and which of them are settled.
#[derive(Drop)]
pub(crate) struct Frontier {
    costs: Vec<u64>,
    supporters: Vec<Option<u32>>,
    settled: Vec<bool>,
    waiting: Buckets,
}

impl Model for Frontier {
    ghost use Rattle.std.specs.Prelude.{◌≡◌, length};
    ghost use Rattle.wp_relax.specs.Frontier.{Front, IsFrontier};

    ghost Value = { Front };

    ghost view = { λ f. record { costs = f.costs.items; supporters = f.supporters.items; settled = f.settled.items } };

    ghost invariant = { λ f. (length f.supporters.items ≡ length f.costs.items) × IsFrontier f.costs.items f.settled.items f.waiting };
}

impl Frontier {
    /// Room for so many atoms.
    pub(crate) fn of(alloc: Global, atoms: u32) -> Result<Frontier, AllocError>
        ensures { IfOk result (λ frontier. length frontier.costs ≡ atoms) }
    {
        let costs = vec![in alloc; INFINITE; atoms as usize]?;
        let supporters = vec![in alloc; None; atoms as usize]?;
        let settled = vec![in alloc; false; atoms as usize]?;
        let waiting = Buckets::new(alloc)?;
        Ok(Frontier {
            costs,
            supporters,
            settled,
            waiting,
        })
    }

    /// No atom has a finite cost or a supporter, and none is settled.
    pub(crate) fn reset(&mut self)
        ensures costs { self.new.costs ≡ replicate (length self.old.costs) infinite }
        ensures supporters { self.new.supporters ≡ replicate (length self.old.costs) None }
        ensures settled { self.new.settled ≡ replicate (length self.old.costs) false }
    {
        self.waiting.clear();
        self.costs.fill(INFINITE);
        self.supporters.fill(None);
        self.settled.fill(false);
    }

    /// An atom of the state costs nothing.
    pub(crate) fn put(&mut self, p: u32, there: bool) -> Result<(), AllocError>
        requires { p < length self.old.costs }
        ensures costs { OnOk result (self.new.costs ≡ slice_set self.old.costs p (if there then 0 else slice_index self.old.costs p)) }
        ensures supporters { self.new.supporters ≡ self.old.supporters }
        ensures settled { self.new.settled ≡ self.old.settled }
        ensures size { length self.new.costs ≡ length self.old.costs }
    {
        if there && self.costs[p as usize] > 0 {
            self.lower(p, 0)?;
        }
        Ok(())
    }

    /// An action offers a price for an atom: the cost is the less of both, and of the actions that offer it the least number
    /// supports the atom.
    pub(crate) fn offer(&mut self, p: u32, a: u32, price: u64) -> Result<(), AllocError>
        requires { p < length self.old.costs }
        ensures offers { OnOk result ((q : ℕ) → offered_to self.new q ≡ (if p == q then better (offered_to self.old q) a price else offered_to self.old q)) }
        ensures settled { self.new.settled ≡ self.old.settled }
        ensures size { length self.new.costs ≡ length self.old.costs }
        ensures room { length self.new.supporters ≡ length self.old.supporters }
    {
        let cost = self.costs[p as usize];
        if price < cost {
            self.lower(p, price)?;
            self.supporters[p as usize] = Some(a);
        } else if price == cost {
            self.supporters[p as usize] = preferred(self.supporters[p as usize], a);
        }
        Ok(())
    }

    /// An atom gets a lower cost.
    fn lower(&mut self, p: u32, price: u64) -> Result<(), AllocError>
        requires atom { p < length self.old.costs }
        requires less { price < slice_index self.old.costs p }
        ensures costs { OnOk result (self.new.costs ≡ slice_set self.old.costs p price) }
        ensures supporters { self.new.supporters ≡ self.old.supporters }
        ensures settled { self.new.settled ≡ self.old.settled }
        ensures size { length self.new.costs ≡ length self.old.costs }
    {
        self.waiting.push(price, p)?;
        self.costs[p as usize] = price;
        Ok(())
    }

    /// Settles an atom of least cost; None where no atom that is not settled has a finite one.
    pub(crate) fn settle_nearest(&mut self) -> Option<u32>
        ensures costs { self.new.costs ≡ self.old.costs }
        ensures supporters { self.new.supporters ≡ self.old.supporters }
        ensures nearest { IfSome result (IsNearest self.old.costs self.old.settled) }
        ensures settled { IfSome result (λ p. self.new.settled ≡ slice_set self.old.settled p true) }
        ensures spent { IfNone result (IsSpent self.old.costs self.old.settled) }
        ensures kept { IfNone result (self.new.settled ≡ self.old.settled) }
    {
        while let Some(first) = self.waiting.pop() {
            let p = first.1;
            if !self.settled[p as usize] {
                self.settled[p as usize] = true;
                return Some(p);
            }
        }
        None
    }

    /// The cost of an atom so far.
    pub(crate) fn cost(&self, p: u32) -> u64
        requires { p < length self.now.costs }
        ensures { result ≡ slice_index self.now.costs p }
    {
        self.costs[p as usize]
    }

    /// The costs so far.
    pub(crate) fn costs(&self) -> &[u64]
        ensures { result.now ≡ self.now.costs }
    {
        self.costs.as_slice()
    }

    /// The supporters so far.
    pub(crate) fn supporters(&self) -> &[Option<u32>]
        ensures { result.now ≡ self.now.supporters }
    {
        self.supporters.as_slice()
    }

    /// The costs and the supporters, once they are settled.
    pub(crate) fn into_tables(self) -> (Vec<u64>, Vec<Option<u32>>)
        ensures costs { result.0.items ≡ self.costs }
        ensures supporters { result.1.items ≡ self.supporters }
    {
        let Frontier {
            costs,
            supporters,
            settled: _,
            waiting: _,
        } = self;
        (costs, supporters)
    }
}

/// The supporter where an equal price is offered.
fn preferred(supporter: Option<u32>, a: u32) -> Option<u32>
    ensures { result ≡ preferred supporter a }
{
    match supporter {
        Some(b) => Some(a.min(b)),
        None => None,
    }
}
