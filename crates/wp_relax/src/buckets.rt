//! Atoms that wait at their costs, the least cost first.
//!
//! Each of the small costs has a bucket of its own, after Dial (Communications of the ACM 12, 1969), so that an atom comes
//! and goes in constant time; greater costs, which are few, lie in a heap. A mark says below which cost all buckets are
//! empty: it falls where an atom comes at a lower cost, so nothing is supposed of the order in which atoms come.
ghost use Rattle.std.specs.Prelude.{◌≡◌, ◌++◌, ◌∷◌, [], ◌≤◌, ◌<◌, ℕ, length, replicate, slice_index_or, All, IfOk, IfSome, IfNone, OnOk, OnErr};
ghost use Rattle.std.specs.List.Sorted.{IsPermutation};
ghost use Rattle.wp_relax.specs.Buckets.{bucket_count, waiting_at};

use std::alloc::{AllocError, Global};
use std::cmp::Reverse;
use std::collections::BinaryHeap;
use std::marker::Model;

/// How many costs have a bucket, from 0 on.
const BUCKETS: usize = 256;

/// The atoms that wait at one cost.
#[derive(Drop)]
struct Bucket {
    atoms: Vec<u32>,
}

impl Model for Bucket {
    ghost use Rattle.std.specs.Prelude.{List, ℕ};

    ghost Value = { List ℕ };

    ghost view = { λ b. b.atoms.items };
}

impl Bucket {
    fn new(alloc: Global) -> Bucket
        ensures { result ≡ [] }
    {
        Bucket {
            atoms: Vec::new(alloc),
        }
    }

    fn push(&mut self, p: u32) -> Result<(), AllocError>
        ensures added { OnOk result (self.new ≡ self.old ++ p ∷ []) }
        ensures refused { OnErr result (self.new ≡ self.old) }
    {
        self.atoms.push(p)?;
        Ok(())
    }

    fn pop(&mut self) -> Option<u32>
        ensures taken { IfSome result (λ p. self.old ≡ self.new ++ p ∷ []) }
        ensures empty { IfNone result (self.old ≡ []) }
        ensures kept { IfNone result (self.new ≡ []) }
    {
        self.atoms.pop()
    }

    fn clear(&mut self)
        ensures { self.new ≡ [] }
    {
        self.atoms.clear();
    }
}

/// Atoms with the costs that they wait at.
#[derive(Drop)]
pub(crate) struct Buckets {
    buckets: Vec<Bucket>,
    least: usize,
    far: BinaryHeap<Reverse<(u64, u32)>>,
}

impl Model for Buckets {
    ghost use Rattle.std.specs.Prelude.{List, ◌++◌};
    ghost use Rattle.std.specs.BinaryHeap.{heap_items};
    ghost use Rattle.wp_relax.specs.Buckets.{Waiting, in_buckets, AreBuckets};

    ghost Value = { List Waiting };

    ghost view = { λ b. in_buckets 0 b.buckets.items ++ heap_items b.far };

    ghost invariant = { λ b. AreBuckets b.buckets.items b.least (heap_items b.far) };
}

impl Buckets {
    /// No atom waits.
    pub(crate) fn new(alloc: Global) -> Result<Buckets, AllocError>
        ensures { IfOk result (λ buckets. buckets ≡ []) }
    {
        let buckets = empty_buckets(alloc)?;
        Ok(Buckets {
            buckets,
            least: BUCKETS,
            far: BinaryHeap::new(alloc),
        })
    }

    /// No atom waits any more.
    pub(crate) fn clear(&mut self)
        ensures { self.new ≡ [] }
    {
        clear_from(&mut self.buckets, self.least);
        self.least = BUCKETS;
        self.far.clear();
    }

    /// An atom waits at a cost.
    pub(crate) fn push(&mut self, cost: u64, p: u32) -> Result<(), AllocError>
        ensures added { OnOk result (IsPermutation (waiting_at cost p ∷ self.old) self.new) }
        ensures refused { OnErr result (self.new ≡ self.old) }
    {
        if cost >= BUCKETS as u64 {
            self.far.push(Reverse((cost, p)))?;
            return Ok(());
        }
        let place = cost as usize;
        self.buckets[place].push(p)?;
        self.least = self.least.min(place);
        Ok(())
    }

    /// Takes out an atom of least cost, with the cost; None where none waits.
    pub(crate) fn pop(&mut self) -> Option<(u64, u32)>
        ensures taken { IfSome result (λ first. IsPermutation self.old (waiting_at first.0 first.1 ∷ self.new)) }
        ensures least { IfSome result (λ first. All (λ w. first.0 ≤ w.0.0) self.old) }
        ensures empty { IfNone result (self.old ≡ []) }
        ensures kept { IfNone result (self.new ≡ []) }
    {
        while self.least < BUCKETS {
            if let Some(p) = self.buckets[self.least].pop() {
                return Some((self.least as u64, p));
            }
            self.least += 1;
        }
        if let Some(first) = self.far.pop() {
            return Some(first.0);
        }
        None
    }
}

fn empty_buckets(alloc: Global) -> Result<Vec<Bucket>, AllocError>
    ensures { IfOk result (λ buckets. buckets.items ≡ replicate bucket_count []) }
{
    let mut buckets = Vec::with_capacity(alloc, BUCKETS)?;
    for _cost in 0..BUCKETS {
        buckets.push(Bucket::new(alloc))?;
    }
    Ok(buckets)
}

/// Empties the buckets from a place on.
fn clear_from(buckets: &mut Vec<Bucket>, first: usize)
    requires { (i : ℕ) → i < first → slice_index_or buckets.old.items i [] ≡ [] }
    ensures { buckets.new.items ≡ replicate (length buckets.old.items) [] }
{
    for i in first..buckets.len() {
        buckets[i].clear();
    }
}
