//! The open list and what waits in it.
ghost use Rattle.std.specs.Prelude.{◌≡◌, [], map, take, IfOk, IfSome, IfNone, OnOk, OnErr};
ghost use Rattle.wp_queue.specs.OpenList.{waiting, InOrder, IsTaken, IsWith};

use std::alloc::{AllocError, Global};
use std::collections::BTreeSet;
use std::marker::Model;
use wp_edge::Numbers;

/// A generated node that waits: its novelty, its #g and its number. The order is by novelty, then by #g, and then by
/// number.
#[derive(Clone, Copy, PartialEq, Eq, PartialOrd, Ord)]
pub struct Waiting {
    pub w: u8,
    pub g: u32,
    pub number: u64,
}

/// The nodes that wait, as a set of (novelty, #g, number).
#[derive(Drop)]
pub struct Queue {
    waiting: BTreeSet<Waiting>,
}

impl Model for Queue {
    ghost use Rattle.std.specs.Prelude.{List};
    ghost use Rattle.wp_queue.specs.declared.queue.Waiting.{Waiting};

    ghost Value = { List Waiting };

    ghost view = { λ q. q.waiting.keys };
}

impl Queue {
    /// The open list in which nothing waits.
    pub fn new(alloc: Global) -> Queue
        ensures { result ≡ [] }
    {
        Queue {
            waiting: BTreeSet::new(alloc),
        }
    }

    /// Lets a node wait. Where memory is refused the list is as before.
    pub fn put(&mut self, w: u8, g: u32, number: u64) -> Result<(), AllocError>
        ensures put { OnOk result (IsWith self.old (waiting w g number) self.new) }
        ensures refused { OnErr result (self.new ≡ self.old) }
    {
        self.waiting.insert(Waiting { w, g, number })?;
        Ok(())
    }

    /// Takes out the first node, and gives its number; nothing where no node waits.
    pub fn take(&mut self) -> Option<u64>
        ensures taken { IfSome result (IsTaken self.old self.new) }
        ensures empty { IfNone result ((self.old ≡ []) × (self.new ≡ [])) }
    {
        let first = self.waiting.pop_first()?;
        Some(first.number)
    }

    /// The numbers of the first `n` nodes in order, or of all where fewer wait.
    pub fn first(&self, alloc: Global, n: u32) -> Result<Numbers, AllocError>
        ensures numbers { IfOk result (λ numbers. numbers ≡ map (λ x. x.number) (take n self.now)) }
        ensures order { InOrder self.now }
    {
        Ok(Numbers::of_vec(front(alloc, &self.waiting, n)?))
    }
}

/// The numbers of the first `n` nodes of a set, or of all where it has fewer.
fn front(alloc: Global, waiting: &BTreeSet<Waiting>, n: u32) -> Result<Vec<u64>, AllocError>
    ensures numbers { IfOk result (λ numbers. numbers.items ≡ map (λ x. x.number) (take n waiting.now.keys)) }
    ensures order { InOrder waiting.now.keys }
{
    waiting
        .iter()
        .take(n as usize)
        .map(|x| x.number)
        .collect(alloc)
}
