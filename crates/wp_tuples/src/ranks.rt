//! An index of the single atoms and of the pairs of those atoms that have ranks.
//!
//! A table over it has words for the pairs of few atoms only. Ranks are given one after another, and no place changes with a rank that is
//! given, so the table grows at its end.
ghost use Rattle.std.specs.Prelude.{◌≡◌, ◌^◌, ◌<◌, ◌≤◌, true, length, IfOk};
ghost use Rattle.wp_tuples.specs.Placing.{AreApart};
ghost use Rattle.wp_tuples.specs.Ranking.{is_ranked, is_held, ranked, unranked, Extends, HoldsAtoms};

use crate::index::pairs_below;
use crate::places::Places;
use std::alloc::{AllocError, Global};
use std::marker::Model;

// The rank of an atom that has none.
const NONE: u32 = u32::MAX;

/// The places of the single atoms and, at width 2, of the pairs of atoms that have ranks.
#[derive(Drop)]
pub struct Ranks {
    width: u8,
    ranks: Vec<u32>,
    used: u32,
}

impl Model for Ranks {
    ghost use Rattle.wp_tuples.specs.Ranking.{Ranking, IsRanking};

    ghost Value = { Ranking };

    ghost view = { λ r. record { width = r.width; ranks = r.ranks.items; used = r.used } };

    ghost invariant = { λ r. IsRanking (record { width = r.width; ranks = r.ranks.items; used = r.used }) };
}

impl Ranks {
    /// No atom of so many has a rank. It takes 4 bytes an atom.
    pub fn new(alloc: Global, atoms: u32, width: u8) -> Result<Ranks, AllocError>
        requires atoms { atoms ≤ 2 ^ 31 }
        requires width { (1 ≤ width) × (width ≤ 2) }
        ensures { IfOk result (λ ranks. ranks ≡ unranked width atoms) }
    {
        Ok(Ranks {
            width,
            ranks: vec![in alloc; NONE; atoms as usize]?,
            used: 0,
        })
    }

    /// The same of no atoms. It takes no memory.
    pub fn of_none(alloc: Global, width: u8) -> Ranks
        requires { (1 ≤ width) × (width ≤ 2) }
        ensures { result ≡ unranked width 0 }
    {
        Ranks {
            width,
            ranks: Vec::new(alloc),
            used: 0,
        }
    }

    /// The same ranks once more.
    pub fn copy(&self) -> Result<Ranks, AllocError>
        ensures { IfOk result (λ ranks. ranks ≡ self.now) }
    {
        Ok(Ranks {
            width: self.width,
            ranks: self.ranks.clone()?,
            used: self.used,
        })
    }

    /// How many atoms there are.
    pub fn atoms(&self) -> usize
        ensures value { result ≡ length self.now.ranks }
        ensures apart { AreApart (ranked self.now) }
        ensures within { HoldsAtoms self.now }
    {
        self.ranks.len()
    }

    /// How many of them have a rank.
    pub fn used(&self) -> u32
        ensures { result ≡ self.now.used }
    {
        self.used
    }

    /// Whether the tuples of the atom are held.
    #[inline(always)]
    pub fn has(&self, p: u32) -> bool
        ensures { result ≡ is_held self.now p }
    {
        if self.width == 2 {
            return self.is_ranked(p);
        }
        (p as usize) < self.ranks.len()
    }

    #[inline(always)]
    fn is_ranked(&self, p: u32) -> bool
        ensures { result ≡ is_ranked self.now p }
    {
        match self.ranks.get(p as usize) {
            Some(rank) => *rank < self.used,
            None => false,
        }
    }

    /// Gives the atom a rank, if it has none.
    pub fn give(&mut self, p: u32)
        requires width { self.old.width ≡ 2 }
        requires atom { p < length self.old.ranks }
        requires room { self.old.used < 65536 }
        ensures given { is_held self.new p ≡ true }
        ensures extends { Extends self.old self.new }
        ensures atoms { length self.new.ranks ≡ length self.old.ranks }
    {
        if self.is_ranked(p) {
            return;
        }
        self.ranks[p as usize] = self.used;
        self.used += 1;
    }
}

impl Places for Ranks {
    ghost places = { ranked };

    fn width(&self) -> u8 {
        self.width
    }

    fn len(&self) -> u64 {
        self.ranks.len() as u64 + pairs_below(u64::from(self.used))
    }

    #[inline(always)]
    fn atom_place(&self, p: u32) -> u64 {
        // The width is at hand by this look at it: with none, no place would be within.
        let _ = &self.width;
        u64::from(p)
    }

    // Places grow with the greater rank first, so the pairs of an atom with those that got their ranks before it lie together.
    #[inline(always)]
    fn pair_place(&self, p: u32, q: u32) -> u64 {
        let one = self.ranks[p as usize];
        let other = self.ranks[q as usize];
        self.ranks.len() as u64 + pairs_below(u64::from(one.max(other))) + u64::from(one.min(other))
    }
}
