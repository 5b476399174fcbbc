//! The tables.
ghost use Rattle.std.specs.Prelude.{◌≡◌, ◌≢◌, ℕ, ◌+◌, ◌*◌, ◌^◌, ◌<◌, ◌≤◌, [], ◌∷◌, ◌++◌, min, List, true, false, None, Err, length, All, Contains, OnOk, OnErr, IfOk, IfSome};
ghost use Rattle.std.specs.List.{AllPairs};
ghost use Rattle.wp_task.specs.Novelty.{Generated, novelty_of};
ghost use Rattle.wp_tuples.specs.Placing.{AreApart};
ghost use Rattle.wp_novel.specs.Births.{nodes_of};
ghost use Rattle.wp_novel.specs.MarkedTuples.{AreCounted};
ghost use Rattle.wp_novel.specs.NoveltyTables.{placed, counters_of, open_pairs, is_open, IsOpen, IsOpened, IsAtHome, home_of};
ghost use Rattle.wp_novel.specs.StandsFor.{last_after, StandsFor, AreMarkedBelow};
ghost use Rattle.wp_novel.specs.Jobs.{births_of, worked_job, IsReady, IsJobOf, AreOut, AreDealt, AreCollected};

use crate::birth::{Birth, Births, Pair};
use crate::deal::{fill_all, join_all, numbers_of, shares_of};
use crate::error::PairError;
use crate::grow::{grow_all, growths_for};
use crate::home::Home;
use crate::job::{MarkJob, MarkJobs};
use crate::marks::mark_job;
use indexmap::IndexMap;
use std::alloc::{AllocError, Global};
use std::marker::Model;
use std::mem::replace;
use wp_edge::{Gate, JobName};
use wp_tuples::Places;

/// Novelty tables over the tuples of an index. Each pair has words for the tuples of those atoms that came true in it.
#[derive(Drop)]
pub struct Tables<P: Places> {
    alloc: Global,
    index: P,
    limit: u64,
    homes: IndexMap<Pair, Home>,
    last: Option<u64>,
    out: Vec<u64>,
    // Room for the births that are in jobs, so that to collect them takes no memory.
    back: Vec<Birth>,
}

impl<P: Places> Model for Tables<P> {
    ghost use Rattle.std.specs.Prelude.{◌≡◌, ◌≤◌, length, []};
    ghost use Rattle.std.specs.Vec.{vec_capacity};
    ghost use Rattle.wp_novel.specs.NoveltyTables.{TablesOver, AreFilled};

    ghost Value = { TablesOver P };

    ghost view = { λ t. record { index = t.index; limit = t.limit; homes = t.homes.entries; last = t.last; out = t.out.items } };

    ghost invariant = { λ t. AreFilled (record { index = P.places t.index; limit = t.limit; homes = t.homes.entries; last = t.last; out = t.out.items })
        × (t.back.items ≡ []) × (length t.out.items ≤ vec_capacity t.back) };
}

impl<P: Places> Tables<P> {
    /// No pair is open yet, nothing was collected, and no job is out. There may be `limit` words in all.
    pub fn new(alloc: Global, index: P, limit: u64) -> Tables<P>
        requires { limit ≤ 536870912 }
        ensures value { result ≡ record { index = index; limit = limit; homes = []; last = None; out = [] } }
        ensures stands { StandsFor (placed P.places result) [] }
        ensures home { IsAtHome (placed P.places result) }
    {
        // What holds of an index is at hand by this look at it.
        let _ = index.width();
        Tables {
            alloc,
            index,
            limit,
            homes: IndexMap::new(alloc),
            last: None,
            out: Vec::new(alloc),
            back: Vec::new(alloc),
        }
    }

    /// How many words a pair may have: one for each tuple.
    pub fn len(&self) -> u64
        ensures value { result ≡ (placed P.places self.now).index.len }
        ensures apart { AreApart (placed P.places self.now).index }
    {
        self.index.len()
    }

    /// Whether the pair is open.
    pub fn has(&self, pair: Pair) -> bool
        ensures { result ≡ is_open (placed P.places self.now) (counters_of pair) }
    {
        self.homes.contains_key(&pair)
    }

    /// How many pairs are open.
    pub fn pairs(&self) -> u64
        ensures value { result ≡ length (open_pairs (placed P.places self.now)) }
        ensures within { result * (placed P.places self.now).index.len ≤ self.now.limit }
    {
        self.homes.len() as u64
    }

    /// Opens a pair, at which nothing was marked yet. It gets words as births are dealt, and counts as if it had all of them. After an
    /// error the tables are as before.
    pub fn open_pair(&mut self, pair: Pair) -> Result<(), PairError>
        requires { is_open (placed P.places self.old) (counters_of pair) ≡ false }
        ensures opened { OnOk result (IsOpened pair (placed P.places self.old) (placed P.places self.new)) }
        ensures pairs { OnOk result (open_pairs (placed P.places self.new) ≡ open_pairs (placed P.places self.old) ++ counters_of pair ∷ []) }
        ensures home { OnOk result (IsAtHome (placed P.places self.old) → IsAtHome (placed P.places self.new)) }
        ensures stands { OnOk result ((births : List Generated) → StandsFor (placed P.places self.old) births → StandsFor (placed P.places self.new) births) }
        ensures refused { OnErr result (self.new ≡ self.old) }
        ensures words { self.old.limit < (length (open_pairs (placed P.places self.old)) + 1) * (placed P.places self.old).index.len →
            result ≡ Err (PairError.Words ((length (open_pairs (placed P.places self.old)) + 1) * (placed P.places self.old).index.len)) }
        ensures within { (length (open_pairs (placed P.places self.old)) + 1) * (placed P.places self.old).index.len ≤ self.old.limit → (need : ℕ) → result ≢ Err (PairError.Words need) }
    {
        let tuples = self.index.len();
        let need = self.homes.len() as u64 * tuples + tuples;
        if need > self.limit {
            return Err(PairError::Words { need });
        }
        let home = Home::new(self.alloc, self.index.width());
        add(&mut self.homes, pair, home)?;
        Ok(())
    }

    /// Deals the births to workers, each with at least one where there are as many births. Their numbers are then out, and the
    /// tables stand for the same births as before. Of a birth with new atoms the tuples of its other atoms were marked before. After
    /// want of memory no pass was split, and the births are dropped.
    pub fn deal(&mut self, births: Births, workers: u32) -> Result<MarkJobs, AllocError>
        requires home { IsAtHome (placed P.places self.old) }
        requires workers { (1 ≤ workers) × (workers ≤ 64) }
        requires ready { All (IsReady (placed P.places self.old)) births }
        requires later { IfSome self.old.last (λ last. All (λ b. last < b.node.number) births) }
        requires rising { AllPairs (λ x y. x.node.number < y.node.number) births }
        ensures count { IfOk result (λ jobs. length jobs ≡ min workers (length births)) }
        ensures some { IfOk result (λ jobs. All (λ j. 0 < length j.births) jobs) }
        ensures births { IfOk result (λ jobs. births_of jobs ≡ births) }
        ensures out { IfOk result (AreOut (placed P.places self.new) false) }
        ensures dealt { IfOk result (λ jobs. AreDealt jobs (placed P.places self.old) (placed P.places self.new)) }
        ensures stands { OnOk result ((before : List Generated) → StandsFor (placed P.places self.old) before → StandsFor (placed P.places self.new) before) }
        ensures refused { OnErr result (self.new ≡ self.old) }
    {
        let births = births.into_vec();
        let count = births.len().min(workers as usize);
        let out = numbers_of(self.alloc, &births)?;
        let back = Vec::with_capacity(self.alloc, births.len())?;
        let jobs = Vec::with_capacity(self.alloc, count)?;
        let growths = growths_for(self.alloc, &mut self.homes, &births)?;
        let shares = shares_of(self.alloc, births, count)?;
        grow_all(&mut self.homes, growths);
        self.out = out;
        self.back = back;
        Ok(MarkJobs::of_vec(fill_all(&mut self.homes, shares, jobs)))
    }

    /// Passes the gate and marks each birth of the job at each tuple of its state that has a new atom, in the table of its pair. It takes
    /// no memory and waits for no other worker.
    pub fn work<G: Gate>(&self, job: &mut MarkJob, gate: &G)
        requires { IsJobOf (placed P.places self.now) false job.old }
        ensures worked { job.new ≡ worked_job self.now.homes job.old }
    {
        pass_gate(job, gate);
        mark_job(&self.homes, job);
    }

    /// Takes all jobs that are out back, and gives their births one after another. It takes no memory.
    pub fn collect(&mut self, jobs: MarkJobs) -> Births
        requires { AreOut (placed P.places self.old) true jobs }
        ensures births { result ≡ births_of jobs }
        ensures home { IsAtHome (placed P.places self.new) }
        ensures last { self.new.last ≡ last_after (nodes_of (births_of jobs)) self.old.last }
        ensures collected { AreCollected jobs (placed P.places self.old) (placed P.places self.new) }
        ensures stands { (before : List Generated) → StandsFor (placed P.places self.old) before → StandsFor (placed P.places self.new) (before ++ nodes_of (births_of jobs)) }
    {
        let room = replace(&mut self.back, Vec::new(self.alloc));
        let births = join_all(&mut self.homes, jobs.into_vec(), room);
        self.last = last_after(&births, self.last);
        self.out.clear();
        Births::of_vec(births)
    }

    /// The novelty of a birth among the births that the tables stand for.
    pub fn novelty(&mut self, birth: &Birth) -> u8
        requires home { IsAtHome (placed P.places self.old) }
        requires pair { IsOpen (placed P.places self.old) birth.now.node.counters }
        requires size { length birth.now.node.state ≡ (placed P.places self.old).index.atoms }
        requires counted { AreCounted (placed P.places self.old).index birth.now.node.state }
        requires marked { AreMarkedBelow (placed P.places self.old) birth.now.node.number birth.now }
        ensures value { (births : List Generated) → StandsFor (placed P.places self.old) births → Contains births birth.now.node →
            result ≡ novelty_of (placed P.places self.old).index.width births birth.now.node }
        ensures same { self.new ≡ self.old }
    {
        match self.homes.get_mut(&birth.pair()) {
            Some(home) => home.least_size(birth),
            None => unreachable!(),
        }
    }
}

/// Passes the gate, before the job is worked.
fn pass_gate<G: Gate>(job: &MarkJob, gate: &G)
    requires { job.now.worked ≡ false }
{
    gate.pass(JobName::Mark { place: job.place });
}

/// Adds a pair that is not there, with its home.
fn add(homes: &mut IndexMap<Pair, Home>, pair: Pair, home: Home) -> Result<(), AllocError>
    requires { home_of homes.old.entries pair ≡ None }
    ensures added { OnOk result (homes.new.entries ≡ homes.old.entries ++ (pair, home) ∷ []) }
    ensures refused { OnErr result (homes.new.entries ≡ homes.old.entries) }
{
    homes.insert(pair, home)?;
    Ok(())
}

/// The number of the last birth, and that before where there is none.
fn last_after(births: &[Birth], before: Option<u64>) -> Option<u64>
    ensures { result ≡ last_after (nodes_of births.now) before }
{
    match births.last() {
        Some(birth) => Some(birth.number()),
        None => before,
    }
}
