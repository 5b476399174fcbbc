//! How births are dealt to jobs, and jobs are taken back. All memory is taken before the first pass is split.
ghost use Rattle.std.specs.Prelude.{◌≡◌, ◌+◌, ◌<◌, ◌≤◌, [], ◌∷◌, ◌++◌, All, length, map, false, IfOk, IsSome};
ghost use Rattle.std.specs.Vec.{vec_capacity, vec_len};
ghost use Rattle.wp_novel.specs.NoveltyTables.{counters_of, home_of, EachHome};
ghost use Rattle.wp_novel.specs.Births.{numbers_of};
ghost use Rattle.wp_novel.specs.Jobs.{HomesBecome, Lends, Takes, births_of, passes_of, has_pass};
ghost use Rattle.wp_novel.specs.Dealing.{births_in, AreRoomy, CanLend, CanMark, ArePassesFor, TakesPass, AreGiven};

use crate::birth::{Birth, Pair};
use crate::home::Home;
use crate::job::{JobPass, MarkJob};
use indexmap::IndexMap;
use std::alloc::{AllocError, Global};
use std::mem::replace;

/// A job before its passes, with room for one for each birth.
#[derive(Drop)]
pub(crate) struct Share {
    pub births: Vec<Birth>,
    pub passes: Vec<JobPass>,
}

/// The numbers of the births.
pub(crate) fn numbers_of(alloc: Global, births: &[Birth]) -> Result<Vec<u64>, AllocError>
    ensures { IfOk result (λ numbers. numbers.items ≡ numbers_of births.now) }
{
    let mut numbers = Vec::with_capacity(alloc, births.len())?;
    for birth in births {
        numbers.push(birth.number())?;
    }
    Ok(numbers)
}

/// Cuts the births into so many shares, none of which is empty.
pub(crate) fn shares_of(
    alloc: Global,
    births: Vec<Birth>,
    count: usize,
) -> Result<Vec<Share>, AllocError>
    requires within { count ≤ length births.items }
    requires some { 0 < length births.items → 0 < count }
    ensures count { IfOk result (λ shares. length shares.items ≡ count) }
    ensures births { IfOk result (λ shares. births_in shares.items ≡ births.items) }
    ensures roomy { IfOk result (λ shares. All AreRoomy shares.items) }
{
    let mut births = births;
    let mut shares = Vec::with_capacity(alloc, count)?;
    for made in 0..count {
        let share = cut(alloc, &mut births, count - made)?;
        shares.push(share)?;
    }
    Ok(shares)
}

/// Cuts the first of so many shares off the births.
fn cut(alloc: Global, births: &mut Vec<Birth>, left: usize) -> Result<Share, AllocError>
    requires { (0 < left) × (left ≤ length births.old.items) }
    ensures births { IfOk result (λ share. births.old.items ≡ share.births.items ++ births.new.items) }
    ensures rest { IfOk result (λ share. left ≤ length births.new.items + 1) }
    ensures all { IfOk result (λ share. left ≡ 1 → births.new.items ≡ []) }
    ensures roomy { IfOk result AreRoomy }
{
    let size = 1 + (births.len() - left) / left;
    let rest = births.split_off(size)?;
    let mine = replace(births, rest);
    let passes = Vec::with_capacity(alloc, mine.len())?;
    Ok(Share {
        births: mine,
        passes,
    })
}

/// Makes the shares into jobs, each with a pass for each pair of its births. It takes no memory.
pub(crate) fn fill_all(
    homes: &mut IndexMap<Pair, Home>,
    shares: Vec<Share>,
    jobs: Vec<MarkJob>,
) -> Vec<MarkJob>
    requires room { length jobs.items + length shares.items ≤ vec_capacity jobs }
    requires roomy { All AreRoomy shares.items }
    requires lend { CanLend (length shares.items) homes.old.entries (births_in shares.items) }
    requires none { jobs.items ≡ [] }
    requires few { length shares.items ≤ 64 }
    ensures given { AreGiven homes.old.entries homes.new.entries (map (λ share. share.births.items) shares.items) result.items }
{
    let mut jobs = jobs;
    for share in shares {
        let Share { births, passes } = share;
        let passes = take_passes(homes, &births, passes);
        let place = jobs.len() as u32;
        jobs.push_reserved(MarkJob {
            place,
            births,
            passes,
            worked: false,
        });
    }
    jobs
}

/// Takes a pass for each pair of the births.
fn take_passes(
    homes: &mut IndexMap<Pair, Home>,
    births: &[Birth],
    passes: Vec<JobPass>,
) -> Vec<JobPass>
    requires room { length births.now ≤ vec_capacity passes }
    requires none { passes.items ≡ [] }
    requires lend { CanLend 1 homes.old.entries births.now }
    ensures passes { ArePassesFor homes.old.entries births.now result.items }
    ensures homes { HomesBecome (Lends result.items) homes.old.entries homes.new.entries }
{
    let mut passes = passes;
    for birth in births {
        take_pass(homes, birth.pair(), &mut passes);
    }
    passes
}

/// Takes a pass of the pair, if there is none yet and the pair has words.
fn take_pass(homes: &mut IndexMap<Pair, Home>, pair: Pair, passes: &mut Vec<JobPass>)
    requires room { vec_len passes.old < vec_capacity passes.old }
    requires open { IsSome (home_of homes.old.entries pair) }
    requires parts { has_pass passes.old.items (counters_of pair) ≡ false → EachHome (λ other home. counters_of other ≡ counters_of pair → 1 < home.parts) homes.old.entries }
    ensures takes { TakesPass pair passes.old.items passes.new.items homes.old.entries homes.new.entries }
    ensures room { vec_capacity passes.new ≡ vec_capacity passes.old }
{
    if has_pass(passes, pair) {
        return;
    }
    match homes.get_mut(&pair) {
        Some(home) => {
            if let Some(pass) = home.lend() {
                passes.push_reserved(JobPass { pair, pass });
            }
        }
        None => unreachable!(),
    }
}

fn has_pass(passes: &[JobPass], pair: Pair) -> bool
    ensures { result ≡ has_pass passes.now (counters_of pair) }
{
    passes.iter().any(|p| p.pair == pair)
}

/// Gives the passes of the jobs back, and puts their births one after another. It takes no memory.
pub(crate) fn join_all(
    homes: &mut IndexMap<Pair, Home>,
    jobs: Vec<MarkJob>,
    births: Vec<Birth>,
) -> Vec<Birth>
    requires room { length births.items + length (births_of jobs.items) ≤ vec_capacity births }
    requires none { births.items ≡ [] }
    requires passes { All (CanMark homes.old.entries) (passes_of jobs.items) }
    ensures births { result.items ≡ births_of jobs.items }
    ensures homes { HomesBecome (Takes (passes_of jobs.items)) homes.old.entries homes.new.entries }
{
    let mut all = births;
    for job in jobs {
        let MarkJob {
            place: _,
            births,
            passes,
            worked: _,
        } = job;
        let mut births = births;
        join_passes(homes, passes);
        let _ = all.append(&mut births);
    }
    all
}

fn join_passes(homes: &mut IndexMap<Pair, Home>, passes: Vec<JobPass>)
    requires { All (CanMark homes.old.entries) passes.items }
    ensures { HomesBecome (Takes passes.items) homes.old.entries homes.new.entries }
{
    for pass in passes {
        join_pass(homes, pass);
    }
}

fn join_pass(homes: &mut IndexMap<Pair, Home>, given: JobPass)
    requires { CanMark homes.old.entries given }
    ensures { HomesBecome (Takes (given ∷ [])) homes.old.entries homes.new.entries }
{
    let JobPass { pair, pass } = given;
    match homes.get_mut(&pair) {
        Some(home) => home.take(pass),
        None => unreachable!(),
    }
}
