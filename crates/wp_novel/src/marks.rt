//! Marks: a number goes to the place of each tuple of a state that has a new atom.
ghost use Rattle.std.specs.Prelude.{◌≡◌, ◌+◌, ◌-◌, ◌^◌, ◌<◌, ◌≤◌, [], ◌∷◌, ◌++◌, All, length, map};
ghost use Rattle.wp_tuples.specs.Placing.{HasPlace};
ghost use Rattle.wp_tuples.specs.Ranking.{ranked};
ghost use Rattle.wp_arrive.specs.Rule.{latest};
ghost use Rattle.wp_arrive.specs.Seen.{seen};
ghost use Rattle.wp_novel.specs.NoveltyTables.{counters_of, EachHome};
ghost use Rattle.wp_novel.specs.MarkedTuples.{pair_of, pairs_after, tuples_with_new};
ghost use Rattle.wp_novel.specs.Marks.{marks_at, birth_marks, marks_for};
ghost use Rattle.wp_novel.specs.Jobs.{worked_pass, worked_job};
ghost use Rattle.wp_novel.specs.Dealing.{CanMark, CanBeMarked, CanBeMarkedIn, IsOfPair};

use crate::birth::{Birth, Pair};
use crate::home::Home;
use crate::job::{JobPass, MarkJob};
use crate::places::place_of_pair;
use indexmap::IndexMap;
use wp_arrive::{Arrivals, Pass};
use wp_tuples::Places;

/// Works a job: marks its births, each by the pass of its pair.
pub(crate) fn mark_job(homes: &IndexMap<Pair, Home>, job: &mut MarkJob)
    requires homes { EachHome (λ pair home. (ranked home.ranking).len ≤ home.table.words) homes.now.entries }
    requires passes { All (CanMark homes.now.entries) job.old.passes }
    requires births { All (CanBeMarkedIn homes.now.entries) job.old.births }
    ensures { job.new ≡ worked_job homes.now.entries job.old }
{
    mark_passes(homes, &job.births, &mut job.passes);
    job.worked = true;
}

fn mark_passes(homes: &IndexMap<Pair, Home>, births: &[Birth], passes: &mut Vec<JobPass>)
    requires homes { EachHome (λ pair home. (ranked home.ranking).len ≤ home.table.words) homes.now.entries }
    requires passes { All (CanMark homes.now.entries) passes.old.items }
    requires births { All (CanBeMarkedIn homes.now.entries) births.now }
    ensures { passes.new.items ≡ map (worked_pass homes.now.entries births.now) passes.old.items }
{
    for place in 0..passes.len() {
        mark_pass(homes, births, &mut passes[place]);
    }
}

/// Marks those of the births that have the pair of the pass.
fn mark_pass(homes: &IndexMap<Pair, Home>, births: &[Birth], job_pass: &mut JobPass)
    requires homes { EachHome (λ pair home. (ranked home.ranking).len ≤ home.table.words) homes.now.entries }
    requires pass { CanMark homes.now.entries job_pass.old }
    requires births { All (CanBeMarkedIn homes.now.entries) births.now }
    ensures { job_pass.new ≡ worked_pass homes.now.entries births.now job_pass.old }
{
    let pair = job_pass.pair;
    match homes.get(&pair) {
        Some(home) => home.mark(births, pair, &mut job_pass.pass),
        None => unreachable!(),
    }
}

/// Marks those of the births that have the pair.
pub(crate) fn mark_births<P: Places>(
    arrivals: &Arrivals,
    index: &P,
    births: &[Birth],
    pair: Pair,
    pass: &mut Pass,
)
    requires table { pass.old.table ≡ arrivals.now }
    requires words { (P.places index.now).len ≤ arrivals.now.words }
    requires part { 0 < pass.old.parts }
    requires births { All (IsOfPair pair (CanBeMarked (P.places index.now))) births.now }
    ensures { pass.new ≡ seen pass.old.table (pass.old.marks ++ marks_for (P.places index.now) (counters_of pair) births.now) pass.old.parts }
{
    for birth in births {
        mark_birth(arrivals, index, birth, pair, pass);
    }
}

/// Marks a birth, where it has the pair.
fn mark_birth<P: Places>(arrivals: &Arrivals, index: &P, birth: &Birth, pair: Pair, pass: &mut Pass)
    requires table { pass.old.table ≡ arrivals.now }
    requires words { (P.places index.now).len ≤ arrivals.now.words }
    requires part { 0 < pass.old.parts }
    requires birth { IsOfPair pair (CanBeMarked (P.places index.now)) birth.now }
    ensures { pass.new ≡ seen pass.old.table (pass.old.marks ++ birth_marks (P.places index.now) (counters_of pair) birth.now) pass.old.parts }
{
    if birth.has_pair(pair) {
        mark_tuples(
            arrivals,
            index,
            birth.old_atoms(),
            birth.new_atoms(),
            birth.number(),
            pass,
        );
    }
}

/// Marks the number at each tuple of these atoms that has a new one.
// The first mark of a number is made at once, and each later one looks at its word first.
fn mark_tuples<P: Places>(
    arrivals: &Arrivals,
    index: &P,
    old: &[u32],
    new: &[u32],
    number: u64,
    pass: &mut Pass,
)
    requires table { pass.old.table ≡ arrivals.now }
    requires words { (P.places index.now).len ≤ arrivals.now.words }
    requires part { 0 < pass.old.parts }
    requires tuples { All (HasPlace (P.places index.now)) (tuples_with_new (P.places index.now).width old.now new.now) }
    requires number { number < 2 ^ 63 }
    ensures { pass.new ≡ seen pass.old.table (pass.old.marks ++ marks_at (P.places index.now) number (tuples_with_new (P.places index.now).width old.now new.now)) pass.old.parts }
{
    if new.is_empty() {
        return;
    }
    arrivals.mark(pass, index.atom_place(new[0]), number);
    mark_atoms(arrivals, index, &new[1..], number, pass);
    if index.width() == 2 {
        mark_pairs(arrivals, index, old, new, number, pass);
    }
}

/// Marks the number at each of these atoms alone.
fn mark_atoms<P: Places>(
    arrivals: &Arrivals,
    index: &P,
    atoms: &[u32],
    number: u64,
    pass: &mut Pass,
)
    requires table { pass.old.table ≡ arrivals.now }
    requires words { (P.places index.now).len ≤ arrivals.now.words }
    requires part { 0 < pass.old.parts }
    requires tuples { All (HasPlace (P.places index.now)) (map (λ p. p ∷ []) atoms.now) }
    requires number { number < 2 ^ 63 }
    requires latest { latest pass.old.marks ≡ number }
    ensures marked { pass.new ≡ seen pass.old.table (pass.old.marks ++ marks_at (P.places index.now) number (map (λ p. p ∷ []) atoms.now)) pass.old.parts }
    ensures latest { latest pass.new.marks ≡ number }
{
    for p in atoms {
        arrivals.mark_again(pass, index.atom_place(*p), number);
    }
}

/// Marks the number at each pair of these atoms that has a new one.
fn mark_pairs<P: Places>(
    arrivals: &Arrivals,
    index: &P,
    old: &[u32],
    new: &[u32],
    number: u64,
    pass: &mut Pass,
)
    requires table { pass.old.table ≡ arrivals.now }
    requires words { (P.places index.now).len ≤ arrivals.now.words }
    requires part { 0 < pass.old.parts }
    requires tuples { All (HasPlace (P.places index.now)) (pairs_after old.now new.now) }
    requires number { number < 2 ^ 63 }
    requires latest { latest pass.old.marks ≡ number }
    ensures { pass.new ≡ seen pass.old.table (pass.old.marks ++ marks_at (P.places index.now) number (pairs_after old.now new.now)) pass.old.parts }
{
    for place in 0..new.len() {
        mark_with(arrivals, index, old, new[place], number, pass);
        mark_with(arrivals, index, &new[..place], new[place], number, pass);
    }
}

/// Marks the number at the pairs of q with these atoms.
// A plain loop over the list: at width 2 most of the time of a search may go here.
fn mark_with<P: Places>(
    arrivals: &Arrivals,
    index: &P,
    atoms: &[u32],
    q: u32,
    number: u64,
    pass: &mut Pass,
)
    requires table { pass.old.table ≡ arrivals.now }
    requires words { (P.places index.now).len ≤ arrivals.now.words }
    requires part { 0 < pass.old.parts }
    requires tuples { All (HasPlace (P.places index.now)) (map (λ p. pair_of p q) atoms.now) }
    requires number { number < 2 ^ 63 }
    requires latest { latest pass.old.marks ≡ number }
    ensures marked { pass.new ≡ seen pass.old.table (pass.old.marks ++ marks_at (P.places index.now) number (map (λ p. pair_of p q) atoms.now)) pass.old.parts }
    ensures latest { latest pass.new.marks ≡ number }
{
    for p in atoms {
        arrivals.mark_again(pass, place_of_pair(index, *p, q), number);
    }
}
