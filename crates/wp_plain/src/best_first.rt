//! A best-first search as a value: it is known by the moments of the run that it stands for, however it keeps them.
//!
//! `search_from` is the search over any of them: the first waiting node is taken, looked at and expanded, until a step
//! ends. The order of the tests stands here alone.
ghost use Rattle.std.specs.Prelude.{◌≡◌, ◌==◌, ℕ, List, All, [], Option, Some, true, false, length, map, IfOk, OnOk, IfSome, MatchOption};
ghost use Rattle.wp_task.specs.Task.{PlanningTask, IsTask};
ghost use Rattle.wp_watch.specs.declared.watch.WatchKind.{WatchKind};
ghost use Rattle.wp_watch.specs.Places.{AreAfter, AreUntold, CanTellPlace, told_place};
ghost use Rattle.wp_plain.specs.declared.settings.Settings.{Settings};
ghost use Rattle.wp_plain.specs.Nodes.{Node, path_at};
ghost use Rattle.wp_plain.specs.Pairs.{pairs_in, exceeds};
ghost use Rattle.wp_plain.specs.Places.{places_in};
ghost use Rattle.wp_plain.specs.Ranges.{AreInRange};
ghost use Rattle.wp_plain.specs.Numbers.{next_of};
ghost use Rattle.wp_plain.specs.Run.{Moment, opening, expand, look_at, step, all_at, counts_of, ending_of};
ghost use Rattle.wp_plain.specs.Steps.{Asked, end_of, IsBounded, CanExpand, IsEventFor, HasTakenFirst, IsSpare, StandsAtSome, IsTakenAtSome, StepsFrom, StepsAt, RunsFrom};

use crate::ending::{Counts, Ending, How};
use crate::pairs::exceeds;
use crate::run::Run;
use std::alloc::{AllocError, Global};
use wp_task::Atoms;
use wp_watch::{Event, Watchers, places_follow};

/// What a best-first search keeps: the nodes that it has generated, and which of them wait.
pub trait BestFirst {
    /// The children of a node that is being expanded, before they are numbered.
    type Expansion: Drop;

    /// What the caller owns and lends to each expansion.
    type Lent;

    /// What is kept stands for the moment of the run, beside what is lent.
    ghost stands: { Self → Self.Lent → Asked → Moment → Type 0 };

    /// The same, but for what waits.
    ghost holds: { Self → Self.Lent → Asked → Moment → Type 0 };

    /// The node of the number was taken at the moment, as the first that waits.
    ghost has_taken: { Self → Self.Lent → Asked → Moment → Node → ℕ → Type 0 };

    /// These are its children.
    ghost has_evaluated: { Self → Self.Lent → Asked → Moment → Node → ℕ → Self.Expansion → Type 0 };

    /// Takes the first waiting node, and answers its number.
    fn take(&mut self) -> Option<u64>
        ensures { (lent : Self.Lent) (asked : Asked) (m : Moment) → stands self.old lent asked m →
            HasTakenFirst (holds self.new lent asked) (has_taken self.new lent asked) m result };

    /// Whether the node that was taken has no unmet goal.
    fn has_goals(&self, number: u64) -> bool
        requires taken { (lent : Self.Lent) × (asked : Asked) × (m : Moment) × (node : Node) × has_taken self.now lent asked m node number }
        ensures { (lent : Self.Lent) (asked : Asked) (m : Moment) (node : Node) → has_taken self.now lent asked m node number →
            result ≡ (node.generated.counters.0 == 0) };

    /// The actions from the root to the node that was taken.
    fn plan_to(&self, alloc: Global, number: u64) -> Result<Atoms, AllocError>
        requires taken { (lent : Self.Lent) × (asked : Asked) × (m : Moment) × (node : Node) × has_taken self.now lent asked m node number }
        ensures { IfOk result (λ plan. (lent : Self.Lent) (asked : Asked) (m : Moment) (node : Node) → has_taken self.now lent asked m node number →
            plan ≡ (path_at m.paths node.generated.number).acts) };

    /// What was counted so far.
    fn counts(&self) -> Counts
        requires { (lent : Self.Lent) × (asked : Asked) × (m : Moment) × holds self.now lent asked m × IsBounded asked.settings m }
        ensures { (lent : Self.Lent) (asked : Asked) (m : Moment) → holds self.now lent asked m → result ≡ counts_of m };

    /// Evaluates the children of the node that was taken, and counts the pairs of counters of all nodes with them.
    fn evaluate(
        &mut self,
        run: &Run,
        lent: &Self::Lent,
        number: u64,
    ) -> Result<(u64, Self::Expansion), AllocError>
        requires range { AreInRange run.now.settings }
        requires fits { IsTask run.now.task }
        requires taken { (m : Moment) × (node : Node) × has_taken self.old lent.now run.now m node number × IsBounded run.now.settings m }
        ensures { IfOk result (λ x. (m : Moment) (node : Node) → has_taken self.old lent.now run.now m node number →
            has_evaluated self.new lent.now run.now m node number x.1 × (x.0 ≡ length (pairs_in (all_at run.now.task m node)))) };

    /// Numbers the children of the node that was taken, keeps them, and answers what is to be told, where that is wanted.
    fn admit(
        &mut self,
        run: &Run,
        lent: &mut Self::Lent,
        number: u64,
        expansion: Self::Expansion,
        wanted: bool,
    ) -> Result<Option<Event>, AllocError>
        requires range { AreInRange run.now.settings }
        requires fits { IsTask run.now.task }
        requires can { (m : Moment) × (node : Node) × has_evaluated self.old lent.old run.now m node number expansion × CanExpand run.now m node }
        ensures { IfOk result (λ told. (m : Moment) (node : Node) → has_evaluated self.old lent.old run.now m node number expansion →
            CanExpand run.now m node →
            stands self.new lent.new run.now (next_of run.now.task run.now.settings m node) × IsEventFor run.now m node wanted told) };

    ghost standing_holds: { (s : Self) (lent : Self.Lent) (asked : Asked) (m : Moment) → stands s lent asked m → holds s lent asked m };

    ghost taken_holds: { (s : Self) (lent : Self.Lent) (asked : Asked) (m : Moment) (node : Node) (number : ℕ) →
        has_taken s lent asked m node number → holds s lent asked m };

    ghost evaluated_holds: { (s : Self) (lent : Self.Lent) (asked : Asked) (m : Moment) (node : Node) (number : ℕ) (x : Self.Expansion) →
        has_evaluated s lent asked m node number x → holds s lent asked m };
}

/// The whole search from its opening, with each expansion told. Want of memory leaves watchers that are only good for
/// being dropped.
pub fn search_from<S: BestFirst>(
    run: &Run,
    search: &mut S,
    lent: &mut S::Lent,
    watchers: &mut Watchers,
) -> Result<Ending, AllocError>
    requires opens { S.stands search.old lent.old run.now (opening run.now.task run.now.settings) }
    requires few { exceeds run.now.settings.words 1 run.now.tuples ≡ false }
    requires untold { AreUntold (places_in kind until told watchers.old) }
    ensures ending { IfOk result (λ ending. ending ≡ ending_of run.now.task run.now.settings run.now.tuples) }
    ensures holds { OnOk result (S.holds search.new lent.new run.now (end_of run.now).1) }
    ensures events { OnOk result ((list : List (WatchKind × Option ℕ)) →
        AreAfter list [] (places_in kind until told watchers.old) →
        AreAfter list (end_of run.now).1.events (places_in kind until told watchers.new)) }
{
    let how = take_steps(run, search, lent, watchers)?;
    Ok(Ending {
        how,
        counts: search.counts(),
    })
}

/// Steps until one ends, which is at the latest the one after the budget.
fn take_steps<S: BestFirst>(
    run: &Run,
    search: &mut S,
    lent: &mut S::Lent,
    watchers: &mut Watchers,
) -> Result<How, AllocError>
    requires stands { StandsAtSome (S.stands search.old lent.old run.now) run.now.settings (places_in kind until told watchers.old) }
    ensures { IfOk result (RunsFrom (S.stands search.old lent.old run.now) (S.holds search.new lent.new run.now) run.now
        (places_in kind until told watchers.old) (places_in kind until told watchers.new)) }
{
    for _step in 0..run.settings().budget + 1 {
        if let Some(how) = step(run, search, lent, watchers)? {
            return Ok(how);
        }
    }
    Ok(How::Budget)
}

/// One step: the first waiting node is taken and looked at.
fn step<S: BestFirst>(
    run: &Run,
    search: &mut S,
    lent: &mut S::Lent,
    watchers: &mut Watchers,
) -> Result<Option<How>, AllocError>
    requires stands { StandsAtSome (S.stands search.old lent.old run.now) run.now.settings (places_in kind until told watchers.old) }
    ensures { IfOk result (StepsFrom (S.stands search.old lent.old run.now) (S.stands search.new lent.new run.now) (S.holds search.new lent.new run.now) run.now.settings
        (step run.now.task run.now.settings run.now.tuples) (places_in kind until told watchers.old) (places_in kind until told watchers.new)) }
{
    match search.take() {
        Some(number) => look_at(run, search, lent, number, watchers),
        None => Ok(Some(How::Emptied)),
    }
}

/// The goal test, the budget, and then the expansion of the node that was taken.
// The goal test is when a node is taken: one that was only generated waits its turn.
fn look_at<S: BestFirst>(
    run: &Run,
    search: &mut S,
    lent: &mut S::Lent,
    number: u64,
    watchers: &mut Watchers,
) -> Result<Option<How>, AllocError>
    requires taken { IsTakenAtSome (λ m node. S.has_taken search.old lent.old run.now m node number) run.now.settings (places_in kind until told watchers.old) }
    ensures { IfOk result (StepsAt (λ m node. S.has_taken search.old lent.old run.now m node number) (S.stands search.new lent.new run.now) (S.holds search.new lent.new run.now) run.now.settings
        (λ m node. look_at run.now.task run.now.settings run.now.tuples m (Some node)) (places_in kind until told watchers.old) (places_in kind until told watchers.new)) }
{
    if search.has_goals(number) {
        let plan = search.plan_to(run.alloc(), number)?;
        return Ok(Some(How::Found { plan }));
    }
    if search.counts().expanded == run.settings().budget {
        return Ok(Some(How::Budget));
    }
    expand(run, search, lent, number, watchers)
}

/// The expansion of the node that was taken, unless it wants more words than the limit.
fn expand<S: BestFirst>(
    run: &Run,
    search: &mut S,
    lent: &mut S::Lent,
    number: u64,
    watchers: &mut Watchers,
) -> Result<Option<How>, AllocError>
    requires taken { IsTakenAtSome (λ m node. S.has_taken search.old lent.old run.now m node number × IsSpare run.now.settings m) run.now.settings (places_in kind until told watchers.old) }
    ensures { IfOk result (StepsAt (λ m node. S.has_taken search.old lent.old run.now m node number × IsSpare run.now.settings m) (S.stands search.new lent.new run.now) (S.holds search.new lent.new run.now) run.now.settings
        (expand run.now.task run.now.settings run.now.tuples) (places_in kind until told watchers.old) (places_in kind until told watchers.new)) }
{
    // By the law of places the watchers can be told one more event.
    places_follow();
    let settings = run.settings();
    let (pairs, expansion) = search.evaluate(run, lent, number)?;
    if exceeds(settings.words, pairs, run.tuples()) {
        return Ok(Some(How::Words { pairs }));
    }
    let wanted = is_watched(watchers);
    let event = search.admit(run, lent, number, expansion, wanted)?;
    tell(watchers, event)?;
    Ok(None)
}

/// Whether somebody watches. Where nobody does no event is made.
fn is_watched(watchers: &Watchers) -> bool
    ensures { result ≡ false → places_in kind until told watchers.now ≡ [] }
{
    !watchers.slots.is_empty()
}

fn tell(watchers: &mut Watchers, event: Option<Event>) -> Result<(), AllocError>
    requires { IfSome event (λ event. All (CanTellPlace event) (places_in kind until told watchers.old)) }
    ensures { OnOk result (MatchOption event (places_in kind until told watchers.new ≡ places_in kind until told watchers.old)
        (λ event. places_in kind until told watchers.new ≡ map (told_place event) (places_in kind until told watchers.old))) }
{
    match event {
        Some(event) => watchers.tell(&event),
        None => Ok(()),
    }
}

/// The ending of a search whose root's own pair wants more words than the limit.
pub fn root_alone() -> Ending
    ensures ending { (task : PlanningTask) (settings : Settings) (tuples : ℕ) → exceeds settings.words 1 tuples ≡ true →
        result ≡ ending_of task settings tuples }
{
    Ending {
        how: How::Words { pairs: 1 },
        counts: Counts {
            expanded: 0,
            numbered: 1,
            kept: 1,
            pruned: 0,
            repeats: 0,
            pairs: 1,
        },
    }
}
