//! The search by scanning lists: the definition made to run.
//!
//! Each step scans all nodes for the first that waits, for the state of each child and for each tuple of its atoms, so a
//! search takes time quadratic in its nodes and worse. It is meant for small tasks and for comparison: what is faster
//! has to end as this does.
ghost use Rattle.std.specs.Prelude.{◌≡◌, ◌<◌, ◌≤◌, [], ℕ, length, List, Option, IfOk, OnOk};
ghost use Rattle.wp_plain.specs.Nodes.{Path};
ghost use Rattle.wp_plain.specs.Pairs.{all_tuples};
ghost use Rattle.wp_plain.specs.Run.{opening, run, ending_of};
ghost use Rattle.wp_watch.specs.declared.watch.WatchKind.{WatchKind};
ghost use Rattle.wp_watch.specs.Places.{AreAfter, AreUntold};
ghost use Rattle.wp_plain.specs.Places.{places_in};
ghost use Rattle.wp_task.specs.Task.{PlanningTask};
ghost use Rattle.wp_plain.specs.Ranges.{AreInRange};
ghost use Rattle.wp_plain.specs.Laws.{AnswersFor};
ghost use Rattle.wp_plain.specs.Explored.{brood_at, lists_of, AreReached, StandsFor};

use crate::best_first::{BestFirst, root_alone, search_from};
use crate::ending::{Counts, Ending};
use crate::explored::{Expansion, Explored, Way, number_children};
use crate::first::first_waiting;
use crate::node::{GeneratedNode, SearchNode};
use crate::novelty::novelty;
use crate::pairs::{exceeds, more_pairs, tuple_count};
use crate::paths::plan_to;
use crate::repeats::unseen;
use crate::run::Run;
use crate::settings::Settings;
use crate::telling::told_at;
use std::alloc::{AllocError, Global};
use wp_count::{Child, brood_of, counters_are_carried, root_of};
use wp_succ::Plain;
use wp_task::{Atoms, Task};
use wp_watch::{Event, Watchers};

/// The search of a task, to its ending, with each expansion told. Want of memory leaves watchers that are only good for
/// being dropped.
pub fn plain_search(
    alloc: Global,
    task: &Task,
    settings: &Settings,
    watchers: &mut Watchers,
) -> Result<Ending, AllocError>
    requires range { AreInRange settings.now }
    requires untold { AreUntold (places_in kind until told watchers.old) }
    ensures ending { IfOk result (λ ending. ending ≡ ending_of task.now settings.now (all_tuples task.now settings.now)) }
    ensures answers { IfOk result (AnswersFor task.now settings.now (all_tuples task.now settings.now)) }
    ensures events { OnOk result ((list : List (WatchKind × Option ℕ)) →
        AreAfter list [] (places_in kind until told watchers.old) →
        AreAfter list (run task.now settings.now (all_tuples task.now settings.now)).1.events (places_in kind until told watchers.new)) }
{
    let tuples = tuple_count(settings.width, task.atoms());
    if exceeds(settings.words, 1, tuples) {
        return Ok(root_alone());
    }
    let run = Run::of(alloc, task, *settings, tuples);
    let mut explored = opening(alloc, task, settings)?;
    search_from(&run, &mut explored, &mut (), watchers)
}

/// The root alone.
fn opening(alloc: Global, task: &Task, settings: &Settings) -> Result<Explored, AllocError>
    requires { (1 ≤ settings.now.width) × (settings.now.width ≤ 2) }
    ensures { IfOk result (λ explored. StandsFor task.now explored (opening task.now settings.now)) }
{
    // The law of the counters: what is kept of a node gives those of its whole path.
    counters_are_carried();
    let (state, mark, track) = root_of(alloc, task)?;
    let mut nodes = Vec::new(alloc);
    let generated = GeneratedNode::of(0, mark.g, mark.r, state);
    let w = novelty(alloc, settings.width, &nodes, &generated)?;
    nodes.push(SearchNode::of(generated, w, true))?;
    let mut pairs = Vec::new(alloc);
    pairs.push((mark.g, mark.r))?;
    let mut ways = Vec::new(alloc);
    ways.push(Way { back: None, mark })?;
    let mut tracks = Vec::new(alloc);
    tracks.push(track)?;
    Ok(Explored {
        nodes,
        ways,
        tracks,
        pairs,
        expanded: 0,
        repeats: 0,
    })
}

impl BestFirst for Explored {
    ghost use Rattle.wp_plain.specs.Explored.{StandsFor, IsTakenAt, IsEvaluatedAt};

    type Expansion = Expansion;

    type Lent = ();

    ghost stands = { λ e lent asked m. StandsFor asked.task e m };

    ghost holds = { λ e lent asked m. StandsFor asked.task e m };

    ghost has_taken = { λ e lent asked m node number. IsTakenAt asked.task e m node number };

    ghost has_evaluated = { λ e lent asked m node number x. IsEvaluatedAt asked.task e m node number x };

    ghost standing_holds = { λ e lent asked m stands. stands };

    ghost taken_holds = { λ e lent asked m node number taken. taken.stands };

    ghost evaluated_holds = { λ e lent asked m node number x evaluated. evaluated.taken.stands };

    fn take(&mut self) -> Option<u64> {
        match first_waiting(&self.nodes) {
            Some(place) => Some(place as u64),
            None => None,
        }
    }

    fn has_goals(&self, number: u64) -> bool {
        self.nodes[number as usize].has_goals()
    }

    fn plan_to(&self, alloc: Global, number: u64) -> Result<Atoms, AllocError> {
        plan_to(alloc, self, number as usize)
    }

    fn counts(&self) -> Counts {
        let numbered = self.nodes.len() as u64;
        let kept = self.nodes.iter().filter(|n| n.is_kept()).count() as u64;
        Counts {
            expanded: self.expanded,
            numbered,
            kept,
            pruned: numbered - kept,
            repeats: self.repeats,
            pairs: self.pairs.len() as u64,
        }
    }

    fn evaluate(
        &mut self,
        run: &Run,
        _lent: &(),
        number: u64,
    ) -> Result<(u64, Expansion), AllocError> {
        // By the law of the counters those of the children are those of their whole paths.
        counters_are_carried();
        let brood = brood_at(run.alloc(), self, run.task(), number as usize)?;
        let count = brood.len();
        let fresh = unseen(run.alloc(), &self.nodes, brood)?;
        let repeats = (count - fresh.len()) as u64;
        let pairs = more_pairs(run.alloc(), &self.pairs, &fresh)?;
        Ok((
            pairs.len() as u64,
            Expansion {
                fresh,
                repeats,
                pairs,
            },
        ))
    }

    fn admit(
        &mut self,
        run: &Run,
        _lent: &mut (),
        number: u64,
        expansion: Expansion,
        wanted: bool,
    ) -> Result<Option<Event>, AllocError> {
        let Expansion {
            fresh,
            repeats,
            pairs,
        } = expansion;
        let place = number as usize;
        let first = self.nodes.len();
        self.pairs = pairs;
        number_children(run.alloc(), self, run.settings(), place, fresh, repeats)?;
        told_at(run.alloc(), self, place, repeats, first, wanted)
    }
}

/// The children of the node at a place.
fn brood_at(
    alloc: Global,
    explored: &Explored,
    task: &Task,
    place: usize,
) -> Result<Vec<Child>, AllocError>
    requires place { place < length explored.now.nodes.items }
    requires reached { (paths : List Path) × AreReached task.now paths (lists_of explored.now) }
    ensures value { IfOk result (λ brood. brood.items ≡ brood_at task.now (lists_of explored.now) place) }
    ensures few { IfOk result (λ brood. length brood.items ≤ length task.now.acts) }
{
    let way = &explored.ways[place];
    let state = explored.nodes[place].generated().state();
    let track = &explored.tracks[way.mark.track as usize];
    let succ = Plain::of(task);
    let brood = brood_of(alloc, task, &succ, place as u64, state, &way.mark, track)?;
    Ok(brood.into_children().into_vec())
}
