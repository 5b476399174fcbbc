//! The numbers and novelties of the children of an expansion.
ghost use Rattle.std.specs.Prelude.{◌≡◌, ◌+◌, ◌<◌, ◌^◌, ◌++◌, ℕ, List, false, length, map, All, Contains, IfOk, OnOk, IfSome};
ghost use Rattle.wp_task.specs.Novelty.{Generated, novelty_of};
ghost use Rattle.wp_novel.specs.Births.{nodes_of};
ghost use Rattle.wp_novel.specs.NoveltyTables.{placed, open_pairs, IsAtHome};
ghost use Rattle.wp_novel.specs.StandsFor.{StandsFor};
ghost use Rattle.wp_plain.specs.Explored.{numbered, all_numbered};
ghost use Rattle.wp_commit.specs.Newborns.{rest_of, child_with, newborns_of};
ghost use Rattle.wp_commit.specs.Entering.{IsFresh, StandsForEarlier, CanBeBorn, CanBeAsked};
ghost use Rattle.wp_nodes.specs.KeptNodes.{IsKept};
ghost use Rattle.wp_ahead.specs.KeptBroods.{Fit};
ghost use Rattle.wp_ahead.specs.Laws.{AreMarked};
ghost use Rattle.wp_commit.specs.Phases.{AreMade};
ghost use Rattle.wp_commit.specs.Lending.{CanEnter, HasEntered};

use crate::evaluation::Expansion;
use crate::fresh::fresh_of;
use crate::marking::mark_all;
use crate::newborn::Newborn;
use crate::pairs::open_all;
use crate::run::Run;
use crate::searched::{Searched, node_at};
use std::alloc::{AllocError, Global};
use std::thread::Threads;
use wp_ahead::{AheadJobs, Broods, jobs_can_be_worked, worked_jobs_fit};
use wp_count::{Child, counters_are_carried};
use wp_edge::Gate;
use wp_nodes::Kept;
use wp_novel::{Birth, Births, Pair, Tables, no_tuple_is_old, shared_tuples_are_marked};
use wp_plain::{children_are_numbered, nodes_are_numbered};
use wp_task::{State, Track};
use wp_tuples::Places;

/// An expansion whose children are numbered: they stand here with their novelties.
#[derive(Drop)]
pub(crate) struct Numbered {
    pub newborns: Vec<Newborn>,
    pub repeats: u64,
}

/// What a child has besides its birth: the action that leads to it, the atoms that its #r counts, and R of its state where
/// it is a base.
#[derive(Drop)]
pub(crate) struct Rest {
    pub act: u32,
    pub got: State,
    pub track: Option<Track>,
}

/// Opens the pairs of an expansion, which are within the limit of words, numbers its children, marks them in the tables, and
/// reads their novelties. In the same phase jobs make broods of the first nodes that wait, and are given back. Where memory is refused the
/// tables are spent.
pub(crate) fn enter<R: Threads + Sync, P: Places, G: Gate>(
    rt: &R,
    run: &Run,
    gate: &G,
    searched: &Searched,
    tables: &mut Tables<P>,
    broods: &mut Broods,
    number: u64,
    expansion: Expansion,
) -> Result<(Numbered, AheadJobs), AllocError>
    requires { CanEnter run.now searched.now (placed P.places tables.old) broods.old number expansion }
    ensures { IfOk result (HasEntered run.now searched.now (placed P.places tables.old) number expansion (placed P.places tables.new) broods.new) }
{
    counters_are_carried();
    children_are_numbered();
    nodes_are_numbered();
    let Expansion {
        children,
        repeats,
        pairs,
    } = expansion;
    let parent = node_at(searched, number);
    open_all(tables, pairs)?;
    let (newborns, aheads) = number_all(rt, run, gate, searched, parent, tables, broods, children)?;
    Ok((Numbered { newborns, repeats }, aheads))
}

/// Numbers the children of the node `parent`, marks them in the tables, and reads their novelties: all are marked before the first of
/// them is asked for, since a later one makes no tuple old for it. Beside the marks broods of nodes that wait are made. Where memory is
/// refused the tables are spent.
fn number_all<R: Threads + Sync, P: Places, G: Gate>(
    rt: &R,
    run: &Run,
    gate: &G,
    searched: &Searched,
    parent: &Kept,
    tables: &mut Tables<P>,
    broods: &mut Broods,
    children: Vec<Child>,
) -> Result<(Vec<Newborn>, AheadJobs), AllocError>
    requires home { IsAtHome (placed P.places tables.old) }
    requires ready { All (CanBeBorn (placed P.places tables.old)) children.items }
    requires numbers { searched.now.numbered + length children.items < 2 ^ 63 }
    requires later { IfSome tables.old.last (λ last. last < searched.now.numbered) }
    requires earlier { StandsForEarlier searched.now parent.now (placed P.places tables.old) }
    requires waiting { All (λ x. IsKept searched.now.nodes.kept x.number) searched.now.queue }
    requires marked { AreMarked run.now.task searched.now.nodes }
    requires fit { Fit run.now.task searched.now.nodes broods.old }
    ensures newborns { IfOk result (λ parts. (nodes : List Generated) → StandsFor (placed P.places tables.old) nodes →
        parts.0.items ≡ newborns_of (P.places tables.old.index).width
        (nodes ++ all_numbered searched.now.numbered children.items) searched.now.numbered children.items) }
    ensures stands { OnOk result ((nodes : List Generated) → StandsFor (placed P.places tables.old) nodes →
        StandsFor (placed P.places tables.new) (nodes ++ all_numbered searched.now.numbered children.items)) }
    ensures home { OnOk result (IsAtHome (placed P.places tables.new)) }
    ensures pairs { OnOk result (open_pairs (placed P.places tables.new) ≡ open_pairs (placed P.places tables.old)) }
    ensures index { OnOk result (P.places tables.new.index ≡ P.places tables.old.index) }
    ensures limit { OnOk result (tables.new.limit ≡ tables.old.limit) }
    ensures aheads { IfOk result (λ parts. AreMade run.now.task searched.now.nodes parts.1) }
    ensures fit { OnOk result (Fit run.now.task searched.now.nodes broods.new) }
{
    // What an earlier birth shares with a child is marked, and where all atoms of a child are new nothing is shared.
    shared_tuples_are_marked();
    no_tuple_is_old();
    // Jobs for the nodes that wait can be worked, and what they make are the broods of these nodes.
    jobs_can_be_worked();
    worked_jobs_fit();
    let (births, rests) = births_of(run.alloc, searched, parent, children)?;
    // The queue is looked at before the children wait there: with them a brood could be made of a node that has no number yet.
    let aheads = broods.jobs(
        run.alloc,
        &searched.queue,
        &searched.nodes,
        run.settings.ahead,
    )?;
    let (births, aheads) = mark_all(rt, run, gate, tables, births, aheads)?;
    let newborns = newborns_of(run.alloc, tables, births.into_vec(), rests)?;
    Ok((newborns, aheads))
}

/// The children of the node `parent` as births, which have their states, and what else they have.
fn births_of(
    alloc: Global,
    searched: &Searched,
    parent: &Kept,
    children: Vec<Child>,
) -> Result<(Births, Vec<Rest>), AllocError>
    requires { searched.now.numbered + length children.items < 2 ^ 63 }
    ensures births { IfOk result (λ parts. nodes_of parts.0 ≡ all_numbered searched.now.numbered children.items) }
    ensures fresh { IfOk result (λ parts. All (IsFresh searched.now parent.now) parts.0) }
    ensures rests { IfOk result (λ parts. parts.1.items ≡ map rest_of children.items) }
{
    let count = children.len();
    let mut births = Vec::with_capacity(alloc, count)?;
    let mut rests = Vec::with_capacity(alloc, count)?;
    for child in children {
        let number = searched.numbered + births.len() as u64;
        let (birth, rest) = birth_of(alloc, searched, parent, number, child)?;
        births.push(birth)?;
        rests.push(rest)?;
    }
    Ok((Births::of_vec(births), rests))
}

/// A child as a birth, and what else it has.
fn birth_of(
    alloc: Global,
    searched: &Searched,
    parent: &Kept,
    number: u64,
    child: Child,
) -> Result<(Birth, Rest), AllocError>
    ensures birth { IfOk result (λ parts. parts.0.node ≡ numbered number child) }
    ensures fresh { IfOk result (λ parts. IsFresh searched.now parent.now parts.0) }
    ensures rest { IfOk result (λ parts. parts.1 ≡ rest_of child) }
{
    let Child {
        act,
        state,
        g,
        r,
        got,
        fresh: track,
    } = child;
    let pair = Pair { g, r };
    let fresh = fresh_of(alloc, searched, parent, pair, &state)?;
    let birth = Birth::of(alloc, number, pair, state, fresh)?;
    Ok((birth, Rest { act, got, track }))
}

/// The children with their numbers and novelties, once they are marked as these births.
fn newborns_of<P: Places>(
    alloc: Global,
    tables: &mut Tables<P>,
    births: Vec<Birth>,
    rests: Vec<Rest>,
) -> Result<Vec<Newborn>, AllocError>
    requires parts { length rests.items ≡ length births.items }
    requires home { IsAtHome (placed P.places tables.old) }
    requires asked { All (CanBeAsked (placed P.places tables.old)) births.items }
    ensures newborns { IfOk result (λ newborns. (nodes : List Generated) (first : ℕ) (children : List Child) →
        nodes_of births.items ≡ all_numbered first children → rests.items ≡ map rest_of children →
        StandsFor (placed P.places tables.old) (nodes ++ all_numbered first children) →
        newborns.items ≡ newborns_of (P.places tables.old.index).width (nodes ++ all_numbered first children) first children) }
    ensures same { tables.new ≡ tables.old }
{
    let mut newborns = Vec::with_capacity(alloc, births.len())?;
    let mut rests = rests.into_iter();
    for birth in births {
        let newborn = match rests.next() {
            Some(rest) => newborn_of(tables, birth, rest),
            None => unreachable!(),
        };
        newborns.push(newborn)?;
    }
    Ok(newborns)
}

/// The child of a birth, with its number and novelty.
fn newborn_of<P: Places>(tables: &mut Tables<P>, birth: Birth, rest: Rest) -> Newborn
    requires home { IsAtHome (placed P.places tables.old) }
    requires asked { CanBeAsked (placed P.places tables.old) birth }
    ensures number { result.number ≡ birth.node.number }
    ensures novelty { (births : List Generated) → StandsFor (placed P.places tables.old) births → Contains births birth.node →
        result.w ≡ novelty_of (P.places tables.old.index).width births birth.node }
    ensures child { result.child ≡ child_with birth.node rest }
    ensures same { tables.new ≡ tables.old }
{
    let number = birth.number();
    let Pair { g, r } = birth.pair();
    let w = tables.novelty(&birth);
    let Rest { act, got, track } = rest;
    let child = Child {
        act,
        state: birth.into_state(),
        g,
        r,
        got,
        fresh: track,
    };
    Newborn { number, w, child }
}
