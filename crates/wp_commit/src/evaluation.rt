//! The evaluation of an expansion, from the brood that was made ahead of it or now.
ghost use Rattle.std.specs.Prelude.{◌≡◌, ◌<◌, length, map, All, IfOk, IfSome, OnOk};
ghost use Rattle.wp_count.specs.Broods.{child_of, IsCountOn};
ghost use Rattle.wp_relax.specs.Workspace.{room_for};
ghost use Rattle.wp_commit.specs.Searched.{IsTakenIn};
ghost use Rattle.wp_ahead.specs.Jobs.{track_of};
ghost use Rattle.wp_ahead.specs.KeptBroods.{Fit};
ghost use Rattle.wp_commit.specs.Expansions.{states_of, brood_of, AreNoRepeats, AreChildrenAt};

use crate::made::made_children;
use crate::run::Run;
use crate::searched::{Searched, node_at};
use crate::unseen::{Reached, unseen};
use std::alloc::{AllocError, Global};
use wp_ahead::Broods;
use wp_count::{Brood, Child, evaluate};
use wp_nodes::{Kept, Nodes};
use wp_novel::Pair;
use wp_relax::Workspace;
use wp_succ::Successors;
use wp_task::{Mark, Task, Track};

/// An expansion of a kept node as it is evaluated: the children that are no repeats, the number of repeats, and the
/// counter pairs of these children that are not open, each once.
#[derive(Drop)]
pub(crate) struct Expansion {
    pub children: Vec<Child>,
    pub repeats: u64,
    pub pairs: Vec<Pair>,
}

/// The children of the node that was taken which are no repeats, and how many are. A brood that was made ahead of it is used, and
/// is then gone.
pub(crate) fn children_at(
    run: &mut Run,
    searched: &Searched,
    broods: &mut Broods,
    number: u64,
) -> Result<(Vec<Child>, u64), AllocError>
    requires taken { IsTakenIn run.old.task searched.now number }
    requires fit { Fit run.old.task searched.now.nodes broods.old }
    ensures children { IfOk result (λ parts. AreChildrenAt run.old.task searched.now number parts.0.items parts.1) }
    ensures same { OnOk result (run.new ≡ run.old) }
    ensures fit { OnOk result (Fit run.old.task searched.now.nodes broods.new) }
{
    let node = node_at(searched, number);
    let made = broods.take(number);
    without_repeats(run, &searched.nodes, node, made)
}

/// The children of a node that are no repeats, and how many are: those of its brood, where one was made, or evaluated now.
fn without_repeats(
    run: &mut Run,
    nodes: &Nodes,
    node: &Kept,
    made: Option<Brood>,
) -> Result<(Vec<Child>, u64), AllocError>
    requires size { length node.now.state ≡ run.old.task.atoms }
    requires tracked { node.now.mark.track < length nodes.now.tracks }
    requires counts { IsCountOn run.old.task node.now.mark (track_of nodes.now node.now) }
    requires made { IfSome made (λ brood. brood.children ≡ brood_of run.old.task nodes.now node.now) }
    ensures children { IfOk result (λ parts. AreNoRepeats (states_of nodes.now.kept) (brood_of run.old.task nodes.now node.now) parts.0.items parts.1) }
    ensures same { OnOk result (run.new ≡ run.old) }
{
    match made {
        Some(brood) => made_children(run.alloc, nodes, brood),
        None => children_now(run, nodes, node),
    }
}

/// The same, evaluated now: repeats go out before any counter is computed.
fn children_now(run: &mut Run, nodes: &Nodes, node: &Kept) -> Result<(Vec<Child>, u64), AllocError>
    requires size { length node.now.state ≡ run.old.task.atoms }
    requires tracked { node.now.mark.track < length nodes.now.tracks }
    requires counts { IsCountOn run.old.task node.now.mark (track_of nodes.now node.now) }
    ensures children { IfOk result (λ parts. AreNoRepeats (states_of nodes.now.kept) (brood_of run.old.task nodes.now node.now) parts.0.items parts.1) }
    ensures same { OnOk result (run.new ≡ run.old) }
{
    let track = nodes.track(node.mark.track);
    let acts = run.succ.list(run.alloc, run.task, &node.state)?;
    let reached = unseen(run.alloc, run.task, nodes, &node.state, &acts)?;
    let repeats = (acts.as_slice().len() - reached.len()) as u64;
    let children = children_of(
        run.alloc,
        run.task,
        &mut run.workspace,
        &node.mark,
        track,
        reached,
    )?;
    Ok((children, repeats))
}

/// The children in these states.
fn children_of(
    alloc: Global,
    task: &Task,
    workspace: &mut Workspace,
    mark: &Mark,
    track: &Track,
    reached: Vec<Reached<u32>>,
) -> Result<Vec<Child>, AllocError>
    requires serves { workspace.old ≡ room_for task.now }
    requires sizes { All (λ x. length x.state ≡ task.now.atoms) reached.items }
    requires counts { IsCountOn task.now mark.now track.now }
    ensures value { IfOk result (λ children. children.items ≡ map (λ x. child_of task.now mark.now track.now x.rest x.state) reached.items) }
    ensures room { workspace.new ≡ workspace.old }
{
    let mut children = Vec::with_capacity(alloc, reached.len())?;
    for next in reached {
        let Reached { state, rest: act } = next;
        let child = evaluate(alloc, task, workspace, act, state, mark, track)?;
        children.push(child)?;
    }
    Ok(children)
}
