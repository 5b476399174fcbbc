//! The actions of a path, along the links back to the root.
ghost use Rattle.std.specs.Prelude.{◌<◌, length, List, IfOk};
ghost use Rattle.wp_task.specs.Task.{PlanningTask};
ghost use Rattle.wp_plain.specs.Nodes.{Path};
ghost use Rattle.wp_plain.specs.Explored.{lists_of, AreReached, AreActsTo};

use crate::explored::Explored;
use std::alloc::{AllocError, Global};
use wp_task::Atoms;

/// The actions from the root to the node at a place.
pub(crate) fn plan_to(alloc: Global, explored: &Explored, place: usize) -> Result<Atoms, AllocError>
    requires place { place < length explored.now.nodes.items }
    requires reached { (task : PlanningTask) × (paths : List Path) × AreReached task paths (lists_of explored.now) }
    ensures { IfOk result (AreActsTo explored.now place) }
{
    let mut acts = Vec::new(alloc);
    let mut at = place;
    while let Some(link) = explored.ways[at].back {
        acts.push(link.act)?;
        at = link.parent as usize;
    }
    acts.reverse();
    Ok(Atoms::of_vec(acts))
}
