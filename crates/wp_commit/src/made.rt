//! Which children of a brood that was made ahead are no repeats.
ghost use Rattle.std.specs.Prelude.{◌≡◌, map, IfOk};
ghost use Rattle.wp_plain.specs.Expansion.{unseen};
ghost use Rattle.wp_commit.specs.Expansions.{states_of, AreNoRepeats};
ghost use Rattle.wp_commit.specs.MadeChildren.{reached_as, child_as};

use crate::unseen::{Reached, insert_unseen};
use indexmap::IndexSet;
use std::alloc::{AllocError, Global};
use wp_count::{Brood, Child};
use wp_nodes::Nodes;
use wp_task::{State, Track};

/// What a child is besides its state.
#[derive(Drop)]
pub(crate) struct Evaluated {
    pub act: u32,
    pub g: u32,
    pub r: u32,
    pub got: State,
    pub fresh: Option<Track>,
}

/// The children of a brood that are no repeats, and how many are.
pub(crate) fn made_children(
    alloc: Global,
    nodes: &Nodes,
    brood: Brood,
) -> Result<(Vec<Child>, u64), AllocError>
    ensures { IfOk result (λ parts. AreNoRepeats (states_of nodes.now.kept) brood.children parts.0.items parts.1) }
{
    let all = brood.into_children().into_vec();
    let count = all.len();
    let reached = unseen_children(alloc, nodes, all)?;
    let repeats = (count - reached.len()) as u64;
    let children = children_as(alloc, reached)?;
    Ok((children, repeats))
}

/// The children that are no repeats: their states are those of no kept node and of no earlier child.
fn unseen_children(
    alloc: Global,
    nodes: &Nodes,
    children: Vec<Child>,
) -> Result<Vec<Reached<Evaluated>>, AllocError>
    ensures { IfOk result (λ reached. reached.items ≡ unseen (λ x. x.state) (states_of nodes.now.kept) (map reached_as children.items)) }
{
    let mut reached = IndexSet::new(alloc);
    for child in children {
        insert_unseen(nodes, &mut reached, taken_apart(child))?;
    }
    reached.into_iter().collect(alloc)
}

/// A child, by its state and what else it is.
fn taken_apart(child: Child) -> Reached<Evaluated>
    ensures { result ≡ reached_as child }
{
    let Child {
        act,
        state,
        g,
        r,
        got,
        fresh,
    } = child;
    Reached {
        state,
        rest: Evaluated {
            act,
            g,
            r,
            got,
            fresh,
        },
    }
}

/// The children that these are.
fn children_as(alloc: Global, reached: Vec<Reached<Evaluated>>) -> Result<Vec<Child>, AllocError>
    ensures { IfOk result (λ children. children.items ≡ map child_as reached.items) }
{
    let mut children = Vec::with_capacity(alloc, reached.len())?;
    for next in reached {
        children.push(put_together(next))?;
    }
    Ok(children)
}

/// The child of a state and what else it is.
fn put_together(next: Reached<Evaluated>) -> Child
    ensures { result ≡ child_as next }
{
    let Reached { state, rest } = next;
    let Evaluated {
        act,
        g,
        r,
        got,
        fresh,
    } = rest;
    Child {
        act,
        state,
        g,
        r,
        got,
        fresh,
    }
}
