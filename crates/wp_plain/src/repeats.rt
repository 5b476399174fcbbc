//! Which children of an expansion are repeats.
ghost use Rattle.std.specs.Prelude.{◌≡◌, ◌++◌, ◌∷◌, [], ◌&&◌, map, IfOk, OnOk, if◌then◌else◌};
ghost use Rattle.std.specs.List.{list_any};
ghost use Rattle.std.specs.Bool.{beq};
ghost use Rattle.std.specs.Cmp.Lexicographic.{pointwise};
ghost use Rattle.wp_plain.specs.Nodes.{states_kept};
ghost use Rattle.wp_plain.specs.Expansion.{unseen, RepeatsAreLeftOut};

use crate::node::SearchNode;
use std::alloc::{AllocError, Global};
use wp_count::Child;
use wp_task::State;

/// The children that are no repeats.
pub(crate) fn unseen(
    alloc: Global,
    nodes: &[SearchNode],
    children: Vec<Child>,
) -> Result<Vec<Child>, AllocError>
    ensures { IfOk result (λ fresh. fresh.items ≡ unseen (λ c. c.state) (states_kept nodes.now) children.items) }
{
    let mut fresh = Vec::new(alloc);
    for child in children {
        push_unseen(nodes, &mut fresh, child)?;
    }
    Ok(fresh)
}

fn push_unseen(nodes: &[SearchNode], fresh: &mut Vec<Child>, child: Child) -> Result<(), AllocError>
    ensures { OnOk result (fresh.new.items ≡ (if list_any (pointwise beq child.state) (states_kept nodes.now ++ map (λ c. c.state) fresh.old.items) then fresh.old.items else fresh.old.items ++ child ∷ [])) }
{
    if !is_repeat(nodes, fresh, &child.state) {
        fresh.push(child)?;
    }
    Ok(())
}

/// Whether a state is that of a kept node or of one of the children.
fn is_repeat(nodes: &[SearchNode], fresh: &[Child], state: &State) -> bool
    ensures { result ≡ list_any (pointwise beq state.now) (states_kept nodes.now ++ map (λ c. c.state) fresh.now) }
{
    is_kept_state(nodes, state) || is_child_state(fresh, state)
}

fn is_kept_state(nodes: &[SearchNode], state: &State) -> bool
    ensures { result ≡ list_any (λ n. n.kept && pointwise beq state.now n.generated.state) nodes.now }
{
    nodes.iter().any(|n| n.is_kept_at(state))
}

fn is_child_state(children: &[Child], state: &State) -> bool
    ensures { result ≡ list_any (λ c. pointwise beq state.now c.state) children.now }
{
    children.iter().any(|c| *state == c.state)
}

/// What is left out of a list of children are its repeats: those whose state is that of a kept node or of an earlier child.
pub fn repeats_are_left_out()
    ensures { RepeatsAreLeftOut }
{}
