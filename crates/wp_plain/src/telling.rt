//! What is told of an expansion.
ghost use Rattle.std.specs.Prelude.{◌≡◌, ◌<◌, drop, false, length, IfOk, MatchOption};
ghost use Rattle.wp_plain.specs.Explored.{borns_by, event_at, lists_of};

use crate::explored::Explored;
use std::alloc::{AllocError, Global};
use wp_watch::{Born, Borns, Event};

/// What is told of the expansion of the node at a place, whose children are the nodes from `first` on, where that is wanted.
pub(crate) fn told_at(
    alloc: Global,
    explored: &Explored,
    place: usize,
    repeats: u64,
    first: usize,
    wanted: bool,
) -> Result<Option<Event>, AllocError>
    requires place { place < length explored.now.nodes.items }
    requires ways { length explored.now.ways.items ≡ length explored.now.nodes.items }
    ensures { IfOk result (λ told. MatchOption told (wanted ≡ false) (λ event. event ≡ event_at (lists_of explored.now) place repeats first)) }
{
    if !wanted {
        return Ok(None);
    }
    let event = event_at(alloc, explored, place, repeats, first)?;
    Ok(Some(event))
}

fn event_at(
    alloc: Global,
    explored: &Explored,
    place: usize,
    repeats: u64,
    first: usize,
) -> Result<Event, AllocError>
    requires place { place < length explored.now.nodes.items }
    requires ways { length explored.now.ways.items ≡ length explored.now.nodes.items }
    ensures { IfOk result (λ event. event ≡ event_at (lists_of explored.now) place repeats first) }
{
    let born = borns_from(alloc, explored, first)?;
    Ok(explored.nodes[place].event(repeats, Borns::of_vec(born)))
}

/// What is told of the nodes from `first` on.
fn borns_from(alloc: Global, explored: &Explored, first: usize) -> Result<Vec<Born>, AllocError>
    requires { length explored.now.ways.items ≡ length explored.now.nodes.items }
    ensures { IfOk result (λ born. born.items ≡ borns_by (drop first explored.now.nodes.items) (drop first explored.now.ways.items)) }
{
    let mut born = Vec::new(alloc);
    for number in first..explored.nodes.len() {
        born.push(explored.nodes[number].born(explored.ways[number].act()))?;
    }
    Ok(born)
}
