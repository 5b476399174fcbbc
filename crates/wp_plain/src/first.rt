//! Which node is looked at next.
ghost use Rattle.std.specs.Prelude.{◌≡◌, ◌<◌, length, IfSome};
ghost use Rattle.wp_plain.specs.Nodes.{first_of_two, first_waiting, FirstIsLeast};
ghost use Rattle.wp_plain.specs.Explored.{node_at, looked};

use crate::node::SearchNode;

/// The place of the first waiting node.
pub(crate) fn first_waiting(nodes: &[SearchNode]) -> Option<usize>
    ensures value { looked nodes.now result ≡ first_waiting nodes.now }
    ensures range { IfSome result (λ place. place < length nodes.now) }
{
    let mut first = None;
    for place in 0..nodes.len() {
        first = first_of_two(nodes, first, place);
    }
    first
}

/// The place of the first of a waiting node, if there is one, and the node at a place, if it waits.
fn first_of_two(nodes: &[SearchNode], first: Option<usize>, place: usize) -> Option<usize>
    requires place { place < length nodes.now }
    requires first { IfSome first (λ other. other < length nodes.now) }
    ensures value { looked nodes.now result ≡ first_of_two (looked nodes.now first) (node_at nodes.now place) }
    ensures range { IfSome result (λ other. other < length nodes.now) }
{
    match first {
        Some(other) => {
            if nodes[place].waits() && nodes[place].comes_before(&nodes[other]) {
                Some(place)
            } else {
                Some(other)
            }
        }
        None => {
            if nodes[place].waits() {
                Some(place)
            } else {
                None
            }
        }
    }
}

/// The node that is found first waits, and none that waits comes before it.
pub fn first_is_least()
    ensures { FirstIsLeast }
{}
