//! The generator that walks a decision tree over preconditions, after Helmert (JAIR 2006).
//!
//! Actions whose preconditions begin alike share the nodes of these atoms, so an atom that is not true cuts off all of them at
//! once. The order of the atoms is their numbers': the tree is a trie of the lists of preconditions. An index by atoms
//! with a count for each action would be the other way; it touches every action that needs a true atom.
ghost use Rattle.std.specs.Prelude.{◌≡◌, ◌++◌, [], Bool, List, map, length, IfOk, OnOk, IsTrue, if◌then◌else◌};
ghost use Rattle.wp_succ.specs.Serving.{are_preconditions_of};
ghost use Rattle.wp_succ.specs.Tree.{among, reached_by_count, AreApplicable, AreLinked};

use crate::growing::{Growing, grown};
use crate::successors::Successors;
use std::alloc::{AllocError, Global};
use std::marker::Model;
use wp_task::{Atoms, State, Task};

/// A test of one atom.
#[derive(Drop)]
pub(crate) struct Node {
    pub(crate) atom: u32,
    /// How many nodes lie before those below it, which lie right before it.
    pub(crate) before: usize,
    /// The actions whose last precondition it is.
    pub(crate) acts: Vec<u32>,
}

/// The decision tree of a task.
#[derive(Drop)]
pub struct Tree {
    nodes: Vec<Node>,
    always: Vec<u32>,
    atoms: u32,
    count: u32,
}

impl Model for Tree {
    ghost use Rattle.std.specs.Prelude.{List, ℕ};

    ghost Value = { List (List ℕ) };

    ghost use Rattle.wp_succ.specs.Tree.{needs_by_action, IsTree};

    ghost view = { needs_by_action };

    ghost invariant = { IsTree };
}

impl Tree {
    /// The tree of the actions of a task.
    pub fn of(alloc: Global, task: &Task) -> Result<Tree, AllocError>
        ensures { IfOk result (λ tree. IsTrue (⟦<Tree as Successors>⟧.serves tree task.now)) }
    {
        let Growing {
            nodes,
            way: _,
            acts,
        } = grown(alloc, task)?;
        Ok(tree_of(task, nodes, acts))
    }
}

/// The tree of these nodes, which reach what applies.
fn tree_of(task: &Task, nodes: Vec<Node>, always: Vec<u32>) -> Tree
    requires linked { AreLinked nodes.items }
    requires whole { (s : List Bool) → AreApplicable (map (λ act. act.pre) task.now.acts) s (always.items ++ among (reached_by_count s nodes.items) (length nodes.items)) }
    ensures { result ≡ map (λ act. act.pre) task.now.acts }
{
    let atoms = task.atoms();
    let count = task.act_count();
    Tree {
        nodes,
        always,
        atoms,
        count,
    }
}

impl Successors for Tree {
    ghost serves = { are_preconditions_of };

    fn list(&self, alloc: Global, task: &Task, s: &State) -> Result<Atoms, AllocError> {
        let _ = task;
        let nodes = self.nodes.as_slice();
        let always = self.always.as_slice();
        let mut found = reached(alloc, nodes, always, s)?;
        found.sort_unstable();
        Ok(Atoms::of_vec(found))
    }
}

/// The actions that are reached in a state.
// From the last node to the first: no list of nodes to visit is kept.
fn reached(alloc: Global, nodes: &[Node], always: &[u32], s: &State) -> Result<Vec<u32>, AllocError>
    requires { AreLinked nodes.now }
    ensures { IfOk result (λ found. found.items ≡ always.now ++ among (reached_by_count s.now nodes.now) (length nodes.now)) }
{
    let mut found = Vec::from_slice(alloc, always)?;
    let mut left = nodes.len();
    while left > 0 {
        let node = &nodes[left - 1];
        left = visit(&mut found, node, left - 1, s.has(node.atom))?;
    }
    Ok(found)
}

/// Looks at a node of which it is known whether its atom is true, and gives how many nodes are left to look at, of those before it.
fn visit(
    found: &mut Vec<u32>,
    node: &Node,
    earlier: usize,
    holds: bool,
) -> Result<usize, AllocError>
    ensures found { OnOk result (found.new.items ≡ found.old.items ++ (if holds then node.now.acts.items else [])) }
    ensures left { IfOk result (λ left. left ≡ (if holds then earlier else node.now.before)) }
{
    if holds {
        found.extend_from_slice(node.acts.as_slice())?;
        return Ok(earlier);
    }
    Ok(node.before)
}
