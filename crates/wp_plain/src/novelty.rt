//! The novelty of a node, by scanning all nodes for each tuple of its atoms.
ghost use Rattle.std.specs.Prelude.{◌≡◌, ◌&&◌, ◌++◌, ◌∷◌, [], ◌≤◌, ◌+◌, IfOk, OnOk, if◌then◌else◌};
ghost use Rattle.std.specs.List.{list_all, list_any};
ghost use Rattle.wp_task.specs.Set.{has, atoms_in};
ghost use Rattle.wp_task.specs.Novelty.{is_earlier, sets_of, is_new, novelty_of};
ghost use Rattle.wp_plain.specs.Nodes.{generated_in};

use crate::node::{GeneratedNode, SearchNode};
use std::alloc::{AllocError, Global};
use wp_task::State;

/// The novelty of a node among these.
pub(crate) fn novelty(
    alloc: Global,
    width: u8,
    nodes: &[SearchNode],
    x: &GeneratedNode,
) -> Result<u8, AllocError>
    requires { (1 ≤ width) × (width ≤ 2) }
    ensures value { IfOk result (λ w. w ≡ novelty_of width (generated_in nodes.now) x.now) }
{
    let atoms = atoms_of(alloc, x.state())?;
    for size in 1..width + 1 {
        if has_new(nodes, x, size, &atoms) {
            return Ok(size);
        }
    }
    Ok(width + 1)
}

/// The atoms of a state, in order.
fn atoms_of(alloc: Global, state: &State) -> Result<Vec<u32>, AllocError>
    ensures { IfOk result (λ atoms. atoms.items ≡ atoms_in state.now) }
{
    let mut atoms = Vec::new(alloc);
    for p in 0..state.size() {
        push_if(&mut atoms, p, state.has(p))?;
    }
    Ok(atoms)
}

fn push_if(numbers: &mut Vec<u32>, number: u32, wished: bool) -> Result<(), AllocError>
    ensures { OnOk result (numbers.new.items ≡ numbers.old.items ++ (if wished then number ∷ [] else [])) }
{
    if wished {
        numbers.push(number)?;
    }
    Ok(())
}

/// Whether so many of the atoms are new together.
fn has_new(nodes: &[SearchNode], x: &GeneratedNode, size: u8, atoms: &[u32]) -> bool
    requires { (1 ≤ size) × (size ≤ 2) }
    ensures { result ≡ list_any (is_new (generated_in nodes.now) x.now) (sets_of size atoms.now) }
{
    if size == 1 {
        has_new_atom(nodes, x, atoms)
    } else {
        has_new_pair(nodes, x, atoms)
    }
}

/// Whether one of the atoms is new.
fn has_new_atom(nodes: &[SearchNode], x: &GeneratedNode, atoms: &[u32]) -> bool
    ensures { result ≡ list_any (λ p. is_new (generated_in nodes.now) x.now (p ∷ [])) atoms.now }
{
    atoms.iter().any(|p| is_new(nodes, x, &[*p]))
}

/// Whether two of the atoms are new together.
fn has_new_pair(nodes: &[SearchNode], x: &GeneratedNode, atoms: &[u32]) -> bool
    ensures { result ≡ list_any (is_new (generated_in nodes.now) x.now) (sets_of 2 atoms.now) }
{
    for place in 0..atoms.len() {
        if has_new_pair_with(nodes, x, atoms[place], &atoms[place + 1..]) {
            return true;
        }
    }
    false
}

/// Whether an atom and one of the others are new together.
fn has_new_pair_with(nodes: &[SearchNode], x: &GeneratedNode, p: u32, atoms: &[u32]) -> bool
    ensures { result ≡ list_any (λ q. is_new (generated_in nodes.now) x.now (p ∷ q ∷ [])) atoms.now }
{
    atoms.iter().any(|q| is_new(nodes, x, &[p, *q]))
}

/// Whether no earlier node with the counters of x has the whole tuple.
fn is_new(nodes: &[SearchNode], x: &GeneratedNode, tuple: &[u32]) -> bool
    ensures { result ≡ is_new (generated_in nodes.now) x.now tuple.now }
{
    !some_makes_old(nodes, x, tuple)
}

fn some_makes_old(nodes: &[SearchNode], x: &GeneratedNode, tuple: &[u32]) -> bool
    ensures { result ≡ list_any (λ y. is_earlier x.now y.generated && list_all (has y.generated.state) tuple.now) nodes.now }
{
    nodes.iter().any(|y| y.generated().makes_old(x, tuple))
}
