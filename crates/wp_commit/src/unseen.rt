//! Which successors of a node are no repeats.
ghost use Rattle.std.specs.Prelude.{◌≡◌, ◌<◌, ◌∷◌, [], ◌++◌, length, map, All, IfOk, OnOk, if◌then◌else◌};
ghost use Rattle.std.specs.List.{list_any};
ghost use Rattle.std.specs.Bool.{beq};
ghost use Rattle.std.specs.Cmp.Lexicographic.{pointwise};
ghost use Rattle.wp_plain.specs.Expansion.{unseen};
ghost use Rattle.wp_commit.specs.Expansions.{states_of, successors_by};

use indexmap::IndexSet;
use std::alloc::{AllocError, Global};
use std::hash::{Hash, Hasher};
use wp_nodes::Nodes;
use wp_task::{Atoms, State, Task};

/// A state that is reached, and what belongs to it: an action that leads there, or what the state was evaluated to. It is found by its
/// state.
#[derive(Drop)]
pub(crate) struct Reached<T> {
    pub state: State,
    pub rest: T,
}

impl<T> PartialEq for Reached<T> {
    ghost use Rattle.std.specs.Bool.{beq};
    ghost use Rattle.std.specs.Cmp.{bool_eq_equiv, partial_equiv_from_equiv};
    ghost use Rattle.std.specs.Cmp.Lexicographic.{pointwise};
    ghost use Rattle.std.proofs.lemmas.Cmp.{lists_equiv, on_equiv};
    ghost use Rattle.wp_commit.specs.declared.unseen.Reached.{Reached};

    ghost eq = { λ a b. pointwise beq a.state b.state };

    ghost laws = { partial_equiv_from_equiv (on_equiv (λ (x : Reached T). x.state) (lists_equiv bool_eq_equiv)) };

    fn eq(&self, other: &Reached<T>) -> bool {
        self.state == other.state
    }
}

impl<T> Eq for Reached<T> {
    ghost use Rattle.std.specs.Cmp.{bool_eq_equiv};
    ghost use Rattle.std.proofs.lemmas.Cmp.{lists_equiv, on_equiv};
    ghost use Rattle.wp_commit.specs.declared.unseen.Reached.{Reached};

    ghost laws = { on_equiv (λ (x : Reached T). x.state) (lists_equiv bool_eq_equiv) };
}

impl<T> Hash for Reached<T> {
    ghost use Rattle.std.proofs.Common.{ap};
    ghost use Rattle.std.specs.Prelude.{refl};
    ghost use Rattle.std.specs.Bool.{beq};
    ghost use Rattle.std.specs.Cmp.{booleans_Decides};
    ghost use Rattle.std.specs.Cmp.Lexicographic.{pointwise};
    ghost use Rattle.std.proofs.lemmas.Slice.Eq.{slice_eq-Decides};
    ghost use Rattle.wp_task.specs.Packing.{hashed_words};

    ghost hash_input = { λ x. hashed_words x.state };

    ghost respects_eq = { λ a b h. ap hashed_words ((slice_eq-Decides booleans_Decides a.state b.state (pointwise beq a.state b.state) refl).0 h) };

    fn hash<H: Hasher>(&self, state: &mut H) {
        self.state.hash(state);
    }
}

/// The successors that are no repeats: their states are those of no kept node and of no earlier successor.
pub(crate) fn unseen(
    alloc: Global,
    task: &Task,
    nodes: &Nodes,
    state: &State,
    acts: &Atoms,
) -> Result<Vec<Reached<u32>>, AllocError>
    requires size { length state.now ≡ task.now.atoms }
    requires numbers { All (λ a. a < length task.now.acts) acts.now }
    ensures { IfOk result (λ reached. reached.items ≡ unseen (λ x. x.state) (states_of nodes.now.kept) (successors_by task.now.acts state.now acts.now)) }
{
    let mut reached = IndexSet::new(alloc);
    for act in acts.as_slice() {
        let next = task.apply(alloc, state, *act)?;
        insert_unseen(
            nodes,
            &mut reached,
            Reached {
                state: next,
                rest: *act,
            },
        )?;
    }
    reached.into_iter().collect(alloc)
}

/// Puts a state to those before it, unless it was seen.
// The look at the kept nodes goes first: most repeats are found there.
pub(crate) fn insert_unseen<T: Drop>(
    nodes: &Nodes,
    reached: &mut IndexSet<Reached<T>>,
    next: Reached<T>,
) -> Result<(), AllocError>
    ensures { OnOk result (reached.new.keys ≡ (if list_any (pointwise beq next.state) (states_of nodes.now.kept ++ map (λ x. x.state) reached.old.keys) then reached.old.keys else reached.old.keys ++ next ∷ [])) }
{
    if nodes.find(&next.state).is_some() {
        return Ok(());
    }
    reached.insert(next)?;
    Ok(())
}
