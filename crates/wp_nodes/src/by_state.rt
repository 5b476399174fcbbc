//! Kept nodes as keys of a table: by their states alone.

use crate::kept::Kept;
use indexmap::Equivalent;
use std::hash::{Hash, Hasher};
use std::marker::Model;
use wp_task::State;

/// A kept node that is found by its state. No two kept nodes have one state.
#[derive(Drop)]
pub(crate) struct ByState {
    pub(crate) node: Kept,
}

impl Model for ByState {
    ghost use Rattle.wp_nodes.specs.declared.kept.Kept.{Kept};

    ghost Value = { Kept };

    ghost view = { λ b. b.node };
}

impl PartialEq for ByState {
    ghost use Rattle.std.specs.Cmp.{bool_eq_equiv, partial_equiv_from_equiv};
    ghost use Rattle.std.proofs.lemmas.Cmp.{lists_equiv, on_equiv};
    ghost use Rattle.wp_nodes.specs.declared.kept.Kept.{Kept};
    ghost use Rattle.wp_nodes.specs.KeptNodes.{has_state};

    ghost eq = { λ a b. has_state a.state b };

    ghost laws = { partial_equiv_from_equiv (on_equiv (λ (k : Kept). k.state) (lists_equiv bool_eq_equiv)) };

    fn eq(&self, other: &ByState) -> bool {
        self.node.state == other.node.state
    }
}

impl Eq for ByState {
    ghost use Rattle.std.specs.Cmp.{bool_eq_equiv};
    ghost use Rattle.std.proofs.lemmas.Cmp.{lists_equiv, on_equiv};
    ghost use Rattle.wp_nodes.specs.declared.kept.Kept.{Kept};

    ghost laws = { on_equiv (λ (k : Kept). k.state) (lists_equiv bool_eq_equiv) };
}

impl Hash for ByState {
    ghost use Rattle.std.proofs.Common.{ap};
    ghost use Rattle.wp_task.specs.Packing.{hashed_words};
    ghost use Rattle.std.specs.Prelude.{refl};
    ghost use Rattle.std.specs.Cmp.{booleans_Decides};
    ghost use Rattle.std.proofs.lemmas.Slice.Eq.{slice_eq-Decides};
    ghost use Rattle.wp_nodes.specs.KeptNodes.{has_state};

    ghost hash_input = { λ k. hashed_words k.state };

    ghost respects_eq = { λ a b h. ap hashed_words ((slice_eq-Decides booleans_Decides a.state b.state (has_state a.state b) refl).0 h) };

    fn hash<H: Hasher>(&self, state: &mut H) {
        self.node.state.hash(state);
    }
}

impl Equivalent<ByState> for &State {
    ghost use Rattle.std.specs.Prelude.{refl};
    ghost use Rattle.std.specs.Cmp.{bool_eq_equiv, booleans_Decides};
    ghost use Rattle.std.proofs.Common.{ap};
    ghost use Rattle.std.proofs.lemmas.Cmp.{lists_equiv};
    ghost use Rattle.std.proofs.lemmas.Slice.Eq.{slice_eq-Decides};
    ghost use Rattle.wp_task.specs.Packing.{hashed_words};
    ghost use Rattle.wp_nodes.specs.KeptNodes.{has_state};

    ghost equivalent = { λ q k. has_state q.now k };

    ghost respects_hash = { λ q k h. ap hashed_words ((slice_eq-Decides booleans_Decides q.now k.state (has_state q.now k) refl).0 h) };

    ghost respects_eq = { λ q x y. (lists_equiv bool_eq_equiv).congr q.now x.state y.state };

    fn equivalent(&self, key: &ByState) -> bool {
        **self == key.node.state
    }
}
