//! Ground atoms: a predicate's number with the numbers of objects.

ghost use Rattle.std.specs.Prelude.{◌≡◌, ◌++◌, ◌∷◌, [], Some, nat_eq, refl, IfOk};
ghost use Rattle.std.specs.Ordering.{nat_cmp};
ghost use Rattle.std.specs.Cmp.Lexicographic.{pointwise, slice_cmp, nat_list_eq_equiv, nat_list_cmp_total, texts_ties, texts_po};
ghost use Rattle.std.specs.Cmp.{partial_equiv_from_equiv};
ghost use Rattle.std.specs.Hash as fed;
ghost use Rattle.std.specs.Cmp.Rules.{hashing};
ghost use Rattle.std.proofs.Common.{rules};

use std::alloc::{AllocError, Global};
use std::cmp::Ordering;
use std::hash::{Hash, Hasher};
use std::marker::Model;

/// The objects that an atom or an instance is of, by number, one for each place.
#[derive(Drop)]
pub struct Args {
    items: Vec<u32>,
}

impl Model for Args {
    ghost use Rattle.std.specs.Prelude.{List, ℕ};

    ghost Value = { List ℕ };

    ghost view = { λ a. a.items.items };
}

impl Args {
    /// The list of these items, in their order.
    pub fn of_vec(items: Vec<u32>) -> Args
        ensures { result ≡ items.items }
    {
        Args { items }
    }

    pub fn into_vec(self) -> Vec<u32>
        ensures { result.items ≡ self }
    {
        let Args { items } = self;
        items
    }

    pub fn as_slice(&self) -> &[u32]
        ensures { result.now ≡ self.now }
    {
        self.items.as_slice()
    }

    /// An equal list in memory of its own.
    pub fn copy(&self, alloc: Global) -> Result<Args, AllocError>
        ensures { IfOk result (λ args. args ≡ self.now) }
    {
        let items = Vec::from_slice(alloc, self.items.as_slice())?;
        Ok(Args { items })
    }
}

impl PartialEq for Args {
    ghost eq = { pointwise nat_eq };

    ghost laws = { partial_equiv_from_equiv nat_list_eq_equiv };

    fn eq(&self, other: &Args) -> bool {
        self.items.as_slice() == other.items.as_slice()
    }
}

impl Eq for Args {
    ghost laws = { nat_list_eq_equiv };
}

/// By the first item that differs; a list comes before those that go on from it.
impl PartialOrd for Args {
    ghost partial_cmp = { λ a b. Some (slice_cmp nat_cmp a b) };

    ghost laws = { texts_po };

    fn partial_cmp(&self, other: &Args) -> Option<Ordering> {
        Some(self.cmp(other))
    }
}

impl Ord for Args {
    ghost cmp = { slice_cmp nat_cmp };

    ghost total = { nat_list_cmp_total };

    ghost matches_partial_cmp = { λ a b. refl };

    ghost matches_eq = { texts_ties };

    fn cmp(&self, other: &Args) -> Ordering {
        self.items.as_slice().cmp(other.items.as_slice())
    }
}

impl Hash for Args {
    ghost hash_input = { fed.slice fed.u32 };

    ghost respects_eq = { Prim.search (hashing, rules) };

    fn hash<H: Hasher>(&self, state: &mut H) {
        self.items.as_slice().hash(state);
    }
}

/// An atom without variables. The order is that of the predicates' numbers, then that of the arguments.
#[derive(Drop, PartialEq, Eq, PartialOrd, Ord, Hash)]
pub struct GroundAtom {
    /// The number of its predicate.
    pub pred: u32,
    pub args: Args,
}

impl GroundAtom {
    /// An equal atom in memory of its own.
    pub fn copy(&self, alloc: Global) -> Result<GroundAtom, AllocError>
        ensures { IfOk result (λ atom. atom ≡ self.now) }
    {
        let args = self.args.copy(alloc)?;
        Ok(GroundAtom {
            pred: self.pred,
            args,
        })
    }
}

/// A list of ground atoms.
#[derive(Drop)]
pub struct GroundAtoms {
    items: Vec<GroundAtom>,
}

impl Model for GroundAtoms {
    ghost use Rattle.std.specs.Prelude.{List};
    ghost use Rattle.wp_lift.specs.declared.atoms.GroundAtom.{GroundAtom};

    ghost Value = { List GroundAtom };

    ghost view = { λ a. a.items.items };
}

impl GroundAtoms {
    /// The list of these items, in their order.
    pub fn of_vec(items: Vec<GroundAtom>) -> GroundAtoms
        ensures { result ≡ items.items }
    {
        GroundAtoms { items }
    }

    pub fn into_vec(self) -> Vec<GroundAtom>
        ensures { result.items ≡ self }
    {
        let GroundAtoms { items } = self;
        items
    }

    /// The list with one more atom at the end.
    pub fn with_atom(self, atom: GroundAtom) -> Result<GroundAtoms, AllocError>
        ensures { IfOk result (λ more. more ≡ self ++ atom ∷ []) }
    {
        let GroundAtoms { items } = self;
        let mut items = items;
        items.push(atom)?;
        Ok(GroundAtoms { items })
    }

    pub fn as_slice(&self) -> &[GroundAtom]
        ensures { result.now ≡ self.now }
    {
        self.items.as_slice()
    }
}
