//! Atoms, and instances in the form of atoms, in the order of their numbers and then of their objects.

ghost use Rattle.std.specs.Prelude.{◌≡◌, ◌↔◌, Contains, IfOk};
ghost use Rattle.std.specs.List.Sorted.{IsStrictlySortedBy};
ghost use Rattle.wp_lift.specs.declared.atoms.GroundAtom.{GroundAtom};
ghost use Rattle.wp_ground.specs.Numbering.{atom_cmp};

use crate::flat::FlatAtoms;
use crate::lists::{are_same, order_of};
use std::alloc::{AllocError, Global};
use std::cmp::Ordering;
use std::marker::Model;

/// An atom whose objects lie elsewhere.
#[derive(Drop)]
pub struct Form<'a> {
    pred: u32,
    args: &'a [u32],
}

impl<'a> Model for Form<'a> {
    ghost use Rattle.wp_lift.specs.declared.atoms.GroundAtom.{GroundAtom};

    ghost Value = { GroundAtom };

    ghost view = { λ f. record { pred = f.pred; args = f.args.now } };
}

impl<'a> Form<'a> {
    pub fn new(pred: u32, args: &'a [u32]) -> Form<'a>
        ensures { result ≡ record { pred = pred; args = args.now } }
    {
        Form { pred, args }
    }

    pub fn pred(&self) -> u32
        ensures { result ≡ self.now.pred }
    {
        self.pred
    }

    pub fn args(&self) -> &'a [u32]
        ensures { result.now ≡ self.now.args }
    {
        self.args
    }
}

impl<'a> PartialEq for Form<'a> {
    ghost use Rattle.std.specs.Cmp.{partial_equiv_from_equiv};
    ghost use Rattle.wp_lift.specs.Worlds.{is_same_atom};
    ghost use Rattle.wp_ground.specs.Forms.{forms_equiv};

    ghost eq = { is_same_atom };

    ghost laws = { partial_equiv_from_equiv forms_equiv };

    fn eq(&self, other: &Form<'a>) -> bool {
        self.pred == other.pred && are_same(self.args, other.args)
    }
}

impl<'a> Eq for Form<'a> {
    ghost use Rattle.wp_ground.specs.Forms.{forms_equiv};

    ghost laws = { forms_equiv };
}

impl<'a> PartialOrd for Form<'a> {
    ghost use Rattle.std.specs.Prelude.{Some};
    ghost use Rattle.wp_ground.specs.Numbering.{atom_cmp};
    ghost use Rattle.wp_ground.specs.Forms.{forms_po};

    ghost partial_cmp = { λ a b. Some (atom_cmp a b) };

    ghost laws = { forms_po };

    fn partial_cmp(&self, other: &Form<'a>) -> Option<Ordering> {
        Some(self.cmp(other))
    }
}

impl<'a> Ord for Form<'a> {
    ghost use Rattle.std.specs.Prelude.{refl};
    ghost use Rattle.wp_ground.specs.Numbering.{atom_cmp};
    ghost use Rattle.wp_ground.specs.Forms.{forms_total, forms_ties};

    ghost cmp = { atom_cmp };

    ghost total = { forms_total };

    ghost matches_partial_cmp = { λ a b. refl };

    ghost matches_eq = { forms_ties };

    fn cmp(&self, other: &Form<'a>) -> Ordering {
        match self.pred.cmp(&other.pred) {
            Ordering::Equal => order_of(self.args, other.args),
            order => order,
        }
    }
}

/// The atoms in order, each once.
pub fn in_order(alloc: Global, atoms: &FlatAtoms) -> Result<FlatAtoms, AllocError>
    ensures rising { IfOk result (λ sorted. IsStrictlySortedBy atom_cmp sorted) }
    ensures same { IfOk result (λ sorted. (atom : GroundAtom) → Contains sorted atom ↔ Contains atoms.now atom) }
{
    let mut forms = forms_of(alloc, atoms)?;
    forms.sort_unstable();
    forms.dedup();
    let sorted = flat_of(alloc, forms.as_slice(), atoms)?;
    Ok(sorted)
}

fn forms_of<'a>(alloc: Global, atoms: &'a FlatAtoms) -> Result<Vec<Form<'a>>, AllocError>
    ensures { IfOk result (λ forms. forms.items ≡ atoms.now) }
{
    let mut forms = Vec::with_capacity(alloc, atoms.len())?;
    for place in 0..atoms.len() {
        forms.push(Form::new(atoms.pred(place), atoms.args(place)))?;
    }
    Ok(forms)
}

/// These atoms, with room for as many as the others are.
fn flat_of(alloc: Global, forms: &[Form<'_>], others: &FlatAtoms) -> Result<FlatAtoms, AllocError>
    ensures { IfOk result (λ atoms. atoms ≡ forms.now) }
{
    let mut atoms = FlatAtoms::with_room_of(alloc, others)?;
    for form in forms {
        atoms.push(form.pred(), form.args())?;
    }
    Ok(atoms)
}
