//! What the names of an atom stand for.

ghost use Rattle.std.specs.Prelude.{◌≡◌};
ghost use Rattle.wp_lift.specs.Walk.{Finds, Gives, each};
ghost use Rattle.wp_lift.specs.Lifting.{naming_of, is_variable, slot_of, atom_of};

use crate::fault::{Fault, bad, push, wrong};
use crate::names::NameTable;
use crate::preds::PredTable;
use crate::schemas::{Slot, SlotAtom, Slots};
use std::alloc::Global;
use wp_edge::Text;
use wp_syntax::{AtomText, Name, Part, PddlError, PddlKind};

/// The predicates, objects and parameters of which an atom of the part may speak.
#[derive(Clone, Copy)]
pub struct Scope<'a> {
    pub part: Part,
    pub preds: &'a PredTable,
    pub objects: &'a NameTable,
    pub params: &'a NameTable,
}

fn is_variable(word: &Text) -> bool
    ensures { result ≡ is_variable word.now }
{
    word.as_slice().first().copied().unwrap_or(0) == b'?'
}

/// What a term stands for.
#[tactic(auto, unfolding(crate::specs::Lifting::slot_of))]
pub fn slot_of(scope: Scope<'_>, term: &Name) -> Result<Slot, Fault>
    ensures { Finds result (slot_of (naming_of scope.entry) term.now) }
{
    if is_variable(&term.text) {
        match scope.params.number_of(&term.text) {
            Some(place) => Ok(Slot::Param { place }),
            None => Err(wrong(scope.part, PddlKind::UnknownVariable, term.at)),
        }
    } else {
        match scope.objects.number_of(&term.text) {
            Some(number) => Ok(Slot::Object { number }),
            None => Err(wrong(scope.part, PddlKind::UnknownObject, term.at)),
        }
    }
}

fn slots_of(alloc: Global, scope: Scope<'_>, terms: &[Name]) -> Result<Slots, PddlError>
    ensures { Gives result (each (slot_of (naming_of scope.entry)) terms.now) }
{
    let mut slots = Vec::new(alloc);
    for term in terms {
        let slot = slot_of(scope, term)?;
        push(&mut slots, slot)?;
    }
    Ok(Slots::of_vec(slots))
}

/// The atom of a predicate's name and terms.
#[tactic(auto, unfolding(crate::specs::Lifting::atom_of))]
pub fn atom_of(alloc: Global, scope: Scope<'_>, atom: &AtomText) -> Result<SlotAtom, PddlError>
    ensures { Gives result (atom_of (naming_of scope.entry) atom.now) }
{
    let Some(pred) = scope.preds.named(&atom.pred.text) else {
        return Err(bad(scope.part, PddlKind::UnknownPredicate, atom.pred.at));
    };
    if atom.args.as_slice().len() != scope.preds.arity_of(pred) as usize {
        return Err(bad(scope.part, PddlKind::Arity, atom.pred.at));
    }
    let slots = slots_of(alloc, scope, atom.args.as_slice())?;
    Ok(SlotAtom { pred, slots })
}
