//! The atoms of the task by number, and the numbers of atoms.
//!
//! The reached atoms are sorted by predicate and then by argument tuple; they are put into a table in this order, so that
//! the place of an atom there is its number, and a number is found by hash.

ghost use Rattle.std.specs.Prelude.{◌≡◌, ◌==◌, ◌||◌, ◌≤◌, ◌<◌, ◌++◌, ◌∷◌, [], ℕ, List, Option, true, length, map, filter, slice_index, IfOk, OnOk, MatchOption, if◌then◌else◌};
ghost use Rattle.std.specs.List.{cons_option, filter_map, list_any, range_with_len};
ghost use Rattle.std.specs.List.Sorted.{IsStrictlySortedBy};
ghost use Rattle.wp_lift.specs.declared.atoms.GroundAtom.{GroundAtom};
ghost use Rattle.wp_lift.specs.declared.schemas.Schema.{Schema};
ghost use Rattle.wp_lift.specs.declared.schemas.SlotEffect.{SlotEffect};
ghost use Rattle.wp_lift.specs.Worlds.{among};
ghost use Rattle.wp_lift.specs.Formed.{IsAtom};
ghost use Rattle.wp_ground.specs.Tasks.{changes, atom_at, atoms_of, numbers_of};
ghost use Rattle.wp_ground.specs.Flat.{atom_with};
ghost use Rattle.wp_ground.specs.Numbering.{atom_cmp, number_in, has_flag};

use crate::forms::Form;
use crate::table::AtomTable;
use std::alloc::{AllocError, Global};
use std::marker::Model;
use wp_lift::{GroundAtom, Lifted, SlotEffect};
use wp_task::Atoms;

const MOST_ATOMS: usize = 65536;

/// The atoms of a task by number.
#[derive(Drop)]
pub struct TaskAtoms {
    atoms: AtomTable,
}

impl Model for TaskAtoms {
    ghost use Rattle.std.specs.Prelude.{List};
    ghost use Rattle.wp_lift.specs.declared.atoms.GroundAtom.{GroundAtom};
    ghost use Rattle.wp_ground.specs.Numbering.{AreNumbered};

    ghost Value = { List GroundAtom };

    ghost view = { λ a. a.atoms };

    ghost invariant = { λ a. AreNumbered a.atoms };
}

impl TaskAtoms {
    /// The reached atoms whose predicates some effect names. None exactly where there are more than 65,536.
    pub fn of_reached(
        alloc: Global,
        lifted: &Lifted,
        reached: &AtomTable,
    ) -> Result<Option<TaskAtoms>, AllocError>
        requires { (a : GroundAtom) → among reached.now a ≡ true → IsAtom lifted.now a }
        ensures { IfOk result (λ found. MatchOption found
            (65536 < length (atoms_of lifted.now (among reached.now)))
            (λ atoms. (atoms ≡ atoms_of lifted.now (among reached.now)) × (length (atoms_of lifted.now (among reached.now)) ≤ 65536))) }
    {
        let forms = forms_in_order(alloc, lifted, reached)?;
        if forms.as_slice().len() > MOST_ATOMS {
            return Ok(None);
        }
        let atoms = table_of(alloc, forms.as_slice())?;
        Ok(Some(TaskAtoms { atoms }))
    }

    pub fn len(&self) -> usize
        ensures value { result ≡ length self.now }
        ensures few { length self.now ≤ 65536 }
    {
        self.atoms.len()
    }

    /// The predicate of the atom of a number.
    pub fn pred(&self, number: usize) -> u32
        requires { number < length self.now }
        ensures { result ≡ (atom_at self.now number).pred }
    {
        self.atoms.pred(number)
    }

    /// The objects of the atom of a number.
    pub fn args(&self, number: usize) -> &[u32]
        requires { number < length self.now }
        ensures { result.now ≡ (atom_at self.now number).args }
    {
        self.atoms.args(number)
    }

    /// The number of the atom, if it has one.
    pub fn number_of(&self, pred: u32, args: &[u32]) -> Option<u32>
        ensures { result ≡ number_in self.now (atom_with pred args.now) }
    {
        self.atoms.find(pred, args)
    }

    /// The numbers of the wanted atoms, in order. What has no number is left out.
    pub fn numbers(&self, alloc: Global, wanted: &[GroundAtom]) -> Result<Atoms, AllocError>
        ensures { IfOk result (λ numbers. numbers ≡ numbers_of self.now (among wanted.now)) }
    {
        let mut numbers = Vec::with_capacity(alloc, wanted.len())?;
        for atom in wanted {
            push_some(
                &mut numbers,
                self.number_of(atom.pred, atom.args.as_slice()),
            )?;
        }
        self.put_in_order(&mut numbers);
        Ok(Atoms::of_vec(numbers))
    }

    /// Puts numbers that were found in order, each once.
    pub fn put_in_order(&self, numbers: &mut Vec<u32>)
        ensures { (wanted : List GroundAtom) → numbers.old.items ≡ filter_map (number_in self.now) wanted
            → numbers.new.items ≡ numbers_of self.now (among wanted) }
    {
        let _atoms = &self.atoms;
        numbers.sort_unstable();
        numbers.dedup();
    }
}

/// Puts a number at the end, if there is one.
pub fn push_some(numbers: &mut Vec<u32>, number: Option<u32>) -> Result<(), AllocError>
    ensures { OnOk result (numbers.new.items ≡ numbers.old.items ++ cons_option number []) }
{
    if let Some(number) = number {
        numbers.push(number)?;
    }
    Ok(())
}

fn table_of(alloc: Global, forms: &[Form<'_>]) -> Result<AtomTable, AllocError>
    ensures { IfOk result (λ atoms. atoms ≡ forms.now) }
{
    let mut atoms = AtomTable::with_room(alloc, forms.len())?;
    for form in forms {
        atoms.add(form.pred(), form.args())?;
    }
    Ok(atoms)
}

fn forms_in_order<'a>(
    alloc: Global,
    lifted: &Lifted,
    reached: &'a AtomTable,
) -> Result<Vec<Form<'a>>, AllocError>
    requires { (a : GroundAtom) → among reached.now a ≡ true → IsAtom lifted.now a }
    ensures value { IfOk result (λ atoms. atoms.items ≡ atoms_of lifted.now (among reached.now)) }
    ensures rising { IfOk result (λ atoms. IsStrictlySortedBy atom_cmp atoms.items) }
{
    let mut atoms = changing_forms(alloc, lifted, reached)?;
    atoms.sort_unstable();
    atoms.dedup();
    Ok(atoms)
}

/// The reached atoms whose predicates some effect names.
fn changing_forms<'a>(
    alloc: Global,
    lifted: &Lifted,
    reached: &'a AtomTable,
) -> Result<Vec<Form<'a>>, AllocError>
    ensures { IfOk result (λ atoms. atoms.items
        ≡ filter (λ (a : GroundAtom). has_flag (map (changes lifted.now) (range_with_len 0 (length lifted.now.preds))) a.pred) reached.now) }
{
    let changing = changing_preds(alloc, lifted)?;
    let mut atoms = Vec::new(alloc);
    for place in 0..reached.len() {
        let form = Form::new(reached.pred(place), reached.args(place));
        let changes = has_flag(&changing, form.pred());
        push_if(&mut atoms, form, changes)?;
    }
    Ok(atoms)
}

fn push_if<'a>(atoms: &mut Vec<Form<'a>>, atom: Form<'a>, wanted: bool) -> Result<(), AllocError>
    ensures { OnOk result (atoms.new.items ≡ atoms.old.items ++ (if wanted then atom.entry ∷ [] else [])) }
{
    if wanted {
        atoms.push(atom)?;
    }
    Ok(())
}

fn has_flag(flags: &[bool], number: u32) -> bool
    ensures { result ≡ has_flag flags.now number }
{
    flags.get(number as usize).copied().unwrap_or(false)
}

/// For each predicate, whether some effect names it.
fn changing_preds(alloc: Global, lifted: &Lifted) -> Result<Vec<bool>, AllocError>
    ensures { IfOk result (λ changing. changing.items ≡ map (changes lifted.now) (range_with_len 0 (length lifted.now.preds))) }
{
    let mut changing = vec![in alloc; false; lifted.preds().as_slice().len()]?;
    for schema in lifted.schemas().as_slice() {
        mark_all(&mut changing, schema.effects.as_slice());
    }
    Ok(changing)
}

/// Sets the flags of the predicates that the effects name.
fn mark_all(flags: &mut Vec<bool>, effects: &[SlotEffect])
    ensures size { length flags.new.items ≡ length flags.old.items }
    ensures marked { (p : ℕ) → p < length flags.old.items → has_flag flags.new.items p
        ≡ (has_flag flags.old.items p || list_any (λ (effect : SlotEffect). effect.atom.pred == p) effects.now) }
{
    for effect in effects {
        mark(flags, effect.atom.pred);
    }
}

fn mark(flags: &mut Vec<bool>, number: u32)
    ensures size { length flags.new.items ≡ length flags.old.items }
    ensures marked { (p : ℕ) → p < length flags.old.items → has_flag flags.new.items p ≡ (has_flag flags.old.items p || (number == p)) }
{
    let place = number as usize;
    if place < flags.len() {
        flags[place] = true;
    }
}
