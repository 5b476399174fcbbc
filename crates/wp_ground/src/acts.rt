//! The actions of the task: the instances whose conditions are reached, over the numbers of the task's atoms.

ghost use Rattle.std.specs.Prelude.{◌≡◌, ◌≢◌, ◌≤◌, ◌<◌, ◌++◌, ◌∷◌, [], ℕ, true, false, not, length, map, filter, slice_index, All, IfOk, OnOk, if◌then◌else◌};
ghost use Rattle.std.specs.List.{cons_option, filter_map};
ghost use Rattle.std.specs.List.Sorted.{IsStrictlyIncreasing};
ghost use Rattle.wp_lift.specs.Problem.{Instance, schema_at};
ghost use Rattle.wp_lift.specs.Worlds.{among, grounded};
ghost use Rattle.wp_task.specs.Set.{lists};
ghost use Rattle.wp_ground.specs.Tasks.{needs_in, numbers_of, act_of};
ghost use Rattle.wp_ground.specs.Sweeps.{with_schema};
ghost use Rattle.wp_ground.specs.Numbering.{number_in};
ghost use Rattle.wp_ground.specs.Acts.{changed_atoms};

use crate::meeting::ground_into;
use crate::numbering::{TaskAtoms, push_some};
use crate::steps::Steps;
use std::alloc::{AllocError, Global};
use wp_lift::{Lifted, SlotAtom, SlotCond, SlotEffect};
use wp_task::{Act, Acts, Atoms};

/// Lists that are filled anew for each instance: the objects of an atom that is looked up, and the numbers of atoms.
#[derive(Drop)]
struct Scratch {
    objects: Vec<u32>,
    numbers: Vec<u32>,
}

/// The actions that the instances are, in their order.
pub fn acts_of(
    alloc: Global,
    lifted: &Lifted,
    atoms: &TaskAtoms,
    steps: &Steps,
) -> Result<Acts, AllocError>
    requires { All (λ (step : Instance). step.schema < length lifted.now.schemas) steps.now }
    ensures { IfOk result (λ acts. acts ≡ map (act_of lifted.now atoms.now) steps.now) }
{
    let mut scratch = Scratch {
        objects: Vec::new(alloc),
        numbers: Vec::new(alloc),
    };
    let mut acts = Vec::with_capacity(alloc, steps.len())?;
    for place in 0..steps.len() {
        let act = act_of(
            alloc,
            lifted,
            atoms,
            steps.schema(place),
            steps.args(place),
            &mut scratch,
        )?;
        acts.push(act)?;
    }
    Ok(Acts::of_vec(acts))
}

fn act_of(
    alloc: Global,
    lifted: &Lifted,
    atoms: &TaskAtoms,
    schema: u32,
    args: &[u32],
    scratch: &mut Scratch,
) -> Result<Act, AllocError>
    requires { schema < length lifted.now.schemas }
    ensures { IfOk result (λ act. act ≡ act_of lifted.now atoms.now (with_schema schema args.now)) }
{
    let conds = lifted.schema_at(schema).conds.as_slice();
    put_needs(atoms, args, conds, scratch)?;
    let pre = copied(alloc, scratch.numbers.as_slice())?;
    let effects = lifted.schema_at(schema).effects.as_slice();
    put_changes(atoms, args, effects, true, scratch)?;
    let add = copied(alloc, scratch.numbers.as_slice())?;
    put_changes(atoms, args, effects, false, scratch)?;
    // What an action deletes and adds stays true: it is no delete effect.
    let del = without(alloc, scratch.numbers.as_slice(), add.as_slice())?;
    Ok(Act { pre, add, del })
}

fn copied(alloc: Global, numbers: &[u32]) -> Result<Atoms, AllocError>
    ensures { IfOk result (λ atoms. atoms ≡ numbers.now) }
{
    let numbers = Vec::from_slice(alloc, numbers)?;
    Ok(Atoms::of_vec(numbers))
}

/// Finds the numbers of the atoms that the conditions name.
fn put_needs(
    atoms: &TaskAtoms,
    args: &[u32],
    conds: &[SlotCond],
    scratch: &mut Scratch,
) -> Result<(), AllocError>
    ensures { OnOk result (scratch.new.numbers.items ≡ numbers_of atoms.now (among (needs_in args.now conds.now))) }
{
    scratch.numbers.clear();
    for cond in conds {
        push_need(atoms, args, cond, scratch)?;
    }
    atoms.put_in_order(&mut scratch.numbers);
    Ok(())
}

fn push_need(
    atoms: &TaskAtoms,
    args: &[u32],
    cond: &SlotCond,
    scratch: &mut Scratch,
) -> Result<(), AllocError>
    ensures { OnOk result (scratch.new.numbers.items
        ≡ scratch.old.numbers.items ++ filter_map (number_in atoms.now) (needs_in args.now (cond.now ∷ []))) }
{
    if let SlotCond::Atom { atom } = cond {
        push_number(atoms, args, atom, scratch)?;
    }
    Ok(())
}

/// Finds the numbers of the atoms that the effects add, or of those that they delete.
fn put_changes(
    atoms: &TaskAtoms,
    args: &[u32],
    effects: &[SlotEffect],
    add: bool,
    scratch: &mut Scratch,
) -> Result<(), AllocError>
    ensures { OnOk result (scratch.new.numbers.items ≡ numbers_of atoms.now (among (changed_atoms add args.now effects.now))) }
{
    scratch.numbers.clear();
    for effect in effects {
        push_change(atoms, args, effect, add, scratch)?;
    }
    atoms.put_in_order(&mut scratch.numbers);
    Ok(())
}

fn push_change(
    atoms: &TaskAtoms,
    args: &[u32],
    effect: &SlotEffect,
    add: bool,
    scratch: &mut Scratch,
) -> Result<(), AllocError>
    ensures { OnOk result (scratch.new.numbers.items
        ≡ scratch.old.numbers.items ++ filter_map (number_in atoms.now) (changed_atoms add args.now (effect.now ∷ []))) }
{
    if effect.add == add {
        push_number(atoms, args, &effect.atom, scratch)?;
    }
    Ok(())
}

/// Finds the number of an atom, if it has one.
fn push_number(
    atoms: &TaskAtoms,
    args: &[u32],
    atom: &SlotAtom,
    scratch: &mut Scratch,
) -> Result<(), AllocError>
    ensures { OnOk result (scratch.new.numbers.items
        ≡ scratch.old.numbers.items ++ cons_option (number_in atoms.now (grounded args.now atom.now)) []) }
{
    ground_into(&mut scratch.objects, args, atom.slots.as_slice())?;
    let number = atoms.number_of(atom.pred, scratch.objects.as_slice());
    push_some(&mut scratch.numbers, number)?;
    Ok(())
}

/// The numbers that are not among the others, in one walk along both lists.
fn without(alloc: Global, numbers: &[u32], others: &[u32]) -> Result<Atoms, AllocError>
    requires numbers { IsStrictlyIncreasing numbers.now }
    requires others { IsStrictlyIncreasing others.now }
    ensures { IfOk result (λ rest. rest ≡ filter (λ p. not (lists others.now p)) numbers.now) }
{
    let mut rest = Vec::with_capacity(alloc, numbers.len())?;
    let mut passed = 0;
    for number in numbers {
        passed = pass(others, passed, *number);
        push_unless(&mut rest, *number, is_at(others, passed, *number))?;
    }
    Ok(Atoms::of_vec(rest))
}

/// The first place from here on that has no lesser number.
fn pass(numbers: &[u32], from: usize, number: u32) -> usize
    ensures from { from ≤ result }
    ensures less { (k : ℕ) → from ≤ k → k < result → slice_index numbers.now k < number }
    ensures stop { result < length numbers.now → number ≤ slice_index numbers.now result }
{
    let mut place = from;
    'places: while is_less(numbers, place, number) {
        place += 1;
    }
    place
}

fn is_less(numbers: &[u32], place: usize, number: u32) -> bool
    ensures yes { result ≡ true → (place < length numbers.now) × (slice_index numbers.now place < number) }
    ensures no { result ≡ false → place < length numbers.now → number ≤ slice_index numbers.now place }
{
    place < numbers.len() && numbers[place] < number
}

fn is_at(numbers: &[u32], place: usize, number: u32) -> bool
    ensures yes { result ≡ true → (place < length numbers.now) × (slice_index numbers.now place ≡ number) }
    ensures no { result ≡ false → place < length numbers.now → slice_index numbers.now place ≢ number }
{
    place < numbers.len() && numbers[place] == number
}

fn push_unless(numbers: &mut Vec<u32>, number: u32, unwanted: bool) -> Result<(), AllocError>
    ensures { OnOk result (numbers.new.items ≡ numbers.old.items ++ (if unwanted then [] else number ∷ [])) }
{
    if !unwanted {
        numbers.push(number)?;
    }
    Ok(())
}
