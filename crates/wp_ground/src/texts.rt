//! Ground atoms and steps of plans as they are printed.

ghost use Rattle.std.specs.Prelude.{◌≡◌, ◌++◌, ◌∷◌, [], List, ℕ, map, IfOk, OnOk};
ghost use Rattle.std.specs.List.{flat_map};
ghost use Rattle.wp_lift.specs.Problem.{schema_at, pred_at};
ghost use Rattle.wp_ground.specs.Texts.{form_text, object_text, atom_text, step_text};

use crate::numbering::TaskAtoms;
use crate::steps::Steps;
use std::alloc::{AllocError, Global};
use wp_edge::{Text, Texts};
use wp_lift::{GroundAtom, Lifted};

/// The text of an atom.
pub fn atom_text(alloc: Global, lifted: &Lifted, atom: &GroundAtom) -> Result<Text, AllocError>
    ensures { IfOk result (λ text. text ≡ atom_text lifted.now atom.now) }
{
    form_text(
        alloc,
        lifted,
        pred_name(lifted, atom.pred),
        atom.args.as_slice(),
    )
}

/// The texts of the task's atoms, by number.
pub fn atom_texts(alloc: Global, lifted: &Lifted, atoms: &TaskAtoms) -> Result<Texts, AllocError>
    ensures { IfOk result (λ texts. texts ≡ map (atom_text lifted.now) atoms.now) }
{
    let mut texts = Vec::with_capacity(alloc, atoms.len())?;
    for number in 0..atoms.len() {
        let name = pred_name(lifted, atoms.pred(number));
        texts.push(form_text(alloc, lifted, name, atoms.args(number))?)?;
    }
    Ok(Texts::of_vec(texts))
}

/// The texts of steps, in their order.
pub fn step_texts(alloc: Global, lifted: &Lifted, steps: &Steps) -> Result<Texts, AllocError>
    ensures { IfOk result (λ texts. texts ≡ map (step_text lifted.now) steps.now) }
{
    let mut texts = Vec::with_capacity(alloc, steps.len())?;
    for place in 0..steps.len() {
        let name = schema_name(lifted, steps.schema(place));
        texts.push(form_text(alloc, lifted, name, steps.args(place))?)?;
    }
    Ok(Texts::of_vec(texts))
}

fn form_text(
    alloc: Global,
    lifted: &Lifted,
    name: &[u8],
    objects: &[u32],
) -> Result<Text, AllocError>
    ensures { IfOk result (λ text. text ≡ form_text name.now (map (object_text lifted.now) objects.now)) }
{
    let mut out = Vec::with_capacity(alloc, form_length(lifted, name, objects))?;
    out.push(b'(')?;
    out.extend_from_slice(name)?;
    put_objects(&mut out, lifted, objects)?;
    out.push(b')')?;
    Ok(Text::of_vec(out))
}

// How many bytes the text has: room for it is made once.
fn form_length(lifted: &Lifted, name: &[u8], objects: &[u32]) -> usize {
    let mut length = name.len().saturating_add(2);
    for object in objects {
        let more = object_name(lifted, *object).len();
        length = length.saturating_add(more).saturating_add(1);
    }
    length
}

// Each object after one space.
fn put_objects(out: &mut Vec<u8>, lifted: &Lifted, objects: &[u32]) -> Result<(), AllocError>
    ensures { OnOk result (out.new.items ≡ out.old.items
        ++ flat_map (λ (arg : List ℕ). 32 ∷ arg) (map (object_text lifted.now) objects.now)) }
{
    for object in objects {
        out.push(b' ')?;
        out.extend_from_slice(object_name(lifted, *object))?;
    }
    Ok(())
}

/// The name of an object; nothing past the end of the objects.
pub fn object_name(lifted: &Lifted, object: u32) -> &[u8]
    ensures { result.now ≡ object_text lifted.now object }
{
    match lifted.objects().as_slice().get(object as usize) {
        Some(name) => name.as_slice(),
        None => &[],
    }
}

fn pred_name(lifted: &Lifted, pred: u32) -> &[u8]
    ensures { result.now ≡ (pred_at lifted.now pred).name }
{
    match lifted.preds().as_slice().get(pred as usize) {
        Some(pred) => pred.name.as_slice(),
        None => &[],
    }
}

fn schema_name(lifted: &Lifted, schema: u32) -> &[u8]
    ensures { result.now ≡ (schema_at lifted.now schema).name }
{
    match lifted.schemas().as_slice().get(schema as usize) {
        Some(schema) => schema.name.as_slice(),
        None => &[],
    }
}
