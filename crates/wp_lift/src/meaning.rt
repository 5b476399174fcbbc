//! What an instance says of a world and makes of it, schema and objects in hand.

ghost use Rattle.std.specs.Prelude.{◌≡◌, ◌&&◌, ◌∷◌, [], not, map, slice_index_or, fold, position, IfOk, OnOk};
ghost use Rattle.std.specs.List.{position_from};
ghost use Rattle.wp_lift.specs.Worlds.{among, is_same_atom, noted, object_in, grounded, holds};
ghost use Rattle.wp_lift.specs.Effects.{deleted_by, atoms_added};

use crate::atoms::{Args, GroundAtom};
use crate::fault::narrow;
use crate::schemas::{Slot, SlotAtom, SlotCond, SlotEffect};
use crate::world::World;
use std::alloc::{AllocError, Global};

/// The object that a term stands for.
pub fn object_in(args: &[u32], slot: &Slot) -> u32
    ensures { result ≡ object_in args.now slot.now }
{
    match slot {
        Slot::Param { place } => args.get(*place as usize).copied().unwrap_or(0),
        Slot::Object { number } => *number,
    }
}

fn objects_in(alloc: Global, args: &[u32], slots: &[Slot]) -> Result<Vec<u32>, AllocError>
    ensures { IfOk result (λ objects. objects.items ≡ map (object_in args.now) slots.now) }
{
    let mut objects = Vec::with_capacity(alloc, slots.len())?;
    for slot in slots {
        objects.push(object_in(args, slot))?;
    }
    Ok(objects)
}

/// The atom for these objects.
pub fn grounded(alloc: Global, args: &[u32], atom: &SlotAtom) -> Result<GroundAtom, AllocError>
    ensures { IfOk result (λ made. made ≡ grounded args.now atom.now) }
{
    let args = Args::of_vec(objects_in(alloc, args, atom.slots.as_slice())?);
    Ok(GroundAtom {
        pred: atom.pred,
        args,
    })
}

fn holds(alloc: Global, args: &[u32], world: &World, cond: &SlotCond) -> Result<bool, AllocError>
    ensures { IfOk result (λ yes. yes ≡ holds args.now (among world.now) cond.now) }
{
    match cond {
        SlotCond::Atom { atom } => Ok(world.has(&grounded(alloc, args, atom)?)),
        SlotCond::Same { a, b } => Ok(object_in(args, a) == object_in(args, b)),
        SlotCond::Differ { a, b } => Ok(object_in(args, a) != object_in(args, b)),
    }
}

/// The place of the first condition that does not hold.
pub fn first_false(
    alloc: Global,
    args: &[u32],
    world: &World,
    conds: &[SlotCond],
) -> Result<Option<u32>, AllocError>
    ensures { IfOk result (λ place. place ≡ position_from (λ cond. not (holds args.now (among world.now) cond)) 0 conds.now) }
{
    for (place, cond) in conds.iter().enumerate() {
        if !holds(alloc, args, world, cond)? {
            return Ok(Some(narrow(place)?));
        }
    }
    Ok(None)
}

/// The place of the first atom that is not true.
pub fn first_missing(world: &World, atoms: &[GroundAtom]) -> Option<usize>
    ensures { result ≡ position (λ atom. not (among world.now atom)) atoms.now }
{
    atoms.iter().position(|atom| !world.has(atom))
}

fn delete(args: &[u32], effect: &SlotEffect, world: &mut World) -> Result<(), AllocError>
    ensures { OnOk result ((other : _) → among world.new other ≡ deleted_by args.now other (among world.old other) effect.now) }
{
    if !effect.add {
        let atom = grounded(world.alloc(), args, &effect.atom)?;
        world.remove(&atom);
    }
    Ok(())
}

/// Takes the atoms that the effects delete out of the world.
pub fn delete_all(args: &[u32], effects: &[SlotEffect], world: &mut World) -> Result<(), AllocError>
    ensures { OnOk result ((other : _) → among world.new other ≡ fold (deleted_by args.now other) (among world.old other) effects.now) }
{
    for effect in effects {
        delete(args, effect, world)?;
    }
    Ok(())
}

fn add(args: &[u32], effect: &SlotEffect, world: &mut World) -> Result<(), AllocError>
    ensures { OnOk result (world.new ≡ fold noted world.old (atoms_added args.now (effect.now ∷ []))) }
{
    if effect.add {
        let atom = grounded(world.alloc(), args, &effect.atom)?;
        world.note(atom)?;
    }
    Ok(())
}

/// Puts the atoms that the effects add into the world.
pub fn add_all(args: &[u32], effects: &[SlotEffect], world: &mut World) -> Result<(), AllocError>
    ensures { OnOk result (world.new ≡ fold noted world.old (atoms_added args.now effects.now)) }
{
    for effect in effects {
        add(args, effect, world)?;
    }
    Ok(())
}
