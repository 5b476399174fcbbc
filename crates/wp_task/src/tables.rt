//! What a task keeps of its actions in flat arrays.
ghost use Rattle.std.specs.Prelude.{◌≡◌, ◌<◌, ◌^◌, length, map, IfOk, All};
ghost use Rattle.wp_task.specs.Task.{IsAct};
ghost use Rattle.wp_task.specs.Many.{AreNeedSets};

use crate::acts::Acts;
use crate::atoms::Atoms;
use crate::flat::Flat;
use crate::many::set_of_many;
use crate::state::State;
use std::alloc::{AllocError, Global};

/// The preconditions of the actions.
pub(crate) fn preconditions(alloc: Global, acts: &Acts) -> Result<Flat, AllocError>
    ensures { IfOk result (λ flat. flat ≡ map (λ act. act.pre) acts.now) }
{
    let mut flat = Flat::new(alloc)?;
    for act in acts.as_slice() {
        flat.push(act.pre.as_slice())?;
    }
    Ok(flat)
}

/// The add effects of the actions.
pub(crate) fn add_effects(alloc: Global, acts: &Acts) -> Result<Flat, AllocError>
    ensures { IfOk result (λ flat. flat ≡ map (λ act. act.add) acts.now) }
{
    let mut flat = Flat::new(alloc)?;
    for act in acts.as_slice() {
        flat.push(act.add.as_slice())?;
    }
    Ok(flat)
}

/// How many preconditions each action has.
pub(crate) fn need_counts(alloc: Global, acts: &Acts) -> Result<Vec<u32>, AllocError>
    requires { All (λ act. length act.pre < 2 ^ 32) acts.now }
    ensures { IfOk result (λ counts. counts.items ≡ map (λ act. length act.pre) acts.now) }
{
    let mut counts = Vec::with_capacity(alloc, acts.as_slice().len())?;
    for act in acts.as_slice() {
        counts.push(act.pre.as_slice().len() as u32)?;
    }
    Ok(counts)
}

/// For each action the set of its preconditions, where they are many.
pub(crate) fn need_sets(
    alloc: Global,
    acts: &Acts,
    atoms: u32,
) -> Result<Vec<Option<Box<State>>>, AllocError>
    requires { All (IsAct atoms) acts.now }
    ensures { IfOk result (λ sets. AreNeedSets sets.items acts.now) }
{
    let mut sets = Vec::with_capacity(alloc, acts.as_slice().len())?;
    for act in acts.as_slice() {
        let set = set_of_many(alloc, &act.pre, atoms)?;
        sets.push(set)?;
    }
    Ok(sets)
}

/// The same lists, one after another.
pub(crate) fn flattened(alloc: Global, lists: &[Atoms]) -> Result<Flat, AllocError>
    ensures { IfOk result (λ flat. flat ≡ lists.now) }
{
    let mut flat = Flat::new(alloc)?;
    for list in lists {
        flat.push(list.as_slice())?;
    }
    Ok(flat)
}
