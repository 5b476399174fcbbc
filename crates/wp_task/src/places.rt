//! For each number the places of the lists that have it, made in one pass over the lists.
ghost use Rattle.std.specs.Prelude.{◌≡◌, ◌++◌, ◌∷◌, [], ◌<◌, ◌^◌, ℕ, length, map, take, replicate, slice_index_or, IfOk, OnOk, All, if◌then◌else◌};
ghost use Rattle.std.specs.List.{range_with_len};
ghost use Rattle.wp_task.specs.Set.{lists, AreAtoms};
ghost use Rattle.wp_task.specs.Flat.{places_of};

use crate::atoms::Atoms;
use crate::flat::Flat;
use std::alloc::{AllocError, Global};

/// For each number below a count the places of the lists that have it, in order.
pub(crate) fn places_by_number(
    alloc: Global,
    count: u32,
    flat: &Flat,
) -> Result<Vec<Atoms>, AllocError>
    requires few { length flat.now < 2 ^ 32 }
    requires fits { All (AreAtoms count) flat.now }
    ensures { IfOk result (λ places. places.items ≡ map (places_of flat.now) (range_with_len 0 count)) }
{
    let mut places = empty_lists(alloc, count)?;
    for place in 0..flat.len() as u32 {
        push_to_each(&mut places, flat.at(place), place)?;
    }
    Ok(places)
}

fn empty_lists(alloc: Global, count: u32) -> Result<Vec<Atoms>, AllocError>
    ensures { IfOk result (λ lists. lists.items ≡ replicate count []) }
{
    let mut lists = Vec::with_capacity(alloc, count as usize)?;
    for _n in 0..count {
        lists.push(Atoms::of_vec(Vec::new(alloc)))?;
    }
    Ok(lists)
}

/// Appends a number to the lists of the given numbers.
fn push_to_each(places: &mut Vec<Atoms>, numbers: &[u32], place: u32) -> Result<(), AllocError>
    requires { AreAtoms (length places.old.items) numbers.now }
    ensures len { OnOk result (length places.new.items ≡ length places.old.items) }
    ensures value { OnOk result ((p : ℕ) → slice_index_or places.new.items p [] ≡ slice_index_or places.old.items p [] ++ (if lists numbers.now p then place ∷ [] else [])) }
{
    for p in numbers {
        places[*p as usize].push(place)?;
    }
    Ok(())
}
