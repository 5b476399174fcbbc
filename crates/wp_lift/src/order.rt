//! An order of types in which a search from one mostly meets types whose search is over.
//!
//! A depth-first walk lists a type when all types above it are listed (Tarjan, Depth-first search and linear graph algorithms, SIAM
//! J. Comput. 1972). By that order a row is joined to another once for each declared pair, where no two types are above one another.
//! The rows are the same by every order that has all types, so nothing is said of what the walk lists: `all_of` puts in what it left out.

ghost use Rattle.std.specs.Prelude.{◌≡◌, true, length, slice_set, IfOk, OnOk};
ghost use Rattle.wp_lift.specs.Rows.{IsListing, IsOrder};

use crate::fault::push;
use crate::flags::Flags;
use std::alloc::{AllocError, Global};

// The types that were entered, those that wait for what is above them, the last of them first, and those that were left.
#[derive(Drop)]
struct Walk {
    entered: Flags,
    waiting: Vec<u32>,
    left: Vec<u32>,
}

// A type above the last that waits, which is entered, or else that type, which is left.
fn step(rows: &[Flags], walk: &mut Walk) -> Result<(), AllocError> {
    let Some(last) = walk.waiting.last().copied() else {
        return Ok(());
    };
    match above_beyond(rows, last, &walk.entered) {
        Some(above) => {
            walk.entered.set(above);
            push(&mut walk.waiting, above)
        }
        None => {
            walk.waiting.pop();
            push(&mut walk.left, last)
        }
    }
}

fn above_beyond(rows: &[Flags], a: u32, entered: &Flags) -> Option<u32> {
    match rows.get(a as usize) {
        Some(row) => row.first_in(row, entered),
        None => None,
    }
}

fn numbers(alloc: Global, count: u32) -> Result<Vec<u32>, AllocError> {
    let mut numbers = Vec::new(alloc);
    for a in 0..count {
        push(&mut numbers, a)?;
    }
    Ok(numbers)
}

// The types as the walk leaves them: each is entered once at most, and waits once or twice.
fn left_by_walk(alloc: Global, rows: &[Flags], count: u32) -> Result<Vec<u32>, AllocError> {
    let mut walk = Walk {
        entered: Flags::none(alloc, count)?,
        waiting: numbers(alloc, count)?,
        left: Vec::new(alloc),
    };
    for _ in 0..3 * (count as u64) {
        step(rows, &mut walk)?;
    }
    let Walk {
        entered: _,
        waiting: _,
        left,
    } = walk;
    Ok(left)
}

// Lists a type, where it is one of so many and not yet listed.
fn note(order: &mut Vec<u32>, listed: &mut Flags, count: u32, a: u32) -> Result<(), AllocError>
    requires count { count ≡ length listed.old }
    requires listing { IsListing order.old.items listed.old }
    ensures flags { OnOk result (listed.new ≡ slice_set listed.old a true) }
    ensures listing { OnOk result (IsListing order.new.items listed.new) }
{
    if a >= count || listed.at(a) {
        return Ok(());
    }
    push(order, a)?;
    listed.set(a);
    Ok(())
}

fn note_all(
    order: &mut Vec<u32>,
    listed: &mut Flags,
    count: u32,
    some: &[u32],
) -> Result<(), AllocError>
    requires count { count ≡ length listed.old }
    requires listing { IsListing order.old.items listed.old }
    ensures count { OnOk result (count ≡ length listed.new) }
    ensures listing { OnOk result (IsListing order.new.items listed.new) }
{
    for a in some {
        note(order, listed, count, *a)?;
    }
    Ok(())
}

// These of so many types, each at its first place, and then those that are not among them.
fn all_of(alloc: Global, count: u32, some: &[u32]) -> Result<Vec<u32>, AllocError>
    ensures { IfOk result (λ order. IsOrder count order.items) }
{
    let mut order = Vec::new(alloc);
    let mut listed = Flags::none(alloc, count)?;
    note_all(&mut order, &mut listed, count, some)?;
    for a in 0..count {
        note(&mut order, &mut listed, count, a)?;
    }
    Ok(order)
}

/// All types, what is above a type mostly before it. The rows have, of each type, what was declared above it.
pub fn order_of(alloc: Global, rows: &[Flags], count: u32) -> Result<Vec<u32>, AllocError>
    ensures { IfOk result (λ order. IsOrder count order.items) }
{
    let left = left_by_walk(alloc, rows, count)?;
    all_of(alloc, count, left.as_slice())
}
