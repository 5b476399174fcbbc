//! Subtypes: what the declared pairs lead to.

ghost use Rattle.std.specs.Prelude.{◌≡◌, ◌<◌, ℕ, true, false, map, fold, length, IfOk, IfSome, IfNone, OnOk};
ghost use Rattle.std.specs.List.{range_with_len};
ghost use Rattle.wp_syntax.specs.declared.records.Name.{Name};
ghost use Rattle.wp_lift.specs.Typing.{is_flagged, type_number, pairs_of, flags_of, subtypes_of};
ghost use Rattle.wp_lift.specs.Rows.{AreClosed, IsClosure, IsOrder, IsReached, IsSquare, either, marked, seen_with};

use crate::fault::{narrow, push};
use crate::flags::Flags;
use crate::names::NameTable;
use crate::order::order_of;
use crate::types::Rows;
use std::alloc::{AllocError, Global};
use wp_edge::Text;
use wp_syntax::{Name, Typed};

fn type_number(types: &NameTable, name: &Text) -> u32
    ensures { result ≡ type_number types.now name.now }
{
    types.number_of(name).unwrap_or(0)
}

// Of one type: itself and `object` are above it.
fn flags_of(alloc: Global, count: u32, a: u32) -> Result<Flags, AllocError>
    ensures { IfOk result (λ flags. flags ≡ flags_of count a) }
{
    let mut flags = Flags::none(alloc, count)?;
    flags.set(0);
    flags.set(a);
    Ok(flags)
}

fn all_flags(alloc: Global, count: u32) -> Result<Vec<Flags>, AllocError>
    ensures { IfOk result (λ rows. rows.items ≡ map (flags_of count) (range_with_len 0 count)) }
{
    let mut rows = Vec::new(alloc);
    for a in 0..count {
        let row = flags_of(alloc, count, a)?;
        push(&mut rows, row)?;
    }
    Ok(rows)
}

fn mark(rows: &mut Vec<Flags>, below: u32, above: u32)
    ensures { rows.new.items ≡ marked rows.old.items (below, above) }
{
    if (below as usize) < rows.len() {
        let row = &mut rows[below as usize];
        row.set(above);
    }
}

// The kinds of a declared type are above it.
fn mark_kinds(rows: &mut Vec<Flags>, types: &NameTable, below: u32, kinds: &[Name])
    ensures { rows.new.items ≡ fold marked rows.old.items (map (λ (kind : Name). (below, type_number types.now kind.text)) kinds.now) }
{
    for kind in kinds {
        let above = type_number(types, &kind.text);
        mark(rows, below, above);
    }
}

fn mark_all(rows: &mut Vec<Flags>, types: &NameTable, declared: &[Typed])
    ensures { rows.new.items ≡ fold marked rows.old.items (pairs_of types.now declared.now) }
{
    for typed in declared {
        let below = type_number(types, &typed.name.text);
        mark_kinds(rows, types, below, typed.kinds.as_slice());
    }
}

// A type that was found and not seen: one whose own search is over before any other.
fn next(found: &Flags, seen: &Flags, closed: &Flags) -> Option<u32>
    requires seen { length seen.now ≡ length found.now }
    ensures none { IfNone result ((b : ℕ) → is_flagged found.now b ≡ true → is_flagged seen.now b ≡ true) }
    ensures some { IfSome result (λ b. (is_flagged found.now b ≡ true) × (is_flagged seen.now b ≡ false)) }
{
    match found.first_in(closed, seen) {
        Some(b) => Some(b),
        None => found.first_in(found, seen),
    }
}

// What is above a type is found, where the type is seen.
fn see(row: &Flags, is_closed: bool, b: u32, found: &mut Flags, seen: &mut Flags)
    ensures found { found.new ≡ either found.old row.now }
    ensures seen { seen.new ≡ seen_with is_closed seen.old b row.now }
{
    found.join(row);
    seen.set(b);
    if is_closed {
        seen.join(row);
    }
}

// All to which the rows lead from a type.
fn search_from(alloc: Global, rows: &[Flags], closed: &Flags, a: u32) -> Result<Flags, AllocError>
    requires square { IsSquare (length rows.now) rows.now }
    requires closed { AreClosed rows.now closed.now }
    requires below { a < length rows.now }
    ensures width { IfOk result (λ found. length found ≡ length rows.now) }
    ensures reached { IfOk result (λ found. IsReached rows.now a found) }
{
    let mut found = rows[a as usize].copy(alloc)?;
    let mut seen = Flags::none(alloc, found.len())?;
    while let Some(b) = next(&found, &seen, closed) {
        see(&rows[b as usize], closed.at(b), b, &mut found, &mut seen);
    }
    Ok(found)
}

fn close(alloc: Global, rows: &mut Vec<Flags>, count: u32, order: &[u32]) -> Result<(), AllocError>
    requires square { IsSquare count rows.old.items }
    requires order { IsOrder count order.now }
    ensures { OnOk result (IsClosure count rows.old.items rows.new.items) }
{
    let mut closed = Flags::none(alloc, count)?;
    for a in order {
        rows[*a as usize] = search_from(alloc, rows.as_slice(), &closed, *a)?;
        closed.set(*a);
    }
    Ok(())
}

/// Of each type, for each type whether it is above. Where no two types are above one another, a row of bits is joined to another once
/// for each declared pair at most, and never more often than there are pairs of types.
#[tactic(auto, unfolding(crate::specs::Typing::subtypes_of))]
pub fn subtypes_of(alloc: Global, types: &NameTable, declared: &[Typed]) -> Result<Rows, AllocError>
    ensures { IfOk result (λ rows. rows ≡ subtypes_of types.now declared.now) }
{
    let count = narrow(types.names().as_slice().len())?;
    let mut rows = all_flags(alloc, count)?;
    mark_all(&mut rows, types, declared);
    let order = order_of(alloc, rows.as_slice(), count)?;
    close(alloc, &mut rows, count, order.as_slice())?;
    Ok(Rows::of_vec(rows))
}
