//! The pairs of counters, and the words that they want.
ghost use Rattle.std.specs.Prelude.{◌≡◌, ◌≤◌, ◌<◌, ◌^◌, map, fold, length, IfOk, OnOk};
ghost use Rattle.wp_plain.specs.Pairs.{has_pair, with_pair, tuple_count, exceeds, PairsAreListed};
ghost use Rattle.wp_plain.specs.Explored.{child_pair};

use std::alloc::{AllocError, Global};
use wp_count::Child;

/// The pairs, with those of the children.
pub(crate) fn more_pairs(
    alloc: Global,
    pairs: &[(u32, u32)],
    children: &[Child],
) -> Result<Vec<(u32, u32)>, AllocError>
    ensures { IfOk result (λ more. more.items ≡ fold with_pair pairs.now (map child_pair children.now)) }
{
    let mut more = Vec::from_slice(alloc, pairs)?;
    for child in children {
        add_pair(&mut more, (child.g, child.r))?;
    }
    Ok(more)
}

fn add_pair(pairs: &mut Vec<(u32, u32)>, pair: (u32, u32)) -> Result<(), AllocError>
    ensures { OnOk result (pairs.new.items ≡ with_pair pairs.old.items pair) }
{
    if !has_pair(pairs, pair) {
        pairs.push(pair)?;
    }
    Ok(())
}

fn has_pair(pairs: &[(u32, u32)], pair: (u32, u32)) -> bool
    ensures { result ≡ has_pair pairs.now pair }
{
    pairs.iter().any(|p| p.0 == pair.0 && p.1 == pair.1)
}

/// The pairs that are computed are those of the nodes, each once.
pub fn pairs_are_listed()
    ensures { PairsAreListed }
{}

/// How many sets of 1 to `width` atoms there are.
pub fn tuple_count(width: u8, atoms: u32) -> u64
    requires width { (1 ≤ width) × (width ≤ 2) }
    requires few { atoms ≤ 65536 }
    ensures value { result ≡ tuple_count width atoms }
    ensures few { result < 2 ^ 32 }
{
    let atoms = u64::from(atoms);
    if width == 1 {
        atoms
    } else {
        (atoms * atoms + atoms) / 2
    }
}

/// Whether so many pairs want more words than the limit.
pub fn exceeds(words: u64, pairs: u64, tuples: u64) -> bool
    ensures { result ≡ exceeds words pairs tuples }
{
    u128::from(words) < u128::from(pairs) * u128::from(tuples)
}
