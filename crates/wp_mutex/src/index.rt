//! The index of the tuples without the pairs that are not possible.
ghost use Rattle.std.specs.Prelude.{◌≡◌, ℕ, ◌+◌, ◌*◌, ◌/◌, ◌^◌, ◌<◌, ◌≤◌, true, ◌++◌, length, map, slice_index, slice_index_or, IfOk, OnOk};
ghost use Rattle.std.specs.List.{range_with_len};
ghost use Rattle.wp_tuples.specs.Placing.{AreApart};
ghost use Rattle.wp_mutex.specs.PossiblePairs.{joins, HasRows};
ghost use Rattle.wp_mutex.specs.PairPlaces.{count_below, pairs_before, place_of_pair, possible_placed, AreStarts};

use crate::possible::Possible;
use std::alloc::{AllocError, Global};
use std::marker::Model;
use wp_task::State;
use wp_tuples::Places;

/// The places of the single atoms and of the possible pairs. For each word of each row it keeps the place of the word's first pair, so a
/// place takes one look and one count of bits.
#[derive(Drop)]
pub struct PairIndex {
    rows: Vec<State>,
    stride: usize,
    starts: Vec<u32>,
    len: u32,
}

impl Model for PairIndex {
    ghost use Rattle.std.specs.Prelude.{List, Bool};
    ghost use Rattle.wp_mutex.specs.PairPlaces.{IsIndex};

    ghost Value = { List (List Bool) };

    ghost view = { λ i. i.rows.items };

    ghost invariant = { λ i. IsIndex i.rows.items i.stride i.starts.items i.len };
}

impl PairIndex {
    /// The index of the possible pairs.
    pub fn new(alloc: Global, possible: Possible) -> Result<PairIndex, AllocError>
        ensures { IfOk result (λ index. index ≡ possible) }
    {
        let rows = possible.into_rows();
        let stride = (rows.len() + 63) / 64;
        let mut starts = Vec::with_capacity(alloc, rows.len() * stride)?;
        let len = push_rows(&mut starts, rows.as_slice(), stride)?;
        Ok(PairIndex {
            rows,
            stride,
            starts,
            len,
        })
    }
}

impl Places for PairIndex {
    ghost places = { possible_placed };

    fn width(&self) -> u8 {
        let _ = &self.stride;
        2
    }

    fn len(&self) -> u64 {
        u64::from(self.len)
    }

    fn atom_place(&self, p: u32) -> u64 {
        let _ = &self.stride;
        u64::from(p)
    }

    // The pairs of an atom with those before it lie together, in the order of these.
    fn pair_place(&self, p: u32, q: u32) -> u64 {
        let row = &self.rows[q as usize];
        let word = q as usize * self.stride + (p / 64) as usize;
        let start = self.starts[word];
        u64::from(start) + u64::from(row.count_in_word(p))
    }
}

/// Appends the places of the first pairs of the words of all rows. Answers the place after the last.
fn push_rows(starts: &mut Vec<u32>, rows: &[State], stride: usize) -> Result<u32, AllocError>
    requires none { length starts.old.items ≡ 0 }
    requires rows { HasRows (length rows.now) rows.now }
    requires few { length rows.now ≤ 8192 }
    requires words { stride ≡ (length rows.now + 63) / 64 }
    ensures starts { OnOk result (AreStarts rows.now stride starts.new.items (length rows.now)) }
    ensures all { IfOk result (λ next. next ≡ length rows.now + pairs_before rows.now (length rows.now)) }
{
    let mut next = rows.len() as u32;
    for q in 0..rows.len() as u32 {
        next = push_row(starts, &rows[q as usize], q, stride, next)?;
    }
    Ok(next)
}

/// Appends the places of the first pairs of the words of a row, from the place of its first pair. Answers the place after its last.
fn push_row(
    starts: &mut Vec<u32>,
    row: &State,
    q: u32,
    stride: usize,
    first: u32,
) -> Result<u32, AllocError>
    requires row { length row.now ≡ q + 1 }
    requires words { (q < 64 * stride) × (stride ≤ 128) }
    requires few { first < 2 ^ 31 }
    ensures starts { OnOk result (starts.new.items ≡ starts.old.items ++ map (λ k. first + count_below row.now (64 * k)) (range_with_len 0 stride)) }
    ensures next { IfOk result (λ next. next ≡ first + count_below row.now q) }
{
    let mut next = first;
    for k in 0..stride as u32 {
        starts.push(next)?;
        next += word_count(row, k);
    }
    Ok(next - u32::from(row.has(q)))
}

/// How many atoms of a set lie in a word.
fn word_count(set: &State, k: u32) -> u32
    requires { k < 128 }
    ensures value { count_below set.now (64 * k) + result ≡ count_below set.now (64 * (k + 1)) }
    ensures few { result ≤ 64 }
{
    let last = 64 * k + 63;
    set.count_in_word(last) + u32::from(set.has(last))
}
