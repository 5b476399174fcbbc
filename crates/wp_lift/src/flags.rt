//! Rows of flags, packed into words of 64 bits.

ghost use Rattle.std.specs.Prelude.{◌≡◌, ℕ, ◌+◌, ◌*◌, ◌^◌, ◌<◌, ◌≤◌, ◌==◌, ◌||◌, true, false, bit_or, length, replicate, slice_index, slice_index_or, slice_set, IfOk, IfSome, IfNone};
ghost use Rattle.std.specs.Int.{bit_at};
ghost use Rattle.wp_lift.specs.Rows.{bit_in, either, is_wanted, is_wanted_bit, IsFirstWanted};

use std::alloc::{AllocError, Global};
use std::marker::Model;

/// A row of flags.
#[derive(Drop)]
pub struct Flags {
    words: Vec<u64>,
    count: u32,
}

impl Model for Flags {
    ghost use Rattle.std.specs.Prelude.{◌≡◌, ◌+◌, ◌/◌, List, Bool, length};
    ghost use Rattle.wp_lift.specs.Rows.{flags_in};

    ghost Value = { List Bool };

    ghost view = { λ f. flags_in f.words.items f.count };

    ghost invariant = { λ f. length f.words.items ≡ (f.count + 63) / 64 };
}

impl Flags {
    /// So many flags, none of them set. A row has fewer than 2^32 flags.
    pub fn none(alloc: Global, count: u32) -> Result<Flags, AllocError>
        ensures { IfOk result (λ flags. flags ≡ replicate count false) }
    {
        let words = vec![in alloc; 0u64; (count as usize + 63) / 64]?;
        Ok(Flags { words, count })
    }

    /// So many flags.
    pub fn len(&self) -> u32
        ensures { result ≡ length self.now }
    {
        self.count
    }

    /// The flag at a place; false past the end.
    pub fn at(&self, place: u32) -> bool
        ensures { result ≡ slice_index_or self.now place false }
    {
        if place >= self.count {
            return false;
        }
        is_set(self.words.as_slice(), place)
    }

    /// Sets the flag at a place. Past the end nothing changes.
    pub fn set(&mut self, place: u32)
        ensures { self.new ≡ slice_set self.old place true }
    {
        if place < self.count {
            set_bit(&mut self.words, place);
        }
    }

    /// Sets the flags that are set in another row of as many flags.
    pub fn join(&mut self, other: &Flags)
        ensures { self.new ≡ either self.old other.now }
    {
        if self.count == other.count {
            join_words(&mut self.words, other.words.as_slice());
        }
    }

    /// A place whose flag is set here and in a second row, and not in a third; of rows of one length the first such place.
    pub fn first_in(&self, within: &Flags, beyond: &Flags) -> Option<u32>
        ensures none { length within.now ≡ length self.now → length beyond.now ≡ length self.now
            → IfNone result ((p : ℕ) → is_wanted self.now within.now beyond.now p ≡ false) }
        ensures some { IfSome result (λ p. is_wanted self.now within.now beyond.now p ≡ true) }
    {
        if within.count != self.count {
            return None;
        }
        if beyond.count != self.count {
            return None;
        }
        let words = self.words.as_slice();
        match first_wanted(words, within.words.as_slice(), beyond.words.as_slice()) {
            Some(p) if p < self.count => Some(p),
            _ => None,
        }
    }

    /// An equal row in memory of its own.
    pub fn copy(&self, alloc: Global) -> Result<Flags, AllocError>
        ensures { IfOk result (λ flags. flags ≡ self.now) }
    {
        let words = Vec::from_slice(alloc, self.words.as_slice())?;
        Ok(Flags {
            words,
            count: self.count,
        })
    }
}

fn word_at(words: &[u64], place: usize) -> u64
    ensures { result ≡ slice_index words.now place }
{
    words.get(place).copied().unwrap_or(0)
}

fn is_set(words: &[u64], place: u32) -> bool
    ensures { result ≡ bit_in words.now place }
{
    (word_at(words, (place / 64) as usize) >> (place % 64)) & 1 == 1
}

// The bits of a word that are set in the first two rows and not in the third.
fn wanted_word(words: &[u64], within: &[u64], beyond: &[u64], place: u32) -> u64
    ensures { (i : ℕ) → i < 64 → (bit_at result i == 1) ≡ is_wanted_bit words.now within.now beyond.now (64 * place + i) }
{
    let place = place as usize;
    word_at(words, place) & word_at(within, place) & !word_at(beyond, place)
}

fn first_wanted(words: &[u64], within: &[u64], beyond: &[u64]) -> Option<u32>
    requires { length words.now ≤ 2 ^ 26 }
    ensures none { IfNone result ((p : ℕ) → is_wanted_bit words.now within.now beyond.now p ≡ false) }
    ensures some { IfSome result (λ p. IsFirstWanted words.now within.now beyond.now p) }
{
    for place in 0..words.len() as u32 {
        let wanted = wanted_word(words, within, beyond, place);
        if wanted != 0 {
            return Some(64 * place + wanted.trailing_zeros());
        }
    }
    None
}

fn set_bit(words: &mut Vec<u64>, place: u32)
    requires { place < 64 * length words.old.items }
    ensures len { length words.new.items ≡ length words.old.items }
    ensures bits { (q : ℕ) → bit_in words.new.items q ≡ (bit_in words.old.items q || (place == q)) }
{
    words[(place / 64) as usize] |= 1u64 << (place % 64);
}

fn join_words(words: &mut Vec<u64>, others: &[u64])
    requires { length words.old.items ≡ length others.now }
    ensures len { length words.new.items ≡ length words.old.items }
    ensures joined { (p : ℕ) → p < length words.old.items
        → slice_index words.new.items p ≡ bit_or (slice_index words.old.items p) (slice_index others.now p) }
{
    for place in 0..others.len() {
        words[place] |= others[place];
    }
}
