//! Words of sets in vectors of four, and the words behind the last full vector one by one.
//!
//! Each call gives what its plain definition says, whatever the number of words.
ghost use Rattle.std.specs.Prelude.{◌≡◌, ◌==◌, ◌*◌, ◌^◌, ◌≤◌, ◌&&◌, not, nat_eq, length, slice_index, count_by};
ghost use Rattle.std.specs.List.{range_with_len, sum_by};
ghost use Rattle.std.specs.Cmp.Lexicographic.{pointwise};
ghost use Rattle.wp_task.specs.Packing.{bit_in, missing_in};

use std::simd::prelude::*;

/// Whether two lists of words are one.
pub(crate) fn equal(words: &[u64], others: &[u64]) -> bool
    requires { length others.now ≡ length words.now }
    ensures { result ≡ pointwise nat_eq words.now others.now }
{
    let (fours, rest) = words.as_chunks::<4>();
    let (other_fours, other_rest) = others.as_chunks::<4>();
    for i in 0..fours.len() {
        if !equal_four(
            u64x4::from_array(fours[i]),
            u64x4::from_array(other_fours[i]),
        ) {
            return false;
        }
    }
    rest == other_rest
}

fn equal_four(words: u64x4, others: u64x4) -> bool
    ensures { result ≡ pointwise nat_eq words others }
{
    words.simd_ne(others).to_bitmask() == 0
}

/// Whether each bit that is set in the wanted words is set in the words.
pub(crate) fn covers(words: &[u64], wanted: &[u64]) -> bool
    requires { length wanted.now ≡ length words.now }
    ensures { result ≡ (count_by (λ p. bit_in wanted.now p && not (bit_in words.now p)) (range_with_len 0 (64 * length words.now)) == 0) }
{
    let (fours, _rest) = words.as_chunks::<4>();
    let (wanted_fours, _wanted_rest) = wanted.as_chunks::<4>();
    for i in 0..fours.len() {
        if !covers_four(
            u64x4::from_array(fours[i]),
            u64x4::from_array(wanted_fours[i]),
        ) {
            return false;
        }
    }
    for k in 4 * fours.len()..words.len() {
        if wanted[k] & !words[k] != 0 {
            return false;
        }
    }
    true
}

fn covers_four(words: u64x4, wanted: u64x4) -> bool
    ensures { result ≡ (sum_by (λ k. missing_in (slice_index words k) (slice_index wanted k)) (range_with_len 0 4) == 0) }
{
    equal_four(wanted & !words, u64x4::splat(0))
}

/// How many bits are set in the wanted words and not in the words.
pub(crate) fn count_missing(words: &[u64], wanted: &[u64]) -> u64
    requires len { length wanted.now ≡ length words.now }
    requires few { length words.now ≤ 2 ^ 26 }
    ensures { result ≡ count_by (λ p. bit_in wanted.now p && not (bit_in words.now p)) (range_with_len 0 (64 * length words.now)) }
{
    let (fours, _rest) = words.as_chunks::<4>();
    let (wanted_fours, _wanted_rest) = wanted.as_chunks::<4>();
    let mut count = 0;
    for i in 0..fours.len() {
        count += missing_in_four(
            u64x4::from_array(fours[i]),
            u64x4::from_array(wanted_fours[i]),
        );
    }
    for k in 4 * fours.len()..words.len() {
        count += u64::from((wanted[k] & !words[k]).count_ones());
    }
    count
}

fn missing_in_four(words: u64x4, wanted: u64x4) -> u64
    ensures value { result ≡ sum_by (λ k. missing_in (slice_index words k) (slice_index wanted k)) (range_with_len 0 4) }
    ensures few { result ≤ 256 }
{
    (wanted & !words).count_ones().strict_reduce_sum()
}
