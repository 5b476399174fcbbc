//! Sets of atoms packed into words of 64 bits.
ghost use Rattle.std.specs.Prelude.{◌≡◌, ℕ, ◌+◌, ◌*◌, ◌/◌, ◌%◌, ◌^◌, ◌<◌, ◌≤◌, ◌==◌, ◌&&◌, ◌||◌, not, true, false, length, slice_index, count_by, IfSome, IfNone};
ghost use Rattle.std.specs.Int.{bit_at};
ghost use Rattle.std.specs.List.{range_with_len};
ghost use Rattle.wp_task.specs.Packing.{bit_in, IsLeastBit, IsNextBit};

/// The word at a place, and 0 past the end.
pub(crate) fn word_at(words: &[u64], place: usize) -> u64
    ensures { result ≡ slice_index words.now place }
{
    if place < words.len() { words[place] } else { 0 }
}

/// Whether the bit of p is set.
pub(crate) fn is_set(words: &[u64], p: u32) -> bool
    ensures { result ≡ bit_in words.now p }
{
    (word_at(words, (p / 64) as usize) >> (p % 64)) & 1 == 1
}

/// How many bits of the word of p are set below that of p.
pub(crate) fn count_in_word(words: &[u64], p: u32) -> u32
    ensures { result ≡ count_by (λ i. bit_in words.now (64 * (p / 64) + i)) (range_with_len 0 (p % 64)) }
{
    let below = (1u64 << (p % 64)) - 1;
    (word_at(words, (p / 64) as usize) & below).count_ones()
}

/// The least set bit of a word from a place on.
fn least_bit(word: u64, from: u32) -> Option<u32>
    requires { from < 64 }
    ensures found { IfSome result (λ bit. (bit < 64) × IsLeastBit word from bit) }
    ensures none { IfNone result ((i : ℕ) → from ≤ i → bit_at word i ≡ 0) }
{
    let rest = word >> from;
    if rest == 0 {
        return None;
    }
    Some(from + rest.trailing_zeros())
}

/// The least p whose bit is set, from the first bit of a word on.
fn next_from_word(words: &[u64], place: u32) -> Option<u32>
    requires { length words.now ≤ 2 ^ 26 }
    ensures found { IfSome result (λ p. IsNextBit words.now (64 * place) p) }
    ensures none { IfNone result ((q : ℕ) → 64 * place ≤ q → bit_in words.now q ≡ false) }
{
    for at in place..words.len() as u32 {
        if let Some(bit) = least_bit(words[at as usize], 0) {
            return Some(64 * at + bit);
        }
    }
    None
}

/// The least p whose bit is set, from a number on.
pub(crate) fn next_set(words: &[u64], from: u32) -> Option<u32>
    requires { length words.now ≤ 2 ^ 26 }
    ensures found { IfSome result (λ p. IsNextBit words.now from p) }
    ensures none { IfNone result ((q : ℕ) → from ≤ q → bit_in words.now q ≡ false) }
{
    let place = from / 64;
    match least_bit(word_at(words, place as usize), from % 64) {
        Some(bit) => Some(64 * place + bit),
        None => next_from_word(words, place + 1),
    }
}

/// Sets the bit of p.
pub(crate) fn set_bit(words: &mut Vec<u64>, p: u32)
    requires { p < 64 * length words.old.items }
    ensures len { length words.new.items ≡ length words.old.items }
    ensures bits { (q : ℕ) → bit_in words.new.items q ≡ (bit_in words.old.items q || (p == q)) }
{
    let place = (p / 64) as usize;
    words[place] |= 1u64 << (p % 64);
}

/// Clears the bit of p.
pub(crate) fn clear_bit(words: &mut Vec<u64>, p: u32)
    requires { p < 64 * length words.old.items }
    ensures len { length words.new.items ≡ length words.old.items }
    ensures bits { (q : ℕ) → bit_in words.new.items q ≡ (bit_in words.old.items q && not (p == q)) }
{
    let place = (p / 64) as usize;
    words[place] &= !(1u64 << (p % 64));
}
