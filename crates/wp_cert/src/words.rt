//! The words of a line: pieces of a text, and numbers.
ghost use Rattle.std.specs.Prelude.{◌≡◌, ◌<◌, ◌≤◌, ◌∷◌, [], length, option_copied, IfSome, IfNone};
ghost use Rattle.wp_cert.specs.Format.{pieces, pieces_in, number_in, value_in, leads};

/// What stands before the first mark, and what stands behind it.
pub(crate) fn first_piece(bytes: &[u8], mark: u8) -> (&[u8], Option<&[u8]>)
    ensures value { pieces mark bytes.now ≡ result.0.now ∷ pieces_in mark (option_copied result.1) }
    ensures shorter { IfSome result.1 (λ behind. length behind.now < length bytes.now) }
    ensures alone { IfNone result.1 (pieces mark bytes.now ≡ bytes.now ∷ []) }
{
    for at in 0..bytes.len() {
        if bytes[at] == mark {
            return (&bytes[..at], Some(&bytes[at + 1..]));
        }
    }
    (bytes, None)
}

/// The number from `low` to `high` that a word writes.
#[tactic(auto, unfolding(crate::specs::Format::number_in))]
pub(crate) fn read_number(word: &[u8], low: u32, high: u32) -> Option<u32>
    requires { high ≤ 100000000 }
    ensures value { result ≡ number_in low high word.now }
    ensures within { IfSome result (λ n. (low ≤ n) × (n ≤ high)) }
{
    if !leads(word) {
        return None;
    }
    let value = read_digits(word, high)?;
    if value < low { None } else { Some(value) }
}

/// Whether the word has no zero in front that may be left out.
fn leads(word: &[u8]) -> bool
    ensures { result ≡ leads word.now }
{
    match word {
        [] => false,
        [b'0', rest @ ..] => rest.is_empty(),
        _ => true,
    }
}

/// The number that the digits write, where it is at most `high`.
fn read_digits(word: &[u8], high: u32) -> Option<u32>
    requires { high ≤ 100000000 }
    ensures value { result ≡ value_in high 0 word.now }
    ensures within { IfSome result (λ n. n ≤ high) }
{
    let mut value = 0;
    for byte in word {
        if !byte.is_ascii_digit() {
            return None;
        }
        value = value * 10 + u32::from(*byte - b'0');
        // A longer word would be too long for the number, too.
        if value > high {
            return None;
        }
    }
    Some(value)
}
