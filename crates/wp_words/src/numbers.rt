//! Numbers of a command line.
ghost use Rattle.std.specs.Prelude.{◌≡◌, ◌≤◌, IfSome, IsTrue};
ghost use Rattle.std.specs.Str.{all_ascii_digits};
ghost use Rattle.wp_words.specs.Values.{is_number, is_within, number_in};

/// The number that the word writes, where it is from `low` to `high`.
pub fn read_number(word: &str, low: u64, high: u64) -> Option<u64>
    ensures value { result ≡ number_in low high word.now }
    ensures within { IfSome result (λ number. (low ≤ number) × (number ≤ high)) }
{
    if !is_number(word) {
        return None;
    }
    match word.parse::<u64>() {
        Ok(number) => {
            if is_within(number, low, high) {
                Some(number)
            } else {
                None
            }
        }
        Err(_) => None,
    }
}

fn is_within(number: u64, low: u64, high: u64) -> bool
    ensures value { result ≡ is_within low high number }
    ensures bounds { IsTrue result → (low ≤ number) × (number ≤ high) }
{
    low <= number && number <= high
}

/// Whether the word is one to twenty decimal digits.
fn is_number(word: &str) -> bool
    ensures { result ≡ is_number word.now }
{
    0 < word.len() && word.len() < 21 && are_digits(word.as_bytes())
}

fn are_digits(word: &[u8]) -> bool
    ensures { result ≡ all_ascii_digits word.now }
{
    for byte in word {
        if !byte.is_ascii_digit() {
            return false;
        }
    }
    true
}
