//! The words between the lists of a plan file that mean nothing.

ghost use Rattle.std.specs.Prelude.{◌≡◌, ◌==◌, ◌||◌, slice_index, count_by};
ghost use Rattle.std.specs.Char.{is_ascii_digit};
ghost use Rattle.std.specs.List.{list_all};
ghost use Rattle.wp_lex.specs.Labels.{is_number, is_label, is_duration};

/// Whether the word is a label such as `0.001:`.
pub fn is_label(word: &[u8]) -> bool
    ensures { result ≡ is_label word.now }
{
    match word {
        [number @ .., b':'] => is_number(number),
        _ => false,
    }
}

fn is_number(bytes: &[u8]) -> bool
    ensures { result ≡ is_number bytes.now }
{
    begins_with_digit(bytes) && are_digits_or_points(bytes) && count_points(bytes) <= 1
}

fn begins_with_digit(bytes: &[u8]) -> bool
    ensures { result ≡ is_ascii_digit (slice_index bytes.now 0) }
{
    match bytes {
        [first, ..] => first.is_ascii_digit(),
        [] => false,
    }
}

fn are_digits_or_points(bytes: &[u8]) -> bool
    ensures { result ≡ list_all (λ byte. is_ascii_digit byte || byte == 46) bytes.now }
{
    bytes
        .iter()
        .all(|byte| byte.is_ascii_digit() || *byte == b'.')
}

fn count_points(bytes: &[u8]) -> usize
    ensures { result ≡ count_by (λ byte. byte == 46) bytes.now }
{
    bytes.iter().filter(|byte| **byte == b'.').count()
}

/// Whether the word is a duration such as `[1]`.
pub fn is_duration(word: &[u8]) -> bool
    ensures { result ≡ is_duration word.now }
{
    matches!(word, [b'[', .., b']'])
}
