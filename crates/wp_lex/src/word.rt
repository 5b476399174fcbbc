//! The words of a text.

ghost use Rattle.std.specs.Prelude.{◌≡◌, ◌==◌, ◌||◌, ◌&&◌, not, IfOk};
ghost use Rattle.wp_lex.specs.Words.{word_of};

use crate::place::{class_of, is_letter};
use std::alloc::{AllocError, Global};

/// The word that begins with the first of the bytes.
pub fn read_word(alloc: Global, rest: &[u8]) -> Result<Vec<u8>, AllocError>
    ensures { IfOk result (λ word. word.items ≡ word_of rest.now) }
{
    rest.iter()
        .take_while(|byte| is_letter(class_of(**byte)))
        .map(|byte| byte.to_ascii_lowercase())
        .collect(alloc)
}

/// Whether a comment goes on behind the byte, where `commented` says whether one did before it.
pub fn is_commented(commented: bool, byte: u8) -> bool
    ensures { result ≡ (not (byte == 10) && (commented || byte == 59)) }
{
    byte != b'\n' && (commented || byte == b';')
}
