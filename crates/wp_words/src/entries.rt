//! The entries of a command line.
ghost use Rattle.std.specs.Prelude.{◌≡◌, ◌≢◌, IfNone, IfOk, IfSome, IsUtf8, None, Some, map, string_bytes, true};
ghost use Rattle.clap.specs.Words.{app_of, first_of, is_simple_and_free};
ghost use Rattle.wp_words.specs.CommandLines.{entries_in, entries_of};

use crate::error::WordsError;
use clap::error::ErrorKind;
use clap::{ArgMatches, Command};
use std::alloc::Global;
use wp_edge::Text;

/// The entries of the words by this command; the first word stands for the program's name.
pub fn read_entries<'a>(
    line: Command<'a>,
    words: &'a [String],
) -> Result<ArgMatches<'a>, WordsError>
    requires { is_simple_and_free (app_of line) ≡ true }
    ensures ok { IfOk result (λ matches.
        entries_of (app_of line.entry) (map string_bytes words.entry.now) ≡ Some (entries_in matches)) }
    ensures usage { result ≡ Err WordsError.Usage →
        entries_of (app_of line.entry) (map string_bytes words.entry.now) ≡ None }
{
    match line.try_get_matches_from(words) {
        Ok(matches) => Ok(matches),
        Err(error) => Err(words_error(error.kind())),
    }
}

// Every other kind is a fault of the words; which one it is plays no part.
fn words_error(kind: ErrorKind) -> WordsError
    ensures { result ≡ WordsError.Usage → kind ≢ ErrorKind.OutOfMemory }
{
    match kind {
        ErrorKind::OutOfMemory => WordsError::Memory,
        _ => WordsError::Usage,
    }
}

/// The value of an entry. An option that was not given has none.
pub fn value_of<'a>(matches: &ArgMatches<'a>, id: &str) -> Option<&'a str>
    ensures given { IfSome result (λ value. first_of id.now (entries_in matches.now) ≡ Some value.now) }
    ensures missing { IfNone result (first_of id.now (entries_in matches.now) ≡ None) }
{
    matches.get_str(id)
}

/// The name of the file that an entry has.
pub fn name_of(alloc: Global, matches: &ArgMatches<'_>, id: &str) -> Result<Text, WordsError>
    ensures ok { IfOk result (λ name. first_of id.now (entries_in matches.now) ≡ Some name) }
    ensures usage { result ≡ Err WordsError.Usage → first_of id.now (entries_in matches.now) ≡ None }
    ensures utf8 { IfOk result (λ name. IsUtf8 name) }
{
    let Some(name) = value_of(matches, id) else {
        return Err(WordsError::Usage);
    };
    Ok(Text::of_vec(Vec::from_slice(alloc, name.as_bytes())?))
}
