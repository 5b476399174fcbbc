//! What is wrong at a place of a text, by what stands there and how many lists were opened and closed before it.

ghost use Rattle.std.specs.Prelude.{◌≡◌};
ghost use Rattle.wp_lex.specs.Faults.{is_over, is_skipped, outside_fault, opening_fault, closing_fault, word_fault, is_missing, fault_at_end};

use crate::error::LexError;
use crate::label::{is_duration, is_label};
use crate::place::{Place, Source};

const MAX_DEPTH: u64 = 64;

/// What is wrong with a word that begins at the place.
pub fn word_fault(source: Source, place: Place, word: &[u8]) -> Option<LexError>
    ensures { result ≡ word_fault source place word.now }
{
    if place.is_outside() && !is_skipped(source, place, word) {
        Some(outside_fault(source, place))
    } else {
        None
    }
}

/// What is wrong with an opening bracket at the place.
pub fn opening_fault(source: Source, place: Place) -> Option<LexError>
    ensures { result ≡ opening_fault source place }
{
    if is_over(source, place) {
        Some(LexError::Trailing { at: place.at })
    } else if place.depth() == MAX_DEPTH {
        Some(LexError::TooDeep { at: place.at })
    } else {
        None
    }
}

/// What is wrong with a closing bracket at the place.
pub fn closing_fault(source: Source, place: Place) -> Option<LexError>
    ensures { result ≡ closing_fault source place }
{
    if place.is_outside() {
        Some(outside_fault(source, place))
    } else {
        None
    }
}

/// What is wrong with a text that ends at the place.
pub fn fault_at_end(source: Source, place: Place) -> Option<LexError>
    ensures { result ≡ fault_at_end source place }
{
    if !place.is_outside() {
        Some(LexError::Unclosed)
    } else if is_missing(source, place) {
        Some(LexError::Empty)
    } else {
        None
    }
}

/// Whether the word stands between the lists of a plan file and means nothing there.
pub fn is_skipped(source: Source, place: Place, word: &[u8]) -> bool
    ensures { result ≡ is_skipped source place word.now }
{
    match source {
        Source::Pddl => false,
        Source::Plan => place.is_outside() && (is_label(word) || is_duration(word)),
    }
}

fn outside_fault(source: Source, place: Place) -> LexError
    ensures { result ≡ outside_fault source place }
{
    if is_over(source, place) {
        LexError::Trailing { at: place.at }
    } else {
        LexError::Unopened { at: place.at }
    }
}

fn is_over(source: Source, place: Place) -> bool
    ensures { result ≡ is_over source place }
{
    match source {
        Source::Pddl => place.is_outside() && place.opened != 0,
        Source::Plan => false,
    }
}

fn is_missing(source: Source, place: Place) -> bool
    ensures { result ≡ is_missing source place }
{
    match source {
        Source::Pddl => place.opened == 0,
        Source::Plan => false,
    }
}
