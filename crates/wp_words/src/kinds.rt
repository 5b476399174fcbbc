//! The kinds of watchers that a text asks for.
ghost use Rattle.std.specs.Prelude.{◌≡◌, IfOk, OnOk, Some, None, map};
ghost use Rattle.std.specs.List.{list_any};
ghost use Rattle.wp_words.specs.Kinds.{is_kind, kind_of, kinds_in, parts_of, with_kind};

use crate::error::WordsError;
use std::alloc::{AllocError, Global};
use wp_watch::{WatchKind, WatchKinds};

/// The kinds whose names stand between the commas of a text, each once.
pub fn kinds_in(alloc: Global, text: &str) -> Result<WatchKinds, WordsError>
    ensures ok { IfOk result (λ kinds. kinds_in text.now ≡ Some kinds) }
    ensures usage { result ≡ Err WordsError.Usage → kinds_in text.now ≡ None }
{
    let names = parts_of(alloc, text)?;
    let mut kinds = Vec::new(alloc);
    for name in &names {
        let Some(kind) = kind_of(name) else {
            return Err(WordsError::Usage);
        };
        put_kind(&mut kinds, kind)?;
    }
    Ok(WatchKinds::of_vec(kinds))
}

fn parts_of<'a>(alloc: Global, text: &'a str) -> Result<Vec<&'a str>, AllocError>
    ensures { IfOk result (λ parts. map (λ part. part.now) parts.items ≡ parts_of text.entry.now) }
{
    text.split(',').collect(alloc)
}

fn kind_of(name: &str) -> Option<WatchKind>
    ensures { result ≡ kind_of name.now }
{
    match name {
        "tally" => Some(WatchKind::Tally),
        "trace" => Some(WatchKind::Trace),
        "fronts" => Some(WatchKind::Fronts),
        _ => None,
    }
}

/// Puts the kind at the end, where it is not among the kinds.
fn put_kind(kinds: &mut Vec<WatchKind>, kind: WatchKind) -> Result<(), AllocError>
    ensures { OnOk result (kinds.new.items ≡ with_kind kinds.old.items kind) }
{
    if !has_kind(kinds, kind) {
        kinds.push(kind)?;
    }
    Ok(())
}

fn has_kind(kinds: &[WatchKind], kind: WatchKind) -> bool
    ensures { result ≡ list_any (is_kind kind) kinds.now }
{
    kinds.iter().any(|other| is_kind(kind, *other))
}

fn is_kind(kind: WatchKind, other: WatchKind) -> bool
    ensures { result ≡ is_kind kind other }
{
    kind == other
}
