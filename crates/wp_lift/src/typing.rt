//! Declared types and kinds.

ghost use Rattle.std.specs.Prelude.{◌≡◌, IfOk};
ghost use Rattle.wp_lift.specs.Walk.{Finds, Gives, each, each_after};
ghost use Rattle.wp_lift.specs.Typing.{is_same_place, first_place, next_place, noted_name, is_one_too_many, type_of_word, types_of, group_of, kind_of, kinds_of};

use crate::fault::{Fault, bad, push, wrong};
use crate::names::NameTable;
use crate::types::TypeNumbers;
use std::alloc::{AllocError, Global};
use wp_edge::Text;
use wp_syntax::{Name, Part, PddlError, PddlKind, Typed};

/// So many types may be declared, `object` apart.
const MOST_TYPES: u32 = 4096;

/// Whether the name is new where as many as the limit are there.
pub fn is_one_too_many(limit: usize, names: &NameTable, name: &Text) -> bool
    ensures { result ≡ is_one_too_many limit names.now name.now }
{
    match names.number_of(name) {
        Some(_) => false,
        None => names.names().as_slice().len() >= limit,
    }
}

fn noted_name(alloc: Global, names: NameTable, name: &Text) -> Result<NameTable, AllocError>
    ensures { IfOk result (λ table. table ≡ noted_name names name.now) }
{
    match names.number_of(name) {
        Some(_) => Ok(names),
        None => names.with_name(alloc, name.copy(alloc)?),
    }
}

fn type_of_word(
    alloc: Global,
    part: Part,
    types: NameTable,
    word: &Name,
) -> Result<NameTable, PddlError>
    ensures { Gives result (type_of_word part types word.now) }
{
    // `object` is in the table, and does not count.
    if is_one_too_many(MOST_TYPES as usize + 1, &types, &word.text) {
        return Err(bad(part, PddlKind::TooMany { limit: MOST_TYPES }, word.at));
    }
    let types = noted_name(alloc, types, &word.text)?;
    Ok(types)
}

fn types_of_words(
    alloc: Global,
    part: Part,
    types: NameTable,
    words: &[Name],
) -> Result<NameTable, PddlError>
    ensures { Gives result (each_after (type_of_word part) types words.now) }
{
    let mut types = types;
    for word in words {
        types = type_of_word(alloc, part, types, word)?;
    }
    Ok(types)
}

// The place of the first of the kinds.
fn first_place(kinds: &[Name]) -> Option<u64>
    ensures { result ≡ first_place kinds.now }
{
    match kinds {
        [] => None,
        [kind, ..] => Some(kind.at),
    }
}

fn next_place(rest: &[Typed]) -> Option<u64>
    ensures { result ≡ next_place rest.now }
{
    match rest {
        [] => None,
        [typed, ..] => first_place(typed.kinds.as_slice()),
    }
}

fn is_same_place(a: Option<u64>, b: Option<u64>) -> bool
    ensures { result ≡ is_same_place a b }
{
    match (a, b) {
        (Some(a), Some(b)) => a == b,
        _ => false,
    }
}

// The types of a declared name, and of its kinds where no further name of its group is behind it.
fn types_of_group(
    alloc: Global,
    part: Part,
    types: NameTable,
    typed: &Typed,
    rest: &[Typed],
) -> Result<NameTable, PddlError>
    ensures { Gives result (each_after (type_of_word part) types (group_of typed.now rest.now)) }
{
    let types = type_of_word(alloc, part, types, &typed.name)?;
    if is_same_place(first_place(typed.kinds.as_slice()), next_place(rest)) {
        return Ok(types);
    }
    types_of_words(alloc, part, types, typed.kinds.as_slice())
}

/// The declared types by number, `object` first.
#[tactic(auto, unfolding(crate::specs::Typing::types_of))]
pub fn types_of(alloc: Global, part: Part, declared: &[Typed]) -> Result<NameTable, PddlError>
    ensures { Gives result (types_of part declared.now) }
{
    let object = Text::of_vec(Vec::from_slice(alloc, b"object")?);
    let mut types = NameTable::new(alloc).with_name(alloc, object)?;
    let mut rest = declared;
    while let Some((typed, after)) = rest.split_first() {
        types = types_of_group(alloc, part, types, typed, after)?;
        rest = after;
    }
    Ok(types)
}

fn kind_of(part: Part, types: &NameTable, kind: &Name) -> Result<u32, Fault>
    ensures { Finds result (kind_of part types.now kind.now) }
{
    match types.number_of(&kind.text) {
        Some(number) => Ok(number),
        None => Err(wrong(part, PddlKind::UnknownType, kind.at)),
    }
}

fn each_kind(
    alloc: Global,
    part: Part,
    types: &NameTable,
    kinds: &[Name],
) -> Result<TypeNumbers, PddlError>
    ensures { Gives result (each (kind_of part types.now) kinds.now) }
{
    let mut numbers = Vec::new(alloc);
    for kind in kinds {
        let number = kind_of(part, types, kind)?;
        push(&mut numbers, number)?;
    }
    Ok(TypeNumbers::of_vec(numbers))
}

/// The numbers of the types of a kind; no kind means `object`.
pub fn kinds_of(
    alloc: Global,
    part: Part,
    types: &NameTable,
    kinds: &[Name],
) -> Result<TypeNumbers, PddlError>
    ensures { Gives result (kinds_of part types.now kinds.now) }
{
    if kinds.is_empty() {
        let object = Vec::from_slice(alloc, &[0])?;
        return Ok(TypeNumbers::of_vec(object));
    }
    each_kind(alloc, part, types, kinds)
}
