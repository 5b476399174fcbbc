//! The pass over a text.

ghost use Rattle.std.specs.Prelude.{◌≡◌, ◌++◌, length, MatchResult, OnOk, option_to_list};
ghost use Rattle.wp_lex.specs.Faults.{fault_by, fault_from, Explains};
ghost use Rattle.wp_lex.specs.Items.{item_by, word_item, items_before};
ghost use Rattle.wp_lex.specs.declared.place.Class.TheVariants.{Letter};

use crate::error::LexError;
use crate::fault::{closing_fault, fault_at_end, is_skipped, opening_fault, word_fault};
use crate::item::{Item, Items};
use crate::place::{Class, Place, Source, class_in};
use crate::word::{is_commented, read_word};
use std::alloc::{AllocError, Global};
use wp_edge::Text;

/// The items of a text, or its first fault.
pub fn read_items(alloc: Global, source: Source, bytes: &[u8]) -> Result<Items, LexError>
    ensures { MatchResult result
        (λ items. (fault_from source bytes.now 0 ≡ None)
        × (items ≡ items_before source bytes.now (length bytes.now)))
        (λ error. Explains error (fault_from source bytes.now 0)) }
{
    let mut items = Vec::new(alloc);
    let mut commented = false;
    let mut place = Place::start();
    for (i, byte) in bytes.iter().enumerate() {
        commented = is_commented(commented, *byte);
        let class = class_in(commented, *byte);
        let item = read_item(alloc, source, class, place, &bytes[i..])?;
        push_some(&mut items, item)?;
        place = place.behind(class);
    }
    match fault_at_end(source, place) {
        Some(fault) => Err(fault),
        None => Ok(Items::of_vec(items)),
    }
}

// What begins at the place, where a byte of the class stands and the text goes on with `rest`.
fn read_item(
    alloc: Global,
    source: Source,
    class: Class,
    place: Place,
    rest: &[u8],
) -> Result<Option<Item>, LexError>
    ensures { MatchResult result
        (λ item. (fault_by source class place rest.now ≡ None)
        × (item ≡ item_by source class place rest.now))
        (λ error. Explains error (fault_by source class place rest.now)) }
{
    match class {
        Class::Letter => read_letter(alloc, source, place, rest),
        Class::Opens => unless(opening_fault(source, place), Item::Open { at: place.at }),
        Class::Closes => unless(closing_fault(source, place), Item::Close),
        Class::Blank => Ok(None),
        Class::Bad => Err(LexError::BadByte { at: place.at }),
    }
}

// The item, unless there is a fault.
fn unless(fault: Option<LexError>, item: Item) -> Result<Option<Item>, LexError>
    ensures { MatchResult result
        (λ found. (fault ≡ None) × (found ≡ Some item))
        (λ error. Explains error fault) }
{
    match fault {
        Some(fault) => Err(fault),
        None => Ok(Some(item)),
    }
}

// A letter that goes on with a word was read with that word's first byte.
fn read_letter(
    alloc: Global,
    source: Source,
    place: Place,
    rest: &[u8],
) -> Result<Option<Item>, LexError>
    ensures { MatchResult result
        (λ item. (fault_by source Letter place rest.now ≡ None)
        × (item ≡ item_by source Letter place rest.now))
        (λ error. Explains error (fault_by source Letter place rest.now)) }
{
    if place.continues {
        return Ok(None);
    }
    let word = read_word(alloc, rest)?;
    if let Some(fault) = word_fault(source, place, word.as_slice()) {
        return Err(fault);
    }
    Ok(word_item(source, place, word))
}

fn word_item(source: Source, place: Place, word: Vec<u8>) -> Option<Item>
    ensures { result ≡ word_item source place word.items }
{
    if is_skipped(source, place, word.as_slice()) {
        None
    } else {
        Some(Item::Word {
            text: Text::of_vec(word),
            at: place.at,
        })
    }
}

fn push_some(items: &mut Vec<Item>, item: Option<Item>) -> Result<(), AllocError>
    ensures { OnOk result (items.new.items ≡ items.old.items ++ option_to_list item) }
{
    if let Some(item) = item {
        items.push(item)?;
    }
    Ok(())
}
