//! What domains and problems share: the outer list, its title, and flags.

ghost use Rattle.std.specs.Prelude.{◌≡◌};
ghost use Rattle.wp_lex.specs.Node.{tree_of};
ghost use Rattle.wp_lex.specs.Trees.{trees_of};
ghost use Rattle.wp_syntax.specs.Reading.{Gives, Passes};
ghost use Rattle.wp_syntax.specs.Steps.{Outlines};
ghost use Rattle.wp_syntax.specs.Outline.{inside_of, outline_of, end_of, name_of, only_name_of, title_of, flag_of, flags_of};

use crate::atom::{name, place_of};
use crate::error::{Fault, ReadError, ReadKind, shape, wrong};
use crate::records::Name;
use crate::word::{is_keyword, is_name, is_word};
use std::alloc::Global;
use wp_lex::{Item, Node, next};

/// The place of a text's list, its title, and what follows.
#[derive(Clone, Copy)]
pub struct Outline<'a> {
    pub at: u64,
    pub title: Node<'a>,
    pub rest: &'a [Item],
}

fn inside(at: u64, items: &[Item]) -> Result<Outline<'_>, Fault>
    ensures { Outlines result (inside_of at (trees_of items.now)) }
{
    let Some((Node::Word { text, at: _ }, after)) = next(items) else {
        return Err(wrong(ReadKind::Shape, at));
    };
    let Some((title, rest)) = next(after) else {
        return Err(wrong(ReadKind::Shape, at));
    };
    if is_word(text, b"define") {
        Ok(Outline { at, title, rest })
    } else {
        Err(wrong(ReadKind::Shape, at))
    }
}

/// The outer list of a text, whose first word is `define`.
pub fn outer_list(items: &[Item]) -> Result<Outline<'_>, Fault>
    ensures { Outlines result (outline_of (trees_of items.now)) }
{
    let Some((node, after)) = next(items) else {
        return Err(wrong(ReadKind::Shape, 0));
    };
    let Node::List { at, inner } = node else {
        return Err(wrong(ReadKind::Shape, place_of(node)));
    };
    match next(after) {
        None => inside(at, inner),
        Some(_) => Err(wrong(ReadKind::Shape, at)),
    }
}

/// Nothing more stands there.
pub fn end(items: &[Item]) -> Result<(), Fault>
    ensures { Passes result (end_of (trees_of items.now)) }
{
    match next(items) {
        None => Ok(()),
        Some((node, _)) => Err(wrong(ReadKind::Shape, place_of(node))),
    }
}

fn lone_name(alloc: Global, node: Node<'_>) -> Result<Name, ReadError>
    ensures { Gives result (name_of (tree_of node.entry)) }
{
    let Node::Word { text, at } = node else {
        return Err(shape(place_of(node)));
    };
    if !is_name(text) {
        return Err(shape(at));
    }
    Ok(name(alloc, text, at)?)
}

/// One name and nothing else, in the list at a place.
pub fn only_name(alloc: Global, at: u64, items: &[Item]) -> Result<Name, ReadError>
    ensures { Gives result (only_name_of at (trees_of items.now)) }
{
    let Some((node, rest)) = next(items) else {
        return Err(shape(at));
    };
    let name = lone_name(alloc, node)?;
    end(rest)?;
    Ok(name)
}

/// A list of a word and a name.
pub fn title(alloc: Global, word: &[u8], node: Node<'_>) -> Result<Name, ReadError>
    ensures { Gives result (title_of word.now (tree_of node.entry)) }
{
    let Node::List { at, inner } = node else {
        return Err(shape(place_of(node)));
    };
    let Some((Node::Word { text, at: _ }, rest)) = next(inner) else {
        return Err(shape(at));
    };
    if !is_word(text, word) {
        return Err(shape(at));
    }
    only_name(alloc, at, rest)
}

fn flag(node: Node<'_>) -> Result<(), Fault>
    ensures { Passes result (flag_of (tree_of node.entry)) }
{
    match node {
        Node::Word { text, at } => {
            if is_keyword(text) {
                Ok(())
            } else {
                Err(wrong(ReadKind::Shape, at))
            }
        }
        Node::List { at, inner: _ } => Err(wrong(ReadKind::Shape, at)),
    }
}

/// Words that begin with a colon. Their names are not asked for: the planner has what it has.
pub fn flags(items: &[Item]) -> Result<(), Fault>
    ensures { Passes result (flags_of (trees_of items.now)) }
{
    let mut rest = items;
    while let Some((node, after)) = next(rest) {
        flag(node)?;
        rest = after;
    }
    Ok(())
}
