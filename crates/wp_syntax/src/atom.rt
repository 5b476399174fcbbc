//! Names and atoms.

ghost use Rattle.std.specs.Prelude.{◌≡◌, IfOk, MatchOption, None, Some};
ghost use Rattle.wp_lex.specs.Node.{tree_of};
ghost use Rattle.wp_lex.specs.Trees.{trees_of};
ghost use Rattle.wp_syntax.specs.Reading.{Adds, Gives, each};
ghost use Rattle.wp_syntax.specs.Grammar.{name_at, place_of, term_of, atom_of, lone_of};

use crate::error::{ReadError, shape};
use crate::lists::Names;
use crate::records::{AtomText, Name};
use crate::word::is_term;
use std::alloc::{AllocError, Global};
use wp_edge::Text;
use wp_lex::{Item, Node, next};

pub fn name(alloc: Global, text: &Text, at: u64) -> Result<Name, AllocError>
    ensures { IfOk result (λ name. name ≡ name_at text.now at) }
{
    let text = text.copy(alloc)?;
    Ok(Name { text, at })
}

pub fn place_of(node: Node<'_>) -> u64
    ensures { result ≡ place_of (tree_of node.entry) }
{
    match node {
        Node::Word { text: _, at } => at,
        Node::List { at, inner: _ } => at,
    }
}

fn term(alloc: Global, node: Node<'_>, out: &mut Vec<Name>) -> Result<(), ReadError>
    ensures { Adds result out.old.items out.new.items (term_of (tree_of node.entry)) }
{
    match node {
        Node::Word { text, at } => {
            if !is_term(text) {
                return Err(shape(at));
            }
            out.push(name(alloc, text, at)?)?;
            Ok(())
        }
        Node::List { at, inner: _ } => Err(shape(at)),
    }
}

fn terms(alloc: Global, items: &[Item]) -> Result<Names, ReadError>
    ensures { Gives result (each term_of (trees_of items.now)) }
{
    let mut names = Vec::new(alloc);
    let mut rest = items;
    while let Some((node, after)) = next(rest) {
        term(alloc, node, &mut names)?;
        rest = after;
    }
    Ok(Names::of_vec(names))
}

/// The atom of a predicate's name and the terms behind it.
pub fn atom(alloc: Global, pred: &Text, at: u64, items: &[Item]) -> Result<AtomText, ReadError>
    ensures { Gives result (atom_of pred.now at (trees_of items.now)) }
{
    let args = terms(alloc, items)?;
    let pred = name(alloc, pred, at)?;
    Ok(AtomText { pred, args })
}

/// The one list that the items are, where it begins with a word: that word, its place, and what stands behind it.
pub fn lone(items: &[Item]) -> Option<(&Text, u64, &[Item])>
    ensures { MatchOption result (lone_of (trees_of items.now) ≡ None)
        (λ x. lone_of (trees_of items.now) ≡ Some (record { word = x.0.now; at = x.1; rest = trees_of x.2.now })) }
{
    let Some((Node::List { at: _, inner }, after)) = next(items) else {
        return None;
    };
    if let Some(_) = next(after) {
        return None;
    }
    match next(inner) {
        Some((Node::Word { text, at }, rest)) => Some((text, at, rest)),
        _ => None,
    }
}
