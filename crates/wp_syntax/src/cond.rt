//! Conditions.

ghost use Rattle.std.specs.Prelude.{◌≡◌};
ghost use Rattle.wp_lex.specs.Node.{tree_of};
ghost use Rattle.wp_lex.specs.Trees.{trees_of};
ghost use Rattle.wp_syntax.specs.Reading.{Adds, Gives};
ghost use Rattle.wp_syntax.specs.Grammar.{atom_cond_of, equation, side_of, sides_of, equality_of, negation_of};

use crate::atom::{atom, lone, name};
use crate::conjunction::Conjunct;
use crate::error::{ReadError, shape, unsupported};
use crate::records::{Cond, Name};
use crate::word::{Head, head_of, is_term};
use std::alloc::Global;
use wp_edge::Text;
use wp_lex::{Item, Node, next};

fn atom_cond(
    alloc: Global,
    pred: &Text,
    at: u64,
    items: &[Item],
    out: &mut Vec<Cond>,
) -> Result<(), ReadError>
    ensures { Adds result out.old.items out.new.items (atom_cond_of pred.now at (trees_of items.now)) }
{
    let atom = atom(alloc, pred, at, items)?;
    out.push(Cond::Atom { atom })?;
    Ok(())
}

fn equation(same: bool, a: Name, b: Name, at: u64) -> Cond
    ensures { result ≡ equation same a b at }
{
    if same {
        Cond::Same { a, b, at }
    } else {
        Cond::Differ { a, b, at }
    }
}

fn side(alloc: Global, text: &Text, at: u64) -> Result<Name, ReadError>
    ensures { Gives result (side_of text.now at) }
{
    if !is_term(text) {
        return Err(shape(at));
    }
    Ok(name(alloc, text, at)?)
}

fn sides(
    alloc: Global,
    same: bool,
    word: &Text,
    at: u64,
    first: Node<'_>,
    second: Node<'_>,
) -> Result<Cond, ReadError>
    ensures { Gives result (sides_of same word.now at (tree_of first.entry) (tree_of second.entry)) }
{
    match (first, second) {
        (Node::Word { text: left, at: i }, Node::Word { text: right, at: j }) => {
            let a = side(alloc, left, i)?;
            let b = side(alloc, right, j)?;
            Ok(equation(same, a, b, at))
        }
        _ => Err(unsupported(alloc, word, at)?),
    }
}

fn equality(
    alloc: Global,
    same: bool,
    word: &Text,
    at: u64,
    items: &[Item],
    out: &mut Vec<Cond>,
) -> Result<(), ReadError>
    ensures { Adds result out.old.items out.new.items (equality_of same word.now at (trees_of items.now)) }
{
    let Some((first, after)) = next(items) else {
        return Err(shape(at));
    };
    let Some((second, after)) = next(after) else {
        return Err(shape(at));
    };
    if let Some(_) = next(after) {
        return Err(shape(at));
    }
    out.push(sides(alloc, same, word, at, first, second)?)?;
    Ok(())
}

fn negation(
    alloc: Global,
    word: &Text,
    at: u64,
    items: &[Item],
    out: &mut Vec<Cond>,
) -> Result<(), ReadError>
    ensures { Adds result out.old.items out.new.items (negation_of word.now at (trees_of items.now)) }
{
    let Some((head, place, rest)) = lone(items) else {
        return Err(unsupported(alloc, word, at)?);
    };
    match head_of(head) {
        Head::Equal => equality(alloc, false, head, place, rest, out),
        _ => Err(unsupported(alloc, word, at)?),
    }
}

impl Conjunct for Cond {
    ghost use Rattle.wp_syntax.specs.Grammar.{plain_cond_of};

    ghost plain_of = { plain_cond_of };

    fn plain(
        alloc: Global,
        at: u64,
        head: &Text,
        place: u64,
        items: &[Item],
        out: &mut Vec<Cond>,
    ) -> Result<(), ReadError> {
        match head_of(head) {
            Head::Not => negation(alloc, head, place, items, out),
            Head::Equal => equality(alloc, true, head, place, items, out),
            Head::Name => atom_cond(alloc, head, place, items, out),
            Head::Other => Err(shape(at)),
            _ => Err(unsupported(alloc, head, place)?),
        }
    }
}
