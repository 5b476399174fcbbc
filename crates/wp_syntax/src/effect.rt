//! Effects, and the facts of `:init`.

ghost use Rattle.std.specs.Prelude.{◌≡◌, List};
ghost use Rattle.wp_lex.specs.Node.{tree_of};
ghost use Rattle.wp_lex.specs.Trees.{trees_of};
ghost use Rattle.wp_syntax.specs.Reading.{Adds, Gives, each};
ghost use Rattle.wp_syntax.specs.Items.{change, literal};
ghost use Rattle.wp_syntax.specs.Effects.{negated_of, is_timed, stated_of, headed_fact_of, fact_of};

use crate::atom::{atom, lone, place_of};
use crate::conjunction::Conjunct;
use crate::error::{ReadError, shape, unsupported};
use crate::items::{EffectItem, InitFact};
use crate::lists::InitFacts;
use crate::records::{AtomText, Effect, InitItem};
use crate::word::{Head, head_of, is_word, starts_with_digit};
use std::alloc::Global;
use wp_edge::Text;
use wp_lex::{Item, Node, next};

// The one atom behind a `not`.
fn negated(alloc: Global, word: &Text, at: u64, items: &[Item]) -> Result<AtomText, ReadError>
    ensures { Gives result (negated_of word.now at (trees_of items.now)) }
{
    let Some((head, place, rest)) = lone(items) else {
        return Err(unsupported(alloc, word, at)?);
    };
    match head_of(head) {
        Head::Name => atom(alloc, head, place, rest),
        _ => Err(unsupported(alloc, word, at)?),
    }
}

fn change(add: bool, atom: AtomText) -> EffectItem
    ensures { result ≡ change add atom }
{
    EffectItem::Change {
        effect: Effect { add, atom },
    }
}

impl Conjunct for EffectItem {
    ghost use Rattle.wp_syntax.specs.Effects.{plain_effect_of};

    ghost plain_of = { plain_effect_of };

    fn plain(
        alloc: Global,
        at: u64,
        head: &Text,
        place: u64,
        items: &[Item],
        out: &mut Vec<EffectItem>,
    ) -> Result<(), ReadError> {
        match head_of(head) {
            Head::Not => {
                let atom = negated(alloc, head, place, items)?;
                out.push(change(false, atom))?;
                Ok(())
            }
            Head::Name => {
                let atom = atom(alloc, head, place, items)?;
                out.push(change(true, atom))?;
                Ok(())
            }
            Head::Other => Err(shape(at)),
            _ => Err(unsupported(alloc, head, place)?),
        }
    }
}

// PDDL's timed literal: `at`, a number, and a list.
fn is_timed(head: &Text, items: &[Item]) -> bool
    ensures { result ≡ is_timed head.now (trees_of items.now) }
{
    let Some((Node::Word { text, at: _ }, after)) = next(items) else {
        return false;
    };
    let Some((Node::List { at: _, inner: _ }, after)) = next(after) else {
        return false;
    };
    match next(after) {
        None => is_word(head, b"at") && starts_with_digit(text),
        Some(_) => false,
    }
}

fn literal(stated: bool, atom: AtomText) -> InitFact
    ensures { result ≡ literal stated atom }
{
    InitFact::Literal {
        item: InitItem { stated, atom },
    }
}

fn stated(alloc: Global, head: &Text, at: u64, items: &[Item]) -> Result<InitFact, ReadError>
    ensures { Gives result (stated_of head.now at (trees_of items.now)) }
{
    if is_timed(head, items) {
        return Err(unsupported(alloc, head, at)?);
    }
    let atom = atom(alloc, head, at, items)?;
    Ok(literal(true, atom))
}

fn headed_fact(
    alloc: Global,
    at: u64,
    head: &Text,
    place: u64,
    items: &[Item],
) -> Result<InitFact, ReadError>
    ensures { Gives result (headed_fact_of at head.now place (trees_of items.now)) }
{
    match head_of(head) {
        Head::Not => {
            let atom = negated(alloc, head, place, items)?;
            Ok(literal(false, atom))
        }
        Head::Name => stated(alloc, head, place, items),
        Head::Other => Err(shape(at)),
        _ => Err(unsupported(alloc, head, place)?),
    }
}

fn fact(alloc: Global, node: Node<'_>, out: &mut Vec<InitFact>) -> Result<(), ReadError>
    ensures { Adds result out.old.items out.new.items (fact_of (tree_of node.entry)) }
{
    let Node::List { at, inner } = node else {
        return Err(shape(place_of(node)));
    };
    let Some((Node::Word { text, at: place }, rest)) = next(inner) else {
        return Err(shape(at));
    };
    out.push(headed_fact(alloc, at, text, place, rest)?)?;
    Ok(())
}

/// The facts of `:init`.
#[tactic(auto, using(crate::proofs::Firsts::fails_append))]
pub fn facts(alloc: Global, items: &[Item]) -> Result<InitFacts, ReadError>
    ensures { Gives result (each fact_of (trees_of items.now)) }
{
    let mut facts = Vec::new(alloc);
    let mut rest = items;
    while let Some((node, after)) = next(rest) {
        fact(alloc, node, &mut facts)?;
        rest = after;
    }
    Ok(InitFacts::of_vec(facts))
}
