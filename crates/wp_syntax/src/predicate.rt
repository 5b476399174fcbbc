//! The predicates of a domain.

ghost use Rattle.std.specs.Prelude.{◌≡◌, []};
ghost use Rattle.wp_lex.specs.Node.{tree_of};
ghost use Rattle.wp_lex.specs.Trees.{trees_of};
ghost use Rattle.wp_syntax.specs.Reading.{Adds, Gives, Passes};
ghost use Rattle.wp_syntax.specs.Predicates.{declared_of, declaration_of, pred_of, preds_of};

use crate::atom::{name, place_of};
use crate::error::{Fault, ReadError, ReadKind, shape, wrong};
use crate::lists::PredTexts;
use crate::named::{MOST_DECLARED, has_named};
use crate::records::PredText;
use crate::typing::{Role, typed_list};
use crate::word::{is_name, is_reserved};
use std::alloc::Global;
use wp_edge::Text;
use wp_lex::{Item, Node, next};

// A name that may be declared after those before it.
fn declared(before: &[PredText], text: &Text, at: u64) -> Result<(), Fault>
    ensures { Passes result (declared_of before.now text.now at) }
{
    if is_reserved(text) {
        return Err(wrong(ReadKind::Reserved, at));
    }
    if has_named(text, before) {
        return Err(wrong(ReadKind::Duplicate, at));
    }
    if before.len() >= MOST_DECLARED as usize {
        return Err(wrong(
            ReadKind::TooMany {
                limit: MOST_DECLARED,
            },
            at,
        ));
    }
    Ok(())
}

#[tactic(auto, using(crate::proofs::Firsts::fails_append))]
fn declaration(
    alloc: Global,
    before: &[PredText],
    text: &Text,
    at: u64,
    items: &[Item],
) -> Result<PredText, ReadError>
    ensures { Gives result (declaration_of before.now text.now at (trees_of items.now)) }
{
    declared(before, text, at)?;
    let params = typed_list(alloc, Role::Predicate, items)?;
    let name = name(alloc, text, at)?;
    Ok(PredText { name, params })
}

fn pred(alloc: Global, node: Node<'_>, out: &mut Vec<PredText>) -> Result<(), ReadError>
    ensures { Adds result out.old.items out.new.items (pred_of out.old.items (tree_of node.entry)) }
{
    let Node::List { at, inner } = node else {
        return Err(shape(place_of(node)));
    };
    let Some((Node::Word { text, at: place }, rest)) = next(inner) else {
        return Err(shape(at));
    };
    if !is_name(text) {
        return Err(shape(at));
    }
    out.push(declaration(alloc, out.as_slice(), text, place, rest)?)?;
    Ok(())
}

/// The declared predicates.
#[tactic(auto, using(crate::proofs::Firsts::fails_append))]
pub fn preds(alloc: Global, items: &[Item]) -> Result<PredTexts, ReadError>
    ensures { Gives result (preds_of [] (trees_of items.now)) }
{
    let mut preds = Vec::new(alloc);
    let mut rest = items;
    while let Some((node, after)) = next(rest) {
        pred(alloc, node, &mut preds)?;
        rest = after;
    }
    Ok(PredTexts::of_vec(preds))
}
