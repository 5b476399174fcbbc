//! The actions of a domain.

ghost use Rattle.std.specs.Prelude.{◌≡◌, ◌≤◌, length, IfOk};
ghost use Rattle.wp_lex.specs.Node.{tree_of};
ghost use Rattle.wp_lex.specs.Trees.{Then, trees_of};
ghost use Rattle.wp_syntax.specs.Reading.{Fails, Gives, Passes, Turns};
ghost use Rattle.wp_syntax.specs.Steps.{GoesOn};
ghost use Rattle.wp_syntax.specs.Grammar.{cond_of};
ghost use Rattle.wp_syntax.specs.Effects.{effect_of};
ghost use Rattle.wp_syntax.specs.Actions.{no_parts, part_of, bare_part_of, valued_of, parts_of, action_from, defined_of, action_of};

use crate::atom::{name, place_of};
use crate::conjunction::conjunction;
use crate::error::{Fault, ReadError, ReadKind, bad, shape, unsupported, wrong};
use crate::items::changes_in;
use crate::lists::{Conds, EffectItems, TypedList};
use crate::named::{MOST_DECLARED, has_named};
use crate::records::{ActionText, Name};
use crate::typing::{Role, typed_list};
use crate::word::{PartHead, is_name, part_head_of};
use std::alloc::{AllocError, Global};
use wp_edge::Text;
use wp_lex::{Item, Node, next};

/// The parts of an action that were read so far.
#[derive(Drop)]
pub struct Parts {
    pub params: Option<TypedList>,
    pub pre: Option<Conds>,
    pub effects: Option<EffectItems>,
}

fn precondition(alloc: Global, node: Node<'_>) -> Result<Conds, ReadError>
    ensures { Gives result (cond_of (tree_of node.entry)) }
{
    let mut conds = Vec::new(alloc);
    conjunction(alloc, node, &mut conds)?;
    Ok(Conds::of_vec(conds))
}

fn effects(alloc: Global, node: Node<'_>) -> Result<EffectItems, ReadError>
    ensures { Gives result (effect_of (tree_of node.entry)) }
{
    let mut items = Vec::new(alloc);
    conjunction(alloc, node, &mut items)?;
    Ok(EffectItems::of_vec(items))
}

// A part by its word and the list behind it.
fn part(
    alloc: Global,
    so_far: &mut Parts,
    word: &Text,
    at: u64,
    list: u64,
    inner: &[Item],
) -> Result<(), ReadError>
    ensures { Turns result so_far.new (part_of so_far.old word.now at list (trees_of inner.now)) }
{
    match part_head_of(word) {
        PartHead::Parameters => {
            if so_far.params.is_some() {
                return Err(bad(ReadKind::Duplicate, at));
            }
            so_far.params = Some(typed_list(alloc, Role::Action, inner)?);
            Ok(())
        }
        PartHead::Precondition => {
            if so_far.pre.is_some() {
                return Err(bad(ReadKind::Duplicate, at));
            }
            so_far.pre = Some(precondition(alloc, Node::List { at: list, inner })?);
            Ok(())
        }
        PartHead::Effect => {
            if so_far.effects.is_some() {
                return Err(bad(ReadKind::Duplicate, at));
            }
            so_far.effects = Some(effects(alloc, Node::List { at: list, inner })?);
            Ok(())
        }
        PartHead::Vars => Err(unsupported(alloc, word, at)?),
        PartHead::Other => Err(shape(at)),
    }
}

// The fault of a part that no list follows.
fn bare_part(alloc: Global, word: &Text, at: u64) -> Result<ReadError, AllocError>
    ensures { IfOk result (λ error. Fails error (bare_part_of word.now at).faults) }
{
    match part_head_of(word) {
        PartHead::Vars => unsupported(alloc, word, at),
        _ => Ok(shape(at)),
    }
}

// A part by its word and what follows.
fn valued_part(
    alloc: Global,
    so_far: &mut Parts,
    word: &Text,
    at: u64,
    value: Node<'_>,
) -> Result<(), ReadError>
    ensures { Turns result so_far.new (valued_of so_far.old word.now at (tree_of value.entry)) }
{
    match value {
        Node::Word { text: _, at: _ } => Err(bare_part(alloc, word, at)?),
        Node::List { at: list, inner } => part(alloc, so_far, word, at, list, inner),
    }
}

// A word and what follows it.
fn next_part<'a>(
    alloc: Global,
    so_far: &mut Parts,
    node: Node<'_>,
    after: &'a [Item],
) -> Result<&'a [Item], ReadError>
    ensures read { GoesOn parts_of result so_far.old so_far.new (Then (tree_of node.entry) (trees_of after.now)) }
    ensures left { IfOk result (λ rest. length rest.now ≤ length after.now) }
{
    let Node::Word { text, at } = node else {
        return Err(shape(place_of(node)));
    };
    let Some((value, rest)) = next(after) else {
        return Err(bare_part(alloc, text, at)?);
    };
    valued_part(alloc, so_far, text, at, value)?;
    Ok(rest)
}

fn all_parts(alloc: Global, items: &[Item]) -> Result<Parts, ReadError>
    ensures { Gives result (parts_of no_parts (trees_of items.now)) }
{
    let mut so_far = Parts {
        params: None,
        pre: None,
        effects: None,
    };
    let mut rest = items;
    while let Some((node, after)) = next(rest) {
        rest = next_part(alloc, &mut so_far, node, after)?;
    }
    Ok(so_far)
}

fn action_from(alloc: Global, name: Name, parts: Parts) -> Result<ActionText, AllocError>
    ensures { IfOk result (λ action. action ≡ action_from name parts) }
{
    let Parts {
        params,
        pre,
        effects,
    } = parts;
    let items = effects.unwrap_or(EffectItems::of_vec(Vec::new(alloc)));
    Ok(ActionText {
        name,
        params: params.unwrap_or(TypedList::of_vec(Vec::new(alloc))),
        pre: pre.unwrap_or(Conds::of_vec(Vec::new(alloc))),
        effects: changes_in(alloc, items)?,
    })
}

// A name that may be given after those before it.
fn defined(before: &[ActionText], text: &Text, at: u64) -> Result<(), Fault>
    ensures { Passes result (defined_of before.now text.now at) }
{
    if !is_name(text) {
        return Err(wrong(ReadKind::Shape, at));
    }
    if has_named(text, before) {
        return Err(wrong(ReadKind::Duplicate, at));
    }
    if before.len() >= MOST_DECLARED as usize {
        return Err(wrong(
            ReadKind::TooMany {
                limit: MOST_DECLARED,
            },
            at,
        ));
    }
    Ok(())
}

/// What stands behind `:action`, in the list at a place.
#[tactic(auto, using(crate::proofs::Firsts::fails_append))]
pub fn action(
    alloc: Global,
    before: &[ActionText],
    at: u64,
    items: &[Item],
) -> Result<ActionText, ReadError>
    ensures { Gives result (action_of before.now at (trees_of items.now)) }
{
    let Some((node, rest)) = next(items) else {
        return Err(shape(at));
    };
    let Node::Word { text, at: place } = node else {
        return Err(shape(place_of(node)));
    };
    defined(before, text, place)?;
    let parts = all_parts(alloc, rest)?;
    Ok(action_from(alloc, name(alloc, text, place)?, parts)?)
}
