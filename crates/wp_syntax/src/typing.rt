//! Lists of words with kinds.

ghost use Rattle.std.specs.Prelude.{◌≡◌, ◌≤◌, ◌++◌, ◌∷◌, length, [], IfOk, OnOk};
ghost use Rattle.wp_lex.specs.Node.{tree_of};
ghost use Rattle.wp_lex.specs.Trees.{Then, trees_of};
ghost use Rattle.wp_syntax.specs.Reading.{Adds, Gives, Passes};
ghost use Rattle.wp_syntax.specs.Steps.{GivesKinds, GoesBehind, GoesOn, typed_from};
ghost use Rattle.wp_syntax.specs.Typing.{with_kinds, limit_of, word_of, kind_of, kinds_of, either_of, typed_of};

use crate::atom::{name, place_of};
use crate::error::{Fault, ReadError, ReadKind, shape, wrong};
use crate::lists::{Kinds, Names, TypedList};
use crate::named::{MOST_PARAMS, has_named};
use crate::records::{Name, Typed};
use crate::word::{is_dash, is_name, is_variable, is_word};
use std::alloc::{AllocError, Global};
use std::mem::replace;
use wp_edge::Text;
use wp_lex::{Item, Node, next};

/// What the words of a typed list are, and which checks they have.
#[derive(Clone, Copy)]
pub enum Role {
    /// Names of types or objects.
    Names,
    /// Parameters of a predicate.
    Predicate,
    /// Parameters of an action, which differ from each other.
    Action,
}

/// A typed list as far as it was read: the words that have their kinds, and the group that waits for its kind.
#[derive(Drop)]
pub struct TypedSoFar {
    pub role: Role,
    pub done: Vec<Typed>,
    pub group: Vec<Name>,
}

// One more parameter is within the limit.
fn within(done: &[Typed], group: &[Name], at: u64) -> Result<(), Fault>
    ensures { Passes result (limit_of done.now group.now at) }
{
    let most = MOST_PARAMS as usize;
    if done.len() < most && group.len() < most - done.len() {
        Ok(())
    } else {
        Err(wrong(ReadKind::TooMany { limit: MOST_PARAMS }, at))
    }
}

fn word(role: Role, done: &[Typed], group: &[Name], text: &Text, at: u64) -> Result<(), Fault>
    ensures { Passes result (word_of role done.now group.now text.now at) }
{
    match role {
        Role::Names => {
            if is_name(text) {
                Ok(())
            } else {
                Err(wrong(ReadKind::Shape, at))
            }
        }
        Role::Predicate => {
            if !is_variable(text) {
                return Err(wrong(ReadKind::Shape, at));
            }
            within(done, group, at)
        }
        Role::Action => {
            if !is_variable(text) {
                return Err(wrong(ReadKind::Shape, at));
            }
            if has_named(text, done) || has_named(text, group) {
                return Err(wrong(ReadKind::Duplicate, at));
            }
            within(done, group, at)
        }
    }
}

// A type of an `either`.
fn kind(alloc: Global, node: Node<'_>, out: &mut Vec<Name>) -> Result<(), ReadError>
    ensures { Adds result out.old.items out.new.items (kind_of (tree_of node.entry)) }
{
    let Node::Word { text, at } = node else {
        return Err(shape(place_of(node)));
    };
    if !is_name(text) {
        return Err(shape(at));
    }
    out.push(name(alloc, text, at)?)?;
    Ok(())
}

#[tactic(auto, using(crate::proofs::Firsts::fails_append))]
fn kinds(alloc: Global, items: &[Item]) -> Result<Names, ReadError>
    ensures { Gives result (kinds_of (trees_of items.now)) }
{
    let mut names = Vec::new(alloc);
    let mut rest = items;
    while let Some((node, after)) = next(rest) {
        kind(alloc, node, &mut names)?;
        rest = after;
    }
    Ok(Names::of_vec(names))
}

fn either(alloc: Global, at: u64, items: &[Item]) -> Result<Names, ReadError>
    ensures { Gives result (either_of at (trees_of items.now)) }
{
    let Some((Node::Word { text, at: _ }, rest)) = next(items) else {
        return Err(shape(at));
    };
    let Some(_) = next(rest) else {
        return Err(shape(at));
    };
    if !is_word(text, b"either") {
        return Err(shape(at));
    }
    kinds(alloc, rest)
}

fn only(alloc: Global, name: Name) -> Result<Names, AllocError>
    ensures { IfOk result (λ names. names ≡ name ∷ []) }
{
    let mut names = Vec::new(alloc);
    names.push(name)?;
    Ok(Names::of_vec(names))
}

// The group that waited has these kinds, which are kept once.
fn give_kinds(alloc: Global, so_far: &mut TypedSoFar, kinds: Names) -> Result<(), AllocError>
    ensures { OnOk result (GivesKinds kinds so_far.old so_far.new) }
{
    let group = replace(&mut so_far.group, Vec::new(alloc));
    let kinds = Kinds::of_names(alloc, kinds)?;
    with_kinds(&mut so_far.done, group, &kinds)
}

fn with_kinds(done: &mut Vec<Typed>, group: Vec<Name>, kinds: &Kinds) -> Result<(), AllocError>
    ensures { OnOk result (done.new.items ≡ done.old.items ++ with_kinds kinds.now group.items) }
{
    for name in group {
        let kinds = kinds.share()?;
        done.push(Typed { name, kinds })?;
    }
    Ok(())
}

// The kind behind the dash.
fn grouped<'a>(
    alloc: Global,
    so_far: &mut TypedSoFar,
    dash: u64,
    items: &'a [Item],
) -> Result<&'a [Item], ReadError>
    ensures read { GoesBehind dash result so_far.old so_far.new (trees_of items.now) }
    ensures left { IfOk result (λ rest. length rest.now ≤ length items.now) }
{
    match next(items) {
        None => Err(shape(dash)),
        Some((Node::Word { text, at }, rest)) => {
            if !is_name(text) {
                return Err(shape(dash));
            }
            let kind = name(alloc, text, at)?;
            give_kinds(alloc, so_far, only(alloc, kind)?)?;
            Ok(rest)
        }
        Some((Node::List { at, inner }, rest)) => {
            let kinds = either(alloc, at, inner)?;
            give_kinds(alloc, so_far, kinds)?;
            Ok(rest)
        }
    }
}

// A word of the list, or a dash and the kind behind it.
fn typed_part<'a>(
    alloc: Global,
    so_far: &mut TypedSoFar,
    node: Node<'_>,
    after: &'a [Item],
) -> Result<&'a [Item], ReadError>
    ensures read { GoesOn typed_from result so_far.old so_far.new (Then (tree_of node.entry) (trees_of after.now)) }
    ensures left { IfOk result (λ rest. length rest.now ≤ length after.now) }
{
    let Node::Word { text, at } = node else {
        return Err(shape(place_of(node)));
    };
    if is_dash(text) {
        if so_far.group.is_empty() {
            return Err(shape(at));
        }
        return grouped(alloc, so_far, at, after);
    }
    word(
        so_far.role,
        so_far.done.as_slice(),
        so_far.group.as_slice(),
        text,
        at,
    )?;
    so_far.group.push(name(alloc, text, at)?)?;
    Ok(after)
}

/// The words of a typed list with their kinds, in the order of the text.
pub fn typed_list(alloc: Global, role: Role, items: &[Item]) -> Result<TypedList, ReadError>
    ensures { Gives result (typed_of role [] [] (trees_of items.now)) }
{
    let mut so_far = TypedSoFar {
        role,
        done: Vec::new(alloc),
        group: Vec::new(alloc),
    };
    let mut rest = items;
    while let Some((node, after)) = next(rest) {
        rest = typed_part(alloc, &mut so_far, node, after)?;
    }
    give_kinds(alloc, &mut so_far, Names::of_vec(Vec::new(alloc)))?;
    let TypedSoFar {
        role: _,
        done,
        group: _,
    } = so_far;
    Ok(TypedList::of_vec(done))
}
