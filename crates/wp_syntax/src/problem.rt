//! Problems.

ghost use Rattle.std.specs.Prelude.{◌≡◌, List, [], codes, IfOk};
ghost use Rattle.wp_lex.specs.Node.{tree_of};
ghost use Rattle.wp_lex.specs.Trees.{trees_of};
ghost use Rattle.wp_syntax.specs.Reading.{Gives, Passes, Turns};
ghost use Rattle.wp_syntax.specs.Problems.{no_entries, domain_name_of, only_goal_of, goal_entry_of, headed_entry_of, entry_of, entries_of, complete_of, complete_entries_of, listed_of, problem_from, problem_of};

use crate::atom::place_of;
use crate::conjunction::conjunction;
use crate::effect::facts;
use crate::error::{Fault, ReadError, ReadKind, bad, shape, unsupported, wrong};
use crate::items::literals_in;
use crate::lists::{AtomTexts, InitFacts, TypedList};
use crate::outline::{end, flags, only_name, outer_list, title};
use crate::records::{Name, Problem};
use crate::typing::{Role, typed_list};
use crate::word::{ItemHead, item_head_of};
use std::alloc::{AllocError, Global};
use wp_edge::Text;
use wp_lex::{Item, Node, next};

/// The items of a problem that were read so far.
#[derive(Drop)]
pub struct Entries {
    pub domain: bool,
    pub requirements: bool,
    pub objects: Option<TypedList>,
    pub init: Option<InitFacts>,
    pub goal: Option<AtomTexts>,
}

fn domain_name(
    alloc: Global,
    so_far: &mut Entries,
    at: u64,
    items: &[Item],
) -> Result<(), ReadError>
    ensures { Turns result so_far.new (domain_name_of so_far.old at (trees_of items.now)) }
{
    // A missing item is a fault before a second one is.
    let Some(_) = next(items) else {
        return Err(shape(at));
    };
    if so_far.domain {
        return Err(bad(ReadKind::Duplicate, at));
    }
    let _name = only_name(alloc, at, items)?;
    so_far.domain = true;
    Ok(())
}

// One goal and nothing else.
fn only_goal(alloc: Global, node: Node<'_>, items: &[Item]) -> Result<AtomTexts, ReadError>
    ensures { Gives result (only_goal_of (tree_of node.entry) (trees_of items.now)) }
{
    let mut atoms = Vec::new(alloc);
    conjunction(alloc, node, &mut atoms)?;
    end(items)?;
    Ok(AtomTexts::of_vec(atoms))
}

fn goal_entry(alloc: Global, so_far: &mut Entries, at: u64, items: &[Item]) -> Result<(), ReadError>
    ensures { Turns result so_far.new (goal_entry_of so_far.old at (trees_of items.now)) }
{
    let Some((node, rest)) = next(items) else {
        return Err(shape(at));
    };
    if so_far.goal.is_some() {
        return Err(bad(ReadKind::Duplicate, at));
    }
    so_far.goal = Some(only_goal(alloc, node, rest)?);
    Ok(())
}

// An item by its word, with the place of its list and that of its word.
fn headed_entry(
    alloc: Global,
    so_far: &mut Entries,
    at: u64,
    head: &Text,
    place: u64,
    items: &[Item],
) -> Result<(), ReadError>
    ensures { Turns result so_far.new (headed_entry_of so_far.old at head.now place (trees_of items.now)) }
{
    match item_head_of(head) {
        ItemHead::Domain => domain_name(alloc, so_far, at, items),
        ItemHead::Requirements => {
            if so_far.requirements {
                return Err(bad(ReadKind::Duplicate, at));
            }
            flags(items)?;
            so_far.requirements = true;
            Ok(())
        }
        ItemHead::Objects => {
            if so_far.objects.is_some() {
                return Err(bad(ReadKind::Duplicate, at));
            }
            so_far.objects = Some(typed_list(alloc, Role::Names, items)?);
            Ok(())
        }
        ItemHead::Init => {
            if so_far.init.is_some() {
                return Err(bad(ReadKind::Duplicate, at));
            }
            so_far.init = Some(facts(alloc, items)?);
            Ok(())
        }
        ItemHead::Goal => goal_entry(alloc, so_far, at, items),
        ItemHead::Unsupported => Err(unsupported(alloc, head, place)?),
        ItemHead::Other => Err(shape(at)),
    }
}

fn entry(alloc: Global, so_far: &mut Entries, node: Node<'_>) -> Result<(), ReadError>
    ensures { Turns result so_far.new (entry_of so_far.old (tree_of node.entry)) }
{
    let Node::List { at, inner } = node else {
        return Err(shape(place_of(node)));
    };
    let Some((Node::Word { text, at: place }, rest)) = next(inner) else {
        return Err(shape(at));
    };
    headed_entry(alloc, so_far, at, text, place, rest)
}

fn all_entries(alloc: Global, items: &[Item]) -> Result<Entries, ReadError>
    ensures { Gives result (entries_of no_entries (trees_of items.now)) }
{
    let mut so_far = Entries {
        domain: false,
        requirements: false,
        objects: None,
        init: None,
        goal: None,
    };
    let mut rest = items;
    while let Some((node, after)) = next(rest) {
        entry(alloc, &mut so_far, node)?;
        rest = after;
    }
    Ok(so_far)
}

// What must be there, in the list at a place.
fn complete(at: u64, entries: &Entries) -> Result<(), Fault>
    ensures { Passes result (complete_of at entries.now) }
{
    if entries.init.is_none() || entries.goal.is_none() {
        return Err(wrong(ReadKind::Shape, at));
    }
    Ok(())
}

// All items of a problem, in the list at a place.
fn complete_entries(alloc: Global, at: u64, items: &[Item]) -> Result<Entries, ReadError>
    ensures { Gives result (complete_entries_of at (trees_of items.now)) }
{
    let entries = all_entries(alloc, items)?;
    complete(at, &entries)?;
    Ok(entries)
}

// A problem's name and its items.
fn listed(alloc: Global, items: &[Item]) -> Result<(Name, Entries), ReadError>
    ensures { Gives result (listed_of (trees_of items.now)) }
{
    let outline = outer_list(items)?;
    let name = title(alloc, b"problem", outline.title)?;
    let entries = complete_entries(alloc, outline.at, outline.rest)?;
    Ok((name, entries))
}

fn problem_from(alloc: Global, name: Name, entries: Entries) -> Result<Problem, AllocError>
    ensures { IfOk result (λ problem. problem ≡ problem_from name entries) }
{
    let Entries {
        domain: _,
        requirements: _,
        objects,
        init,
        goal,
    } = entries;
    let facts = init.unwrap_or(InitFacts::of_vec(Vec::new(alloc)));
    Ok(Problem {
        name,
        objects: objects.unwrap_or(TypedList::of_vec(Vec::new(alloc))),
        init: literals_in(alloc, facts)?,
        goal: goal.unwrap_or(AtomTexts::of_vec(Vec::new(alloc))),
    })
}

/// The record of a problem.
pub fn problem(alloc: Global, items: &[Item]) -> Result<Problem, ReadError>
    ensures { Gives result (problem_of (trees_of items.now)) }
{
    let (name, entries) = listed(alloc, items)?;
    Ok(problem_from(alloc, name, entries)?)
}
