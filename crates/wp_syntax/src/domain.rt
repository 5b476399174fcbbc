//! Domains.

ghost use Rattle.std.specs.Prelude.{◌≡◌, List, [], codes};
ghost use Rattle.wp_lex.specs.Node.{tree_of};
ghost use Rattle.wp_lex.specs.Trees.{trees_of};
ghost use Rattle.wp_syntax.specs.Reading.{Gives, Turns};
ghost use Rattle.wp_syntax.specs.Domains.{no_sections, headed_section_of, section_of, sections_of, sectioned_of, domain_from};

use crate::action::action;
use crate::atom::place_of;
use crate::error::{ReadError, ReadKind, bad, shape, unsupported};
use crate::lists::{ActionTexts, PredTexts, TypedList};
use crate::outline::{flags, outer_list, title};
use crate::predicate::preds;
use crate::records::{Domain, Name};
use crate::typing::{Role, typed_list};
use crate::word::{SectionHead, section_head_of};
use std::alloc::Global;
use wp_edge::Text;
use wp_lex::{Item, Node, next};

/// The sections of a domain that were read so far.
#[derive(Drop)]
pub struct Sections {
    pub requirements: bool,
    pub types: Option<TypedList>,
    pub constants: Option<TypedList>,
    pub preds: Option<PredTexts>,
    pub actions: ActionTexts,
}

fn no_sections(alloc: Global) -> Sections
    ensures { result ≡ no_sections }
{
    Sections {
        requirements: false,
        types: None,
        constants: None,
        preds: None,
        actions: ActionTexts::of_vec(Vec::new(alloc)),
    }
}

// A section by its word, with the place of its list and that of its word.
fn headed_section(
    alloc: Global,
    so_far: &mut Sections,
    at: u64,
    head: &Text,
    place: u64,
    items: &[Item],
) -> Result<(), ReadError>
    ensures { Turns result so_far.new (headed_section_of so_far.old at head.now place (trees_of items.now)) }
{
    match section_head_of(head) {
        SectionHead::Requirements => {
            if so_far.requirements {
                return Err(bad(ReadKind::Duplicate, at));
            }
            flags(items)?;
            so_far.requirements = true;
            Ok(())
        }
        SectionHead::Types => {
            if so_far.types.is_some() {
                return Err(bad(ReadKind::Duplicate, at));
            }
            so_far.types = Some(typed_list(alloc, Role::Names, items)?);
            Ok(())
        }
        SectionHead::Constants => {
            if so_far.constants.is_some() {
                return Err(bad(ReadKind::Duplicate, at));
            }
            so_far.constants = Some(typed_list(alloc, Role::Names, items)?);
            Ok(())
        }
        SectionHead::Predicates => {
            if so_far.preds.is_some() {
                return Err(bad(ReadKind::Duplicate, at));
            }
            so_far.preds = Some(preds(alloc, items)?);
            Ok(())
        }
        SectionHead::Action => {
            let action = action(alloc, so_far.actions.as_slice(), at, items)?;
            so_far.actions.push(action)?;
            Ok(())
        }
        SectionHead::Unsupported => Err(unsupported(alloc, head, place)?),
        SectionHead::Other => Err(shape(at)),
    }
}

fn section(alloc: Global, so_far: &mut Sections, node: Node<'_>) -> Result<(), ReadError>
    ensures { Turns result so_far.new (section_of so_far.old (tree_of node.entry)) }
{
    let Node::List { at, inner } = node else {
        return Err(shape(place_of(node)));
    };
    let Some((Node::Word { text, at: place }, rest)) = next(inner) else {
        return Err(shape(at));
    };
    headed_section(alloc, so_far, at, text, place, rest)
}

fn all_sections(alloc: Global, items: &[Item]) -> Result<Sections, ReadError>
    ensures { Gives result (sections_of no_sections (trees_of items.now)) }
{
    let mut so_far = no_sections(alloc);
    let mut rest = items;
    while let Some((node, after)) = next(rest) {
        section(alloc, &mut so_far, node)?;
        rest = after;
    }
    Ok(so_far)
}

// A domain's name and its sections.
pub fn sectioned(alloc: Global, items: &[Item]) -> Result<(Name, Sections), ReadError>
    ensures { Gives result (sectioned_of (trees_of items.now)) }
{
    let outline = outer_list(items)?;
    let name = title(alloc, b"domain", outline.title)?;
    let sections = all_sections(alloc, outline.rest)?;
    Ok((name, sections))
}

pub fn domain_from(alloc: Global, name: Name, sections: Sections) -> Domain
    ensures { result ≡ domain_from name sections }
{
    let Sections {
        requirements: _,
        types,
        constants,
        preds,
        actions,
    } = sections;
    Domain {
        name,
        types: types.unwrap_or(TypedList::of_vec(Vec::new(alloc))),
        constants: constants.unwrap_or(TypedList::of_vec(Vec::new(alloc))),
        preds: preds.unwrap_or(PredTexts::of_vec(Vec::new(alloc))),
        actions,
    }
}
