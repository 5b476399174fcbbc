//! Conjunctions: of conditions, of goals, of effects.

ghost use Rattle.wp_lex.specs.Node.{tree_of};
ghost use Rattle.wp_lex.specs.Trees.{trees_of};
ghost use Rattle.wp_syntax.specs.Reading.{Adds};
ghost use Rattle.wp_syntax.specs.Grammar.{conjunction_of, conjuncts_of};

use crate::atom::place_of;
use crate::error::{ReadError, shape};
use crate::word::is_word;
use std::alloc::Global;
use wp_edge::Text;
use wp_lex::{Item, Node, next};

/// What stands in a conjunction.
pub trait Conjunct: Drop + Sized {
    ghost use Rattle.std.specs.Prelude.{ℕ, List};
    ghost use Rattle.wp_lex.specs.Trees.{Trees};
    ghost use Rattle.wp_syntax.specs.Reading.{Read};

    ghost plain_of: { ℕ → List ℕ → ℕ → Trees → Read (List Self) };

    /// What is no conjunction, by the place of its list, its first word and that word's place.
    fn plain(
        alloc: Global,
        at: u64,
        head: &Text,
        place: u64,
        items: &[Item],
        out: &mut Vec<Self>,
    ) -> Result<(), ReadError>
        ensures { Adds result out.old.items out.new.items (plain_of at head.now place (trees_of items.now)) };
}

/// A conjunction: its parts go behind those of `out`, in the order of the text, and those of conjunctions within it too.
#[cycle(conjunctions)]
pub fn conjunction<C: Conjunct>(
    alloc: Global,
    node: Node<'_>,
    out: &mut Vec<C>,
) -> Result<(), ReadError>
    ensures { Adds result out.old.items out.new.items (conjunction_of C.plain_of (tree_of node.entry)) }
{
    let Node::List { at, inner } = node else {
        return Err(shape(place_of(node)));
    };
    match next(inner) {
        None => Ok(()),
        Some((Node::List { at: _, inner: _ }, _)) => Err(shape(at)),
        Some((Node::Word { text, at: place }, rest)) => {
            if is_word(text, b"and") {
                conjuncts(alloc, rest, out)
            } else {
                C::plain(alloc, at, text, place, rest, out)
            }
        }
    }
}

#[cycle(conjunctions)]
fn conjuncts<C: Conjunct>(alloc: Global, items: &[Item], out: &mut Vec<C>) -> Result<(), ReadError>
    ensures { Adds result out.old.items out.new.items (conjuncts_of C.plain_of (trees_of items.now)) }
{
    let mut rest = items;
    while let Some((node, after)) = next(rest) {
        conjunction(alloc, node, out)?;
        rest = after;
    }
    Ok(())
}
