//! Goals.

use crate::atom::atom;
use crate::conjunction::Conjunct;
use crate::error::{ReadError, shape, unsupported};
use crate::records::AtomText;
use crate::word::{Head, head_of};
use std::alloc::Global;
use wp_edge::Text;
use wp_lex::Item;

impl Conjunct for AtomText {
    ghost use Rattle.wp_syntax.specs.Grammar.{plain_goal_of};

    ghost plain_of = { plain_goal_of };

    fn plain(
        alloc: Global,
        at: u64,
        head: &Text,
        place: u64,
        items: &[Item],
        out: &mut Vec<AtomText>,
    ) -> Result<(), ReadError> {
        match head_of(head) {
            Head::Name => {
                out.push(atom(alloc, head, place, items)?)?;
                Ok(())
            }
            Head::Other => Err(shape(at)),
            _ => Err(unsupported(alloc, head, place)?),
        }
    }
}
