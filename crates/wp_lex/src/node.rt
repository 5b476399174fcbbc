//! A row of items, taken apart tree by tree. Nothing else knows which brackets belong together.
//!
//! It is done anew at each list, so a text costs its length times its depth, and the depth is bounded.

ghost use Rattle.std.specs.Prelude.{◌≡◌, ◌+◌, ◌<◌, ◌≤◌, length, take, drop, MatchOption, IfSome};
ghost use Rattle.wp_lex.specs.Node.{tree_of, size_of};
ghost use Rattle.wp_lex.specs.Trees.{End, Then, Branch, trees_of, levels_of, first_or_end};

use crate::item::Item;
use wp_edge::Text;

/// A tree of a row of items, not yet taken apart: a word, or a list with the items between its brackets.
#[derive(Clone, Copy)]
pub enum Node<'a> {
    Word { text: &'a Text, at: u64 },

    List { at: u64, inner: &'a [Item] },
}

/// The first tree of the items and the items behind it. None where no tree is left.
pub fn next(items: &[Item]) -> Option<(Node<'_>, &[Item])>
    ensures trees { MatchOption result (trees_of items.now ≡ End)
        (λ x. trees_of items.now ≡ Then (tree_of x.0) (trees_of x.1.now)) }
    ensures smaller { IfSome result (λ x. size_of x.0 + length x.1.now < length items.now) }
{
    match items {
        [Item::Word { text, at }, rest @ ..] => Some((Node::Word { text, at: *at }, rest)),
        [Item::Open { at }, rest @ ..] => Some(list_from(*at, rest)),
        _ => None,
    }
}

// The list that was opened at `at` in front of the items, and the items behind its closing bracket.
fn list_from(at: u64, items: &[Item]) -> (Node<'_>, &[Item])
    ensures tree { tree_of result.0 ≡ Branch at (trees_of items.now) }
    ensures rest { trees_of result.1.now ≡ first_or_end (levels_of items.now).behind }
    ensures smaller { size_of result.0 + length result.1.now ≤ length items.now }
{
    let end = closing_of(items);
    let inner = &items[..end];
    (Node::List { at, inner }, from_or_end(items, end + 1))
}

// What is behind a missing bracket is nothing.
fn from_or_end(items: &[Item], start: usize) -> &[Item]
    ensures rest { result.now ≡ drop start items.now }
{
    if start < items.len() {
        &items[start..]
    } else {
        &items[items.len()..]
    }
}

// The place of the bracket that closes the list whose items these are, or their number where there is none.
fn closing_of(items: &[Item]) -> usize
    ensures inner { trees_of (take result items.now) ≡ trees_of items.now }
    ensures rest { trees_of (drop (result + 1) items.now) ≡ first_or_end (levels_of items.now).behind }
    ensures within { result ≤ length items.now }
{
    let mut depth = 0usize;
    for (place, item) in items.iter().enumerate() {
        match item {
            Item::Word { text: _, at: _ } => {}
            Item::Open { at: _ } => depth += 1,
            Item::Close => {
                if depth == 0 {
                    return place;
                }
                depth -= 1;
            }
        }
    }
    items.len()
}
