//! The lists of a text.

ghost use Rattle.std.specs.Prelude.{◌≡◌, None, MatchResult, IfErr};
ghost use Rattle.wp_lex.specs.Faults.{fault_of, plan_fault_of, Explains, IsPlanFault};
ghost use Rattle.wp_lex.specs.Items.{items_of, plan_items_of};

use crate::error::LexError;
use crate::item::Items;
use crate::place::Source;
use crate::read::read_items;
use std::alloc::Global;
use std::marker::Model;

/// One list, seen as its items from its `Open` to its `Close`. Each `Open` has its `Close`.
#[derive(Debug, Drop)]
pub struct Tree {
    items: Items,
}

impl Model for Tree {
    ghost use Rattle.std.specs.Prelude.{List};
    ghost use Rattle.wp_lex.specs.declared.item.Item.{Item};
    ghost use Rattle.wp_lex.specs.Lists.{IsOneList};

    ghost Value = { List Item };

    ghost view = { λ a. a.items };

    ghost invariant = { λ a. IsOneList a.items };
}

impl Tree {
    ghost use Rattle.wp_lex.specs.Lists.{IsOneList};

    /// The items of the list.
    pub fn items(&self) -> &Items
        ensures value { result.now ≡ self.now }
        ensures one { IsOneList self.now }
    {
        &self.items
    }
}

/// Any number of lists, seen as their items, one list after another. Each `Open` has its `Close`.
#[derive(Debug, Drop)]
pub struct Trees {
    items: Items,
}

impl Model for Trees {
    ghost use Rattle.std.specs.Prelude.{List};
    ghost use Rattle.wp_lex.specs.declared.item.Item.{Item};
    ghost use Rattle.wp_lex.specs.Lists.{AreLists};

    ghost Value = { List Item };

    ghost view = { λ a. a.items };

    ghost invariant = { λ a. AreLists a.items };
}

impl Trees {
    ghost use Rattle.wp_lex.specs.Lists.{AreLists};

    /// The items of the lists.
    pub fn items(&self) -> &Items
        ensures value { result.now ≡ self.now }
        ensures lists { AreLists self.now }
    {
        &self.items
    }
}

/// The one list of a PDDL text, or the first lexical fault.
pub fn read_tree(alloc: Global, bytes: &[u8]) -> Result<Tree, LexError>
    ensures { MatchResult result
        (λ tree. (fault_of bytes.now ≡ None) × (tree ≡ items_of bytes.now))
        (λ error. Explains error (fault_of bytes.now)) }
{
    let items = read_items(alloc, Source::Pddl, bytes)?;
    Ok(Tree { items })
}

/// The lists of a plan file, or the first lexical fault. Labels and durations between the lists are skipped.
pub fn read_steps(alloc: Global, bytes: &[u8]) -> Result<Trees, LexError>
    ensures lists { MatchResult result
        (λ trees. (plan_fault_of bytes.now ≡ None) × (trees ≡ plan_items_of bytes.now))
        (λ error. Explains error (plan_fault_of bytes.now)) }
    ensures kinds { IfErr result IsPlanFault }
{
    let items = read_items(alloc, Source::Plan, bytes)?;
    Ok(Trees { items })
}
