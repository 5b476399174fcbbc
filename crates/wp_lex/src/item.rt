//! The words and brackets of a text, in order.

ghost use Rattle.std.specs.Prelude.{◌≡◌};

use std::marker::Model;
use wp_edge::Text;

/// A word or a bracket. Places are byte offsets from 0 in the text.
#[derive(Debug, Drop)]
pub enum Item {
    /// A word, with A to Z turned into a to z, and the place of its first byte.
    Word { text: Text, at: u64 },

    /// An opening bracket.
    Open { at: u64 },

    /// A closing bracket.
    Close,
}

/// A list of items.
#[derive(Debug, Drop)]
pub struct Items {
    items: Vec<Item>,
}

impl Model for Items {
    ghost use Rattle.std.specs.Prelude.{List};
    ghost use Rattle.wp_lex.specs.declared.item.Item.{Item};

    ghost Value = { List Item };

    ghost view = { λ a. a.items.items };
}

impl Items {
    pub fn of_vec(items: Vec<Item>) -> Items
        ensures { result ≡ items.items }
    {
        Items { items }
    }

    pub fn into_vec(self) -> Vec<Item>
        ensures { result.items ≡ self }
    {
        let Items { items } = self;
        items
    }

    pub fn as_slice(&self) -> &[Item]
        ensures { result.now ≡ self.now }
    {
        self.items.as_slice()
    }
}
