//! The evaluated successors of a node.
ghost use Rattle.std.specs.Prelude.{◌≡◌};

use std::marker::Model;
use wp_task::{State, Track};

/// A successor of a node with its counters: the action that leads to it, its state, #g and #r, the atoms that #r
/// counts, and R of its state where #g fell, so that it is a base.
#[derive(Drop)]
pub struct Child {
    pub act: u32,
    pub state: State,
    pub g: u32,
    pub r: u32,
    pub got: State,
    pub fresh: Option<Track>,
}

/// Children in the order of their actions.
#[derive(Drop)]
pub struct Children {
    items: Vec<Child>,
}

impl Model for Children {
    ghost use Rattle.std.specs.Prelude.{List};
    ghost use Rattle.wp_count.specs.declared.brood.Child.{Child};

    ghost Value = { List Child };

    ghost view = { λ c. c.items.items };
}

impl Children {
    pub fn of_vec(items: Vec<Child>) -> Children
        ensures { result ≡ items.items }
    {
        Children { items }
    }

    pub fn into_vec(self) -> Vec<Child>
        ensures { result.items ≡ self }
    {
        let Children { items } = self;
        items
    }

    pub fn as_slice(&self) -> &[Child]
        ensures { result.now ≡ self.now }
    {
        self.items.as_slice()
    }
}

/// A node's number, and a child for each action that applies in its state; repeats are among them.
#[derive(Drop)]
pub struct Brood {
    number: u64,
    children: Children,
}

impl Model for Brood {
    ghost use Rattle.wp_count.specs.Broods.{EvaluatedNode};

    ghost Value = { EvaluatedNode };

    ghost view = { λ b. record { number = b.number; children = b.children } };
}

impl Brood {
    pub(crate) fn of(number: u64, children: Children) -> Brood
        ensures { result ≡ record { number = number; children = children } }
    {
        Brood { number, children }
    }

    /// The number of the node.
    pub fn number(&self) -> u64
        ensures { result ≡ self.now.number }
    {
        self.number
    }

    pub fn into_children(self) -> Children
        ensures { result ≡ self.children }
    {
        let Brood {
            number: _,
            children,
        } = self;
        children
    }
}
