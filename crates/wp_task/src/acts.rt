//! Ground actions.
ghost use Rattle.std.specs.Prelude.{◌≡◌};

use crate::atoms::Atoms;
use std::marker::Model;

/// A ground action: its preconditions, its add effects and its delete effects. In a task each list is strictly
/// increasing, and no atom is both added and deleted.
#[derive(Drop)]
pub struct Act {
    pub pre: Atoms,
    pub add: Atoms,
    pub del: Atoms,
}

/// The actions of a task, by number.
#[derive(Drop)]
pub struct Acts {
    items: Vec<Act>,
}

impl Model for Acts {
    ghost use Rattle.std.specs.Prelude.{List};
    ghost use Rattle.wp_task.specs.declared.acts.Act.{Act};

    ghost Value = { List Act };

    ghost view = { λ a. a.items.items };
}

impl Acts {
    pub fn of_vec(items: Vec<Act>) -> Acts
        ensures { result ≡ items.items }
    {
        Acts { items }
    }

    pub fn into_vec(self) -> Vec<Act>
        ensures { result.items ≡ self }
    {
        let Acts { items } = self;
        items
    }

    pub fn as_slice(&self) -> &[Act]
        ensures { result.now ≡ self.now }
    {
        self.items.as_slice()
    }
}
