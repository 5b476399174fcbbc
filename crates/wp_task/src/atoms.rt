//! Lists of numbers, of atoms or of actions.
ghost use Rattle.std.specs.Prelude.{◌≡◌, ◌∷◌, [], ◌++◌, IfOk, OnOk};

use std::alloc::{AllocError, Global};
use std::marker::Model;

/// A list of atom numbers; plans and lists of actions are such lists too.
#[derive(Drop)]
pub struct Atoms {
    items: Vec<u32>,
}

impl Model for Atoms {
    ghost use Rattle.std.specs.Prelude.{List, ℕ};

    ghost Value = { List ℕ };

    ghost view = { λ a. a.items.items };
}

impl Atoms {
    pub fn of_vec(items: Vec<u32>) -> Atoms
        ensures { result ≡ items.items }
    {
        Atoms { items }
    }

    pub fn into_vec(self) -> Vec<u32>
        ensures { result.items ≡ self }
    {
        let Atoms { items } = self;
        items
    }

    pub fn as_slice(&self) -> &[u32]
        ensures { result.now ≡ self.now }
    {
        self.items.as_slice()
    }

    /// An equal list.
    pub fn copy(&self, alloc: Global) -> Result<Atoms, AllocError>
        ensures { IfOk result (λ copy. copy ≡ self.now) }
    {
        let items = Vec::from_slice(alloc, self.items.as_slice())?;
        Ok(Atoms { items })
    }

    pub(crate) fn push(&mut self, number: u32) -> Result<(), AllocError>
        ensures { OnOk result (self.new ≡ self.old ++ number ∷ []) }
    {
        self.items.push(number)?;
        Ok(())
    }
}
