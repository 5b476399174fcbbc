//! The steps of a plan file, and why it may have none.

ghost use Rattle.std.specs.Prelude.{◌≡◌};

use std::alloc::{AllocError, AllocFailed};
use std::marker::Model;
use thiserror::Error;
use wp_edge::{Text, Texts};
use wp_lex::LexError;

/// A step as it is written: the first word of a list and the words after it, in lower case.
#[derive(Drop)]
pub struct Step {
    pub name: Text,
    pub args: Texts,
}

/// The steps of a plan, in their order.
#[derive(Drop)]
pub struct Steps {
    items: Vec<Step>,
}

impl Model for Steps {
    ghost use Rattle.std.specs.Prelude.{List};
    ghost use Rattle.wp_check.specs.declared.step.Step.{Step};

    ghost Value = { List Step };

    ghost view = { λ a. a.items.items };
}

impl Steps {
    /// The list of these items, in their order.
    pub fn of_vec(items: Vec<Step>) -> Steps
        ensures { result ≡ items.items }
    {
        Steps { items }
    }

    pub fn into_vec(self) -> Vec<Step>
        ensures { result.items ≡ self }
    {
        let Steps { items } = self;
        items
    }

    pub fn as_slice(&self) -> &[Step]
        ensures { result.now ≡ self.now }
    {
        self.items.as_slice()
    }
}

/// Why a plan file has no steps. Places are byte offsets from 0.
#[derive(Debug, Drop, Error)]
pub enum PlanError {
    /// The first lexical fault of the text, which is never want of memory.
    #[error("a lexical fault: {fault}")]
    Lex { fault: LexError },

    /// A step that is an empty list or has a list in it: the place of that list.
    #[error("a step is no list of words at {at}")]
    Shape { at: u64 },

    /// Want of memory; it says nothing of the text.
    #[error("out of memory")]
    Memory,
}

impl From<AllocError> for PlanError {
    ghost use Rattle.wp_check.specs.declared.step.PlanError.TheVariants.{Memory};

    ghost from_gives = { λ _ e. e ≡ Memory };

    fn from(_error: AllocError) -> PlanError {
        PlanError::Memory
    }
}

impl<T: Drop> From<AllocFailed<T>> for PlanError {
    ghost use Rattle.wp_check.specs.declared.step.PlanError.TheVariants.{Memory};

    ghost from_gives = { λ _ e. e ≡ Memory };

    fn from(_error: AllocFailed<T>) -> PlanError {
        PlanError::Memory
    }
}
