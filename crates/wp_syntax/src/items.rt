//! The items of effects and of `:init`, each read as one list in the order of the text. The lists of a record are the parts of that list: all
//! items of one kind, in their order.

ghost use Rattle.std.specs.Prelude.{◌≡◌, IfOk};
ghost use Rattle.wp_syntax.specs.Items.{changes_in, literals_in};

use crate::lists::{EffectItems, Effects, InitFacts, InitItems};
use crate::records::{Effect, InitItem};
use std::alloc::{AllocError, Global};

/// An item of an effect that is no conjunction.
#[derive(Drop)]
pub enum EffectItem {
    Change { effect: Effect },
}

/// An item of `:init`.
#[derive(Drop)]
pub enum InitFact {
    Literal { item: InitItem },
}

/// The add and delete effects among the items of an effect.
pub fn changes_in(alloc: Global, items: EffectItems) -> Result<Effects, AllocError>
    ensures { IfOk result (λ effects. effects ≡ changes_in items) }
{
    let mut changes = Vec::new(alloc);
    for item in items.into_vec() {
        match item {
            EffectItem::Change { effect } => changes.push(effect)?,
        }
    }
    Ok(Effects::of_vec(changes))
}

/// The atoms that the items of `:init` state, or state to be false.
pub fn literals_in(alloc: Global, facts: InitFacts) -> Result<InitItems, AllocError>
    ensures { IfOk result (λ literals. literals ≡ literals_in facts) }
{
    let mut literals = Vec::new(alloc);
    for fact in facts.into_vec() {
        match fact {
            InitFact::Literal { item } => literals.push(item)?,
        }
    }
    Ok(InitItems::of_vec(literals))
}
