//! Predicates and action schemas, with names in place of texts' words only where a text is printed.

ghost use Rattle.std.specs.Prelude.{◌≡◌};

use std::marker::Model;
use wp_edge::Text;

/// A declared predicate.
#[derive(Drop)]
pub struct Pred {
    pub name: Text,
    /// How many arguments its atoms have, at most 32.
    pub arity: u32,
}

/// The predicates, by number: in the order of their declarations.
#[derive(Drop)]
pub struct Preds {
    items: Vec<Pred>,
}

impl Model for Preds {
    ghost use Rattle.std.specs.Prelude.{List};
    ghost use Rattle.wp_lift.specs.declared.schemas.Pred.{Pred};

    ghost Value = { List Pred };

    ghost view = { λ a. a.items.items };
}

impl Preds {
    /// The list of these items, in their order.
    pub fn of_vec(items: Vec<Pred>) -> Preds
        ensures { result ≡ items.items }
    {
        Preds { items }
    }

    pub fn into_vec(self) -> Vec<Pred>
        ensures { result.items ≡ self }
    {
        let Preds { items } = self;
        items
    }

    pub fn as_slice(&self) -> &[Pred]
        ensures { result.now ≡ self.now }
    {
        self.items.as_slice()
    }
}

/// What stands in the place of a term.
#[derive(Drop)]
pub enum Slot {
    /// A parameter of the schema, by its place from 0.
    Param { place: u32 },
    /// An object, by its number.
    Object { number: u32 },
}

/// The terms of an atom, in their order.
#[derive(Drop)]
pub struct Slots {
    items: Vec<Slot>,
}

impl Model for Slots {
    ghost use Rattle.std.specs.Prelude.{List};
    ghost use Rattle.wp_lift.specs.declared.schemas.Slot.{Slot};

    ghost Value = { List Slot };

    ghost view = { λ a. a.items.items };
}

impl Slots {
    /// The list of these items, in their order.
    pub fn of_vec(items: Vec<Slot>) -> Slots
        ensures { result ≡ items.items }
    {
        Slots { items }
    }

    pub fn into_vec(self) -> Vec<Slot>
        ensures { result.items ≡ self }
    {
        let Slots { items } = self;
        items
    }

    pub fn as_slice(&self) -> &[Slot]
        ensures { result.now ≡ self.now }
    {
        self.items.as_slice()
    }
}

/// An atom of a schema.
#[derive(Drop)]
pub struct SlotAtom {
    /// The number of its predicate.
    pub pred: u32,
    pub slots: Slots,
}

/// A condition of a schema.
#[derive(Drop)]
pub enum SlotCond {
    Atom { atom: SlotAtom },
    /// Both are one object.
    Same { a: Slot, b: Slot },
    /// They are two objects.
    Differ { a: Slot, b: Slot },
}

/// The conditions of a schema, in text order.
#[derive(Drop)]
pub struct SlotConds {
    items: Vec<SlotCond>,
}

impl Model for SlotConds {
    ghost use Rattle.std.specs.Prelude.{List};
    ghost use Rattle.wp_lift.specs.declared.schemas.SlotCond.{SlotCond};

    ghost Value = { List SlotCond };

    ghost view = { λ a. a.items.items };
}

impl SlotConds {
    /// The list of these items, in their order.
    pub fn of_vec(items: Vec<SlotCond>) -> SlotConds
        ensures { result ≡ items.items }
    {
        SlotConds { items }
    }

    pub fn into_vec(self) -> Vec<SlotCond>
        ensures { result.items ≡ self }
    {
        let SlotConds { items } = self;
        items
    }

    pub fn as_slice(&self) -> &[SlotCond]
        ensures { result.now ≡ self.now }
    {
        self.items.as_slice()
    }
}

/// An effect of a schema: an atom that it adds or deletes.
#[derive(Drop)]
pub struct SlotEffect {
    pub add: bool,
    pub atom: SlotAtom,
}

/// The effects of a schema, in text order.
#[derive(Drop)]
pub struct SlotEffects {
    items: Vec<SlotEffect>,
}

impl Model for SlotEffects {
    ghost use Rattle.std.specs.Prelude.{List};
    ghost use Rattle.wp_lift.specs.declared.schemas.SlotEffect.{SlotEffect};

    ghost Value = { List SlotEffect };

    ghost view = { λ a. a.items.items };
}

impl SlotEffects {
    /// The list of these items, in their order.
    pub fn of_vec(items: Vec<SlotEffect>) -> SlotEffects
        ensures { result ≡ items.items }
    {
        SlotEffects { items }
    }

    pub fn into_vec(self) -> Vec<SlotEffect>
        ensures { result.items ≡ self }
    {
        let SlotEffects { items } = self;
        items
    }

    pub fn as_slice(&self) -> &[SlotEffect]
        ensures { result.now ≡ self.now }
    {
        self.items.as_slice()
    }
}

/// An action schema.
#[derive(Drop)]
pub struct Schema {
    pub name: Text,
    /// How many parameters it has, at most 32.
    pub arity: u32,
    pub conds: SlotConds,
    pub effects: SlotEffects,
}

/// The action schemas, by number: in text order.
#[derive(Drop)]
pub struct Schemas {
    items: Vec<Schema>,
}

impl Model for Schemas {
    ghost use Rattle.std.specs.Prelude.{List};
    ghost use Rattle.wp_lift.specs.declared.schemas.Schema.{Schema};

    ghost Value = { List Schema };

    ghost view = { λ a. a.items.items };
}

impl Schemas {
    /// The list of these items, in their order.
    pub fn of_vec(items: Vec<Schema>) -> Schemas
        ensures { result ≡ items.items }
    {
        Schemas { items }
    }

    pub fn into_vec(self) -> Vec<Schema>
        ensures { result.items ≡ self }
    {
        let Schemas { items } = self;
        items
    }

    pub fn as_slice(&self) -> &[Schema]
        ensures { result.now ≡ self.now }
    {
        self.items.as_slice()
    }
}
