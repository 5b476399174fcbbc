//! Lists of the records: each is seen as the plain list of its items.

ghost use Rattle.std.specs.Prelude.{◌≡◌, ◌++◌, ◌∷◌, [], IfOk, OnOk};

use crate::items::{EffectItem, InitFact};
use crate::records::{ActionText, AtomText, Cond, Effect, InitItem, Name, PredText, Typed};
use std::alloc::{AllocError, Global};
use std::marker::Model;
use std::rc::Rc;

/// A list of names, as the types of a kind or the terms of an atom.
#[derive(Debug, Drop)]
pub struct Names {
    items: Vec<Name>,
}

impl Model for Names {
    ghost use Rattle.std.specs.Prelude.{List};
    ghost use Rattle.wp_syntax.specs.declared.records.Name.{Name};

    ghost Value = { List Name };

    ghost view = { λ a. a.items.items };
}

impl Names {
    pub fn of_vec(items: Vec<Name>) -> Names
        ensures { result ≡ items.items }
    {
        Names { items }
    }

    pub fn into_vec(self) -> Vec<Name>
        ensures { result.items ≡ self }
    {
        let Names { items } = self;
        items
    }

    pub fn as_slice(&self) -> &[Name]
        ensures { result.now ≡ self.now }
    {
        self.items.as_slice()
    }
}

/// The types of a kind, kept once for all words of its group.
#[derive(Debug, Drop)]
pub struct Kinds {
    names: Rc<Names>,
}

impl Model for Kinds {
    ghost use Rattle.std.specs.Prelude.{List};
    ghost use Rattle.wp_syntax.specs.declared.records.Name.{Name};

    ghost Value = { List Name };

    ghost view = { λ a. a.names.value };
}

impl Kinds {
    /// These types, for one word.
    pub fn of_names(alloc: Global, names: Names) -> Result<Kinds, AllocError>
        ensures { IfOk result (λ kinds. kinds ≡ names) }
    {
        let names = Rc::new(alloc, names)?;
        Ok(Kinds { names })
    }

    /// The same types for one more word. More words than can be counted are want of memory.
    pub fn share(&self) -> Result<Kinds, AllocError>
        ensures { IfOk result (λ kinds. kinds ≡ self.now) }
    {
        let names = self.names.clone()?;
        Ok(Kinds { names })
    }

    pub fn as_slice(&self) -> &[Name]
        ensures { result.now ≡ self.now }
    {
        self.names.as_slice()
    }
}

/// A list of names with their kinds.
#[derive(Debug, Drop)]
pub struct TypedList {
    items: Vec<Typed>,
}

impl Model for TypedList {
    ghost use Rattle.std.specs.Prelude.{List};
    ghost use Rattle.wp_syntax.specs.declared.records.Typed.{Typed};

    ghost Value = { List Typed };

    ghost view = { λ a. a.items.items };
}

impl TypedList {
    pub fn of_vec(items: Vec<Typed>) -> TypedList
        ensures { result ≡ items.items }
    {
        TypedList { items }
    }

    pub fn into_vec(self) -> Vec<Typed>
        ensures { result.items ≡ self }
    {
        let TypedList { items } = self;
        items
    }

    pub fn as_slice(&self) -> &[Typed]
        ensures { result.now ≡ self.now }
    {
        self.items.as_slice()
    }
}

/// A list of atoms.
#[derive(Debug, Drop)]
pub struct AtomTexts {
    items: Vec<AtomText>,
}

impl Model for AtomTexts {
    ghost use Rattle.std.specs.Prelude.{List};
    ghost use Rattle.wp_syntax.specs.declared.records.AtomText.{AtomText};

    ghost Value = { List AtomText };

    ghost view = { λ a. a.items.items };
}

impl AtomTexts {
    pub fn of_vec(items: Vec<AtomText>) -> AtomTexts
        ensures { result ≡ items.items }
    {
        AtomTexts { items }
    }

    pub fn into_vec(self) -> Vec<AtomText>
        ensures { result.items ≡ self }
    {
        let AtomTexts { items } = self;
        items
    }

    pub fn as_slice(&self) -> &[AtomText]
        ensures { result.now ≡ self.now }
    {
        self.items.as_slice()
    }
}

/// A list of conditions, of which all are to hold.
#[derive(Debug, Drop)]
pub struct Conds {
    items: Vec<Cond>,
}

impl Model for Conds {
    ghost use Rattle.std.specs.Prelude.{List};
    ghost use Rattle.wp_syntax.specs.declared.records.Cond.{Cond};

    ghost Value = { List Cond };

    ghost view = { λ a. a.items.items };
}

impl Conds {
    pub fn of_vec(items: Vec<Cond>) -> Conds
        ensures { result ≡ items.items }
    {
        Conds { items }
    }

    pub fn into_vec(self) -> Vec<Cond>
        ensures { result.items ≡ self }
    {
        let Conds { items } = self;
        items
    }

    pub fn as_slice(&self) -> &[Cond]
        ensures { result.now ≡ self.now }
    {
        self.items.as_slice()
    }
}

/// A list of effects.
#[derive(Debug, Drop)]
pub struct Effects {
    items: Vec<Effect>,
}

impl Model for Effects {
    ghost use Rattle.std.specs.Prelude.{List};
    ghost use Rattle.wp_syntax.specs.declared.records.Effect.{Effect};

    ghost Value = { List Effect };

    ghost view = { λ a. a.items.items };
}

impl Effects {
    pub fn of_vec(items: Vec<Effect>) -> Effects
        ensures { result ≡ items.items }
    {
        Effects { items }
    }

    pub fn into_vec(self) -> Vec<Effect>
        ensures { result.items ≡ self }
    {
        let Effects { items } = self;
        items
    }

    pub fn as_slice(&self) -> &[Effect]
        ensures { result.now ≡ self.now }
    {
        self.items.as_slice()
    }
}

/// A list of declared predicates.
#[derive(Debug, Drop)]
pub struct PredTexts {
    items: Vec<PredText>,
}

impl Model for PredTexts {
    ghost use Rattle.std.specs.Prelude.{List};
    ghost use Rattle.wp_syntax.specs.declared.records.PredText.{PredText};

    ghost Value = { List PredText };

    ghost view = { λ a. a.items.items };
}

impl PredTexts {
    pub fn of_vec(items: Vec<PredText>) -> PredTexts
        ensures { result ≡ items.items }
    {
        PredTexts { items }
    }

    pub fn into_vec(self) -> Vec<PredText>
        ensures { result.items ≡ self }
    {
        let PredTexts { items } = self;
        items
    }

    pub fn as_slice(&self) -> &[PredText]
        ensures { result.now ≡ self.now }
    {
        self.items.as_slice()
    }
}

/// A list of action schemas.
#[derive(Debug, Drop)]
pub struct ActionTexts {
    items: Vec<ActionText>,
}

impl Model for ActionTexts {
    ghost use Rattle.std.specs.Prelude.{List};
    ghost use Rattle.wp_syntax.specs.declared.records.ActionText.{ActionText};

    ghost Value = { List ActionText };

    ghost view = { λ a. a.items.items };
}

impl ActionTexts {
    pub(crate) fn push(&mut self, action: ActionText) -> Result<(), AllocError>
        ensures { OnOk result (self.new ≡ self.old ++ action ∷ []) }
    {
        self.items.push(action)?;
        Ok(())
    }

    pub fn of_vec(items: Vec<ActionText>) -> ActionTexts
        ensures { result ≡ items.items }
    {
        ActionTexts { items }
    }

    pub fn into_vec(self) -> Vec<ActionText>
        ensures { result.items ≡ self }
    {
        let ActionTexts { items } = self;
        items
    }

    pub fn as_slice(&self) -> &[ActionText]
        ensures { result.now ≡ self.now }
    {
        self.items.as_slice()
    }
}

/// A list of stated atoms.
#[derive(Debug, Drop)]
pub struct InitItems {
    items: Vec<InitItem>,
}

impl Model for InitItems {
    ghost use Rattle.std.specs.Prelude.{List};
    ghost use Rattle.wp_syntax.specs.declared.records.InitItem.{InitItem};

    ghost Value = { List InitItem };

    ghost view = { λ a. a.items.items };
}

impl InitItems {
    pub fn of_vec(items: Vec<InitItem>) -> InitItems
        ensures { result ≡ items.items }
    {
        InitItems { items }
    }

    pub fn into_vec(self) -> Vec<InitItem>
        ensures { result.items ≡ self }
    {
        let InitItems { items } = self;
        items
    }

    pub fn as_slice(&self) -> &[InitItem]
        ensures { result.now ≡ self.now }
    {
        self.items.as_slice()
    }
}

/// A list of the items of an effect.
#[derive(Drop)]
pub struct EffectItems {
    items: Vec<EffectItem>,
}

impl Model for EffectItems {
    ghost use Rattle.std.specs.Prelude.{List};
    ghost use Rattle.wp_syntax.specs.declared.items.EffectItem.{EffectItem};

    ghost Value = { List EffectItem };

    ghost view = { λ a. a.items.items };
}

impl EffectItems {
    pub fn of_vec(items: Vec<EffectItem>) -> EffectItems
        ensures { result ≡ items.items }
    {
        EffectItems { items }
    }

    pub fn into_vec(self) -> Vec<EffectItem>
        ensures { result.items ≡ self }
    {
        let EffectItems { items } = self;
        items
    }
}

/// A list of the items of `:init`.
#[derive(Drop)]
pub struct InitFacts {
    items: Vec<InitFact>,
}

impl Model for InitFacts {
    ghost use Rattle.std.specs.Prelude.{List};
    ghost use Rattle.wp_syntax.specs.declared.items.InitFact.{InitFact};

    ghost Value = { List InitFact };

    ghost view = { λ a. a.items.items };
}

impl InitFacts {
    pub fn of_vec(items: Vec<InitFact>) -> InitFacts
        ensures { result ≡ items.items }
    {
        InitFacts { items }
    }

    pub fn into_vec(self) -> Vec<InitFact>
        ensures { result.items ≡ self }
    {
        let InitFacts { items } = self;
        items
    }
}
