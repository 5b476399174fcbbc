//! Declared predicates by name.

ghost use Rattle.std.specs.Prelude.{◌≡◌, map, IfOk};
ghost use Rattle.wp_lift.specs.declared.schemas.Pred.{Pred};
ghost use Rattle.wp_lift.specs.Lifting.{pred_named, arity_of, pred_of};

use crate::fault::{narrow, push};
use crate::names::NameTable;
use crate::schemas::{Pred, Preds};
use std::alloc::{AllocError, Global};
use std::marker::Model;
use wp_edge::Text;
use wp_syntax::PredText;

/// The declared predicates, in which one is found by its name.
#[derive(Drop)]
pub struct PredTable {
    preds: Preds,
    names: NameTable,
}

impl Model for PredTable {
    ghost use Rattle.std.specs.Prelude.{List, ◌≡◌, map};
    ghost use Rattle.wp_lift.specs.declared.schemas.Pred.{Pred};

    ghost Value = { List Pred };

    ghost view = { λ t. t.preds };

    ghost invariant = { λ t. t.names ≡ map (λ (pred : Pred). pred.name) t.preds };
}

impl PredTable {
    pub fn of_texts(alloc: Global, texts: &[PredText]) -> Result<PredTable, AllocError>
        ensures { IfOk result (λ table. table ≡ map pred_of texts.now) }
    {
        let preds = preds_of(alloc, texts)?;
        let names = names_of(alloc, preds.as_slice())?;
        Ok(PredTable { preds, names })
    }

    pub fn into_preds(self) -> Preds
        ensures { result ≡ self }
    {
        let PredTable { preds, names: _ } = self;
        preds
    }

    pub fn named(&self, name: &Text) -> Option<u32>
        ensures { result ≡ pred_named self.now name.now }
    {
        self.names.number_of(name)
    }

    /// How many arguments an atom of the predicate has; 0 where there is no such predicate.
    pub fn arity_of(&self, number: u32) -> u32
        ensures { result ≡ arity_of self.now number }
    {
        match self.preds.as_slice().get(number as usize) {
            Some(pred) => pred.arity,
            None => 0,
        }
    }
}

fn pred_of(alloc: Global, text: &PredText) -> Result<Pred, AllocError>
    ensures { IfOk result (λ pred. pred ≡ pred_of text.now) }
{
    let arity = narrow(text.params.as_slice().len())?;
    let name = text.name.text.copy(alloc)?;
    Ok(Pred { name, arity })
}

fn preds_of(alloc: Global, texts: &[PredText]) -> Result<Preds, AllocError>
    ensures { IfOk result (λ preds. preds ≡ map pred_of texts.now) }
{
    let mut preds = Vec::new(alloc);
    for text in texts {
        push(&mut preds, pred_of(alloc, text)?)?;
    }
    Ok(Preds::of_vec(preds))
}

fn names_of(alloc: Global, preds: &[Pred]) -> Result<NameTable, AllocError>
    ensures { IfOk result (λ names. names ≡ map (λ (pred : Pred). pred.name) preds.now) }
{
    let mut names = NameTable::new(alloc);
    for pred in preds {
        names = names.with_name(alloc, pred.name.copy(alloc)?)?;
    }
    Ok(names)
}
