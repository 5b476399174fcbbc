//! The records of a domain and of a problem, with the place of each name.

use crate::lists::{
    ActionTexts, AtomTexts, Conds, Effects, InitItems, Kinds, Names, PredTexts, TypedList,
};
use wp_edge::Text;

/// A word of the text, in lower case, and the byte offset where it stands.
#[derive(Debug, Drop)]
pub struct Name {
    pub text: Text,
    pub at: u64,
}

/// A name with the types of its kind. No kinds means `object`; two or more are an `either`.
#[derive(Debug, Drop)]
pub struct Typed {
    pub name: Name,
    pub kinds: Kinds,
}

/// A predicate with its terms: names of objects, and variables, which begin with `?`.
#[derive(Debug, Drop)]
pub struct AtomText {
    pub pred: Name,
    pub args: Names,
}

/// One part of a conjunction: an atom, or an equality or inequality with the place of its `=`.
#[derive(Debug, Drop)]
pub enum Cond {
    Atom { atom: AtomText },

    Same { a: Name, b: Name, at: u64 },

    Differ { a: Name, b: Name, at: u64 },
}

/// An add effect, or else a delete effect.
#[derive(Debug, Drop)]
pub struct Effect {
    pub add: bool,
    pub atom: AtomText,
}

/// A declared predicate.
#[derive(Debug, Drop)]
pub struct PredText {
    pub name: Name,
    pub params: TypedList,
}

/// An action schema. Nested conjunctions are flattened in the order of the text.
#[derive(Debug, Drop)]
pub struct ActionText {
    pub name: Name,
    pub params: TypedList,
    pub pre: Conds,
    pub effects: Effects,
}

/// A domain, as its text states it.
#[derive(Debug, Drop)]
pub struct Domain {
    pub name: Name,
    pub types: TypedList,
    pub constants: TypedList,
    pub preds: PredTexts,
    pub actions: ActionTexts,
}

/// An atom that `:init` states, or states to be false.
#[derive(Debug, Drop)]
pub struct InitItem {
    pub stated: bool,
    pub atom: AtomText,
}

/// A problem, as its text states it. The name of its domain is read, and means nothing.
#[derive(Debug, Drop)]
pub struct Problem {
    pub name: Name,
    pub objects: TypedList,
    pub init: InitItems,
    pub goal: AtomTexts,
}
