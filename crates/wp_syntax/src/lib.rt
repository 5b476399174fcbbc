//! PDDL's grammar: the records of a domain and of a problem, or the first fault.
//!
//! `read_domain` and `read_problem` go through the tree of a text from the left, each list before its items. Callers see a
//! record that has every name with its place, or the first fault of that walk, by its kind and place. Both are defined over
//! trees, one function for each rule of the grammar, as all faults in order beside a value (`specs/Reading.antt`); so
//! the readers below are one function a rule as well, and stop at the first. `wp_lift` gives the records their meaning:
//! which types, objects and predicates the names stand for is not asked here.
#![tactic(auto)]

mod action;
mod atom;
mod cond;
mod conjunction;
mod domain;
mod effect;
mod error;
mod goal;
mod items;
mod laws;
mod lists;
mod named;
mod outline;
mod predicate;
mod problem;
mod read;
mod records;
mod typing;
mod word;

pub use error::{Part, PddlError, PddlKind};
pub use laws::{
    domain_faults_walk, domains_are_named, first_faults_are_least, phrases_are_grammatical,
    problem_faults_walk, problems_are_named, texts_are_grammatical,
};
pub use lists::{
    ActionTexts, AtomTexts, Conds, Effects, InitItems, Kinds, Names, PredTexts, TypedList,
};
pub use read::{read_domain, read_problem};
pub use records::{
    ActionText, AtomText, Cond, Domain, Effect, InitItem, Name, PredText, Problem, Typed,
};
