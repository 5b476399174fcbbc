//! The lifted problem: objects, predicates and action schemas by number, and what they mean.
//!
//! Callers see a `Lifted` as a record of `specs/Problem.antt`, a `World` as a set of ground atoms, and the meaning of an
//! instance, its conditions and its result, by `specs/Worlds.antt`, which knows nothing of names, types or texts.
//! `lift` turns the records of `wp_syntax` into it, or answers the first fault of the walk of `specs/Lifting.antt`.
//!
//! Names are numbered in the order in which they are first seen, by hashing; subtypes are the closure of the declared
//! pairs, one row of bits for each type, closed by a search from each in the order of a depth-first walk. `wp_check` and
//! `wp_ground` stand on it; it knows no plan and no search.
#![tactic(auto)]

mod atoms;
mod closure;
mod fault;
mod flags;
mod laws;
mod lifted;
mod lifting;
mod meaning;
mod names;
mod objects;
mod order;
mod preds;
mod schemas;
mod scope;
mod types;
mod typing;
mod world;

pub use atoms::{Args, GroundAtom, GroundAtoms};
pub use fault::Fault;
pub use laws::{
    liftings_are_formed, liftings_are_named, objects_fit_by_subtypes, rows_are_subtypes,
};
pub use lifted::Lifted;
pub use lifting::lift;
pub use meaning::{add_all, first_false, grounded, object_in};
pub use schemas::{
    Pred, Preds, Schema, Schemas, Slot, SlotAtom, SlotCond, SlotConds, SlotEffect, SlotEffects,
    Slots,
};
pub use world::World;
