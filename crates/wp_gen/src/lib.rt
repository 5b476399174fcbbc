//! Planning tasks of any size, made from a number: equal numbers and sizes give equal tasks on every machine.
//!
//! Callers see two texts, a domain and a problem, as functions of the number and the size (`specs/Depot.antt`), and the draws as a
//! linear congruential sequence (`specs/Numbers.antt`). Inside, each piece is put behind what was written so far, and the starts and
//! the goals of the parcels are put into two texts in one pass, in the order in which they are drawn. The top call reads the texts
//! as it reads files. How a text is read is asked by the law alone: the texts have no fault, whatever the number.
#![tactic(auto)]

mod depot;
mod laws;
mod numbers;
mod pieces;

pub use depot::depot_task;
pub use laws::depot_tasks_are_read;
