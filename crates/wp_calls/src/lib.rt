//! The calls under the search that no run of the program makes, each made once from outside its crate. A crate of tests.
//!
//! A body that always answers want of memory is refused here where no command calls it, and by the stored runs of the program
//! where one does. What a call answers is proved of its definition, whose worked rows are computed in the definition's crate;
//! the answers here are stated by hand, never taken from the program.
#![tactic(auto)]

#[cfg(test)]
mod counters;
#[cfg(test)]
mod queue;
#[cfg(test)]
mod states;
#[cfg(test)]
mod tables;
#[cfg(test)]
mod tasks;
