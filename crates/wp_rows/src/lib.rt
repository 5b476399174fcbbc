//! Worked cases of the top call over files and an output in memory: a crate of tests.
//!
//! Each case is one that no stored run of the program can have, as a file that cannot be read, an output that takes a few
//! bytes a call or a watcher that is refused memory. Their answers are stated here by hand, never taken from the program.
#![tactic(auto)]

#[cfg(test)]
mod check;
#[cfg(test)]
mod plan;
#[cfg(test)]
mod untold;
#[cfg(test)]
mod watchers;
#[cfg(test)]
mod workers;
