//! Small tasks that the tests of several crates are about, and what makes them.
//!
//! A list that is no list of atoms of its size, or an action that adds what it deletes, fails the test that gives it. Crates of tests
//! alone use this one; it knows of tasks and of nothing above them.
#![tactic(auto)]

mod tasks;

pub use tasks::{Row, act_of, acts_of, chain, dead_end, state_of, task_of, trap};
