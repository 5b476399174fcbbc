//! The words of a command line, and the command that they are.
//!
//! Callers see the command as a function of the words (`specs/Words.antt`), and an error that says whether there is none or
//! memory was wanting. The crate `clap` splits the words into entries, by its own definition of a simple command
//! (`specs/CommandLines.antt`); every value comes as text and is read here, so that its form is defined here alone. One
//! reader of entries serves all commands that search (`specs/Options.antt`). The top call uses it; it knows nothing of
//! files and prints nothing.
#![tactic(auto)]

pub mod commands;
mod entries;
pub mod error;
mod kinds;
mod lines;
mod numbers;
mod options;
pub mod words;

pub use commands::Command;
pub use error::WordsError;
pub use words::command;
