//! The words, brackets and lexical faults of a text.
//!
//! `read_tree` gives the one list of a domain, a problem or any other PDDL text, `read_steps` the lists of a plan file.
//! Callers see the items of a list from its `Open` to its `Close`, kept flat, so that no type holds itself; where the text
//! has a lexical fault they see the first one, at its place. Both are defined by the places of the whole text
//! (`specs/Words.antt`, `specs/Faults.antt`, `specs/Items.antt`). `next` takes a row of items apart into trees
//! (`specs/Trees.antt`), and the laws say what readers of trees may rely on.
//!
//! One pass reads both kinds of text. It keeps whether a comment or a word goes on and how many brackets it has passed;
//! a word's bytes are copied when its first byte is met. `wp_syntax` reads what stands in the lists; nothing here knows
//! its grammar.
#![tactic(auto)]

mod error;
mod fault;
mod item;
mod label;
mod laws;
mod node;
mod place;
mod read;
mod tree;
mod word;

pub use error::LexError;
pub use item::{Item, Items};
pub use laws::{
    faults_are_first, leaves_are_words, lists_are_read, plans_are_lists, plans_rise,
    texts_are_lists, texts_rise, words_are_runs, written_lists_are_read,
};
pub use node::{Node, next};
pub use tree::{Tree, Trees, read_steps, read_tree};
