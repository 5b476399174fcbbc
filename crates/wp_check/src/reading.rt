//! The steps of a plan file.

ghost use Rattle.std.specs.Prelude.{◌≡◌, ◌≢◌, ◌^◌, ◌<◌, length, Ok, IfOk};
ghost use Rattle.wp_check.specs.PlanFile.{AreShort, Gives, plan_of, shaped, steps_of, step_of, step_with, word_of, words_of};
ghost use Rattle.wp_lex.specs.Node.{tree_of};
ghost use Rattle.wp_lex.specs.Trees.{trees_of};
ghost use Rattle.wp_lex.specs.declared.error.LexError.TheVariants as faults;

use crate::step::{PlanError, Step, Steps};
use std::alloc::Global;
use wp_edge::{Text, Texts};
use wp_lex::{Item, LexError, Node, next, read_steps};

/// The steps of a plan file, or its first lexical fault, or else the first place of a step that is none.
#[tactic(auto, unfolding(crate::specs::PlanFile::plan_of))]
pub fn read_plan(alloc: Global, bytes: &[u8]) -> Result<Steps, PlanError>
    ensures plan { Gives result (plan_of bytes.now) }
    ensures lexical { result ≢ Err (PlanError.Lex faults.Memory) }
    ensures short { IfOk result AreShort }
{
    let trees = match read_steps(alloc, bytes) {
        Ok(trees) => trees,
        Err(LexError::Memory) => return Err(PlanError::Memory),
        Err(fault) => return Err(PlanError::Lex { fault }),
    };
    steps_in(alloc, trees.items().as_slice())
}

// A step for each list of the items.
fn steps_in(alloc: Global, items: &[Item]) -> Result<Steps, PlanError>
    ensures steps { Gives result (shaped (steps_of (trees_of items.now))) }
    ensures short { IfOk result AreShort }
{
    let mut steps = Vec::new(alloc);
    let mut rest = items;
    while let Some((node, after)) = next(rest) {
        steps.push(step_in(alloc, node)?)?;
        rest = after;
    }
    if steps.len() > u32::MAX as usize {
        return Err(PlanError::Memory);
    }
    Ok(Steps::of_vec(steps))
}

fn step_in(alloc: Global, node: Node<'_>) -> Result<Step, PlanError>
    ensures step { Gives result (shaped (step_of (tree_of node.entry))) }
    ensures short { IfOk result (λ step. length step.args < 2 ^ 32) }
{
    match node {
        Node::Word { text: _, at } => Err(PlanError::Shape { at }),
        Node::List { at, inner } => named_step(at, words_in(alloc, inner)?),
    }
}

// The first word is the name. No words make no step, and 2^32 of them are not held.
fn named_step(at: u64, words: Texts) -> Result<Step, PlanError>
    ensures step { Gives result (shaped (step_with at (Ok words))) }
    ensures short { IfOk result (λ step. length step.args < 2 ^ 32) }
{
    let mut words = words.into_vec();
    if words.is_empty() {
        return Err(PlanError::Shape { at });
    }
    if words.len() > u32::MAX as usize {
        return Err(PlanError::Memory);
    }
    let name = words.remove(0);
    Ok(Step {
        name,
        args: Texts::of_vec(words),
    })
}

// The words of a list in which there is no list.
fn words_in(alloc: Global, items: &[Item]) -> Result<Texts, PlanError>
    ensures { Gives result (shaped (words_of (trees_of items.now))) }
{
    let mut words = Vec::new(alloc);
    let mut rest = items;
    while let Some((node, after)) = next(rest) {
        words.push(word_in(alloc, node)?)?;
        rest = after;
    }
    Ok(Texts::of_vec(words))
}

fn word_in(alloc: Global, node: Node<'_>) -> Result<Text, PlanError>
    ensures { Gives result (shaped (word_of (tree_of node.entry))) }
{
    match node {
        Node::Word { text, at: _ } => Ok(text.copy(alloc)?),
        Node::List { at, inner: _ } => Err(PlanError::Shape { at }),
    }
}
