//! The text of a search that has ended.

ghost use Rattle.std.specs.Prelude.{◌≡◌, ◌<◌, ◌++◌, [], length, All, IfOk, OnOk, if◌then◌else◌};
ghost use Rattle.wp_check.specs.PlanText.{line};
ghost use Rattle.wp_report.specs.Endings.{IsPlanBelow, counts_text, emptied_words, ending_line, ending_text, found_text, plan_text, found_steps, words_text};
ghost use Rattle.wp_report.specs.Tasks.{IsNamed, name_at};

use crate::pieces::put_counted;
use crate::tasks::put_name;
use std::alloc::{AllocError, Global};
use wp_edge::{Text, Texts};
use wp_ground::Grounded;
use wp_plain::{Counts, Ending, How, Search, Settings};
use wp_task::Atoms;

/// The text of a search that has ended: the steps of the plan that was found, unless they are not wanted, and the line of
/// the ending. `tuples` is the number of tuples that each pair of counters has a word for.
#[tactic(auto, unfolding(crate::specs::Endings::ending_text))]
pub fn ending_text(
    alloc: Global,
    grounded: &Grounded,
    settings: &Settings,
    tuples: u64,
    ending: &Ending,
    with_plan: bool,
) -> Result<Text, AllocError>
    requires named { IsNamed grounded.now }
    requires plan { IsPlanBelow (length grounded.now.task.acts) ending.now.how }
    ensures { IfOk result (λ text. text ≡ ending_text grounded.now settings.now tuples ending.now with_plan) }
{
    let mut out = Vec::new(alloc);
    put_steps(&mut out, &grounded.act_names, &ending.how, with_plan)?;
    put_ending(&mut out, settings.search, tuples, ending)?;
    Ok(Text::of_vec(out))
}

// The steps, where a plan was found and they are wanted.
fn put_steps(out: &mut Vec<u8>, names: &Texts, how: &How, with_plan: bool) -> Result<(), AllocError>
    requires { IsPlanBelow (length names.now) how.now }
    ensures { OnOk result (out.new.items ≡ out.old.items ++ (if with_plan then found_steps names.now how.now else [])) }
{
    if with_plan {
        put_found_steps(out, names, how)
    } else {
        Ok(())
    }
}

fn put_found_steps(out: &mut Vec<u8>, names: &Texts, how: &How) -> Result<(), AllocError>
    requires { IsPlanBelow (length names.now) how.now }
    ensures { OnOk result (out.new.items ≡ out.old.items ++ found_steps names.now how.now) }
{
    match how {
        How::Found { plan } => put_plan(out, names, plan),
        _ => Ok(()),
    }
}

// The steps of a plan, a line each, by the names of the actions.
fn put_plan(out: &mut Vec<u8>, names: &Texts, plan: &Atoms) -> Result<(), AllocError>
    requires { All (λ a. a < length names.now) plan.now }
    ensures { OnOk result (out.new.items ≡ out.old.items ++ plan_text names.now plan.now) }
{
    for a in plan.as_slice() {
        put_name_line(out, names, *a)?;
    }
    Ok(())
}

fn put_name_line(out: &mut Vec<u8>, names: &Texts, number: u32) -> Result<(), AllocError>
    requires { number < length names.now }
    ensures { OnOk result (out.new.items ≡ out.old.items ++ line (name_at names.now number)) }
{
    put_name(out, names, number)?;
    out.push(b'\n')?;
    Ok(())
}

#[tactic(auto, unfolding(crate::specs::Endings::ending_line))]
fn put_ending(
    out: &mut Vec<u8>,
    search: Search,
    tuples: u64,
    ending: &Ending,
) -> Result<(), AllocError>
    ensures { OnOk result (out.new.items ≡ out.old.items ++ ending_line search tuples ending.now.how ending.now.counts) }
{
    let counts = &ending.counts;
    match &ending.how {
        How::Found { plan } => put_found(out, plan.as_slice().len() as u64, counts),
        How::Emptied => put_counts_line(out, emptied_words(search).as_bytes(), counts),
        How::Budget => put_counts_line(out, b"; budget ", counts),
        How::Words { pairs } => put_words(out, *pairs, tuples, counts),
    }
}

#[tactic(auto, unfolding(crate::specs::Endings::found_text))]
fn put_found(out: &mut Vec<u8>, steps: u64, counts: &Counts) -> Result<(), AllocError>
    ensures { OnOk result (out.new.items ≡ out.old.items ++ found_text steps counts.now) }
{
    put_counted(out, b"; found steps ", steps)?;
    out.push(b' ')?;
    put_counts(out, counts)?;
    out.push(b'\n')?;
    Ok(())
}

// BFWS(f5) keeps every node, so where none is left there is no plan; k-BFWS prunes, and says nothing of plans.
fn emptied_words(search: Search) -> &'static str
    ensures { result.now ≡ emptied_words search }
{
    match search {
        Search::KBfws => "; queue empty ",
        Search::F5 => "; no plan ",
    }
}

fn put_counts_line(out: &mut Vec<u8>, words: &[u8], counts: &Counts) -> Result<(), AllocError>
    ensures { OnOk result (out.new.items ≡ out.old.items ++ line (words.now ++ counts_text counts.now)) }
{
    out.extend_from_slice(words)?;
    put_counts(out, counts)?;
    out.push(b'\n')?;
    Ok(())
}

#[tactic(auto, unfolding(crate::specs::Endings::words_text))]
fn put_words(out: &mut Vec<u8>, pairs: u64, tuples: u64, counts: &Counts) -> Result<(), AllocError>
    ensures { OnOk result (out.new.items ≡ out.old.items ++ words_text pairs tuples counts.now) }
{
    out.extend_from_slice(b"; words ")?;
    put_counts(out, counts)?;
    put_counted(out, b" needed ", pairs)?;
    put_counted(out, b" tuples ", tuples)?;
    out.push(b'\n')?;
    Ok(())
}

#[tactic(auto, unfolding(crate::specs::Endings::counts_text))]
fn put_counts(out: &mut Vec<u8>, counts: &Counts) -> Result<(), AllocError>
    ensures { OnOk result (out.new.items ≡ out.old.items ++ counts_text counts.now) }
{
    put_counted(out, b"expanded ", counts.expanded)?;
    put_counted(out, b" numbered ", counts.numbered)?;
    put_counted(out, b" kept ", counts.kept)?;
    put_counted(out, b" pruned ", counts.pruned)?;
    put_counted(out, b" repeats ", counts.repeats)?;
    put_counted(out, b" pairs ", counts.pairs)
}
