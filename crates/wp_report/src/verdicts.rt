//! The line that says what a plan is.

ghost use Rattle.std.specs.Prelude.{◌≡◌, ◌<◌, ◌++◌, ◌-◌, length, decimal, map, unwrap_or, IfOk, OnOk};
ghost use Rattle.wp_check.specs.Verdicts.{instance_of, verdict_of};
ghost use Rattle.wp_ground.specs.Tasks.{atom_at};
ghost use Rattle.wp_ground.specs.Texts.{atom_text};
ghost use Rattle.wp_lift.specs.Names.{object_named};
ghost use Rattle.wp_lift.specs.Problem.{schema_at};
ghost use Rattle.wp_report.specs.Causes.{IsAbout, IsBadStep};
ghost use Rattle.wp_report.specs.Verdicts.{arg_at, cond_at, literal_text, step_at, verdict_text, why_text};

use crate::conditions::{put_atom, put_literal};
use crate::pieces::{put_counted, put_number, put_two};
use std::alloc::{AllocError, Global};
use wp_check::{Step, Steps, Verdict, Why};
use wp_edge::Text;
use wp_lift::Lifted;

/// The line of a verdict on the steps.
#[tactic(auto, unfolding(crate::specs::Verdicts::verdict_text))]
pub fn verdict_text(
    alloc: Global,
    lifted: &Lifted,
    steps: &Steps,
    verdict: &Verdict,
) -> Result<Text, AllocError>
    requires { verdict.now ≡ verdict_of lifted.now steps.now }
    ensures { IfOk result (λ text. text ≡ verdict_text lifted.now steps.now verdict.now) }
{
    let mut out = Vec::new(alloc);
    match verdict {
        Verdict::Valid => {
            put_counted(&mut out, b"; valid steps ", steps.as_slice().len() as u64)?;
        }
        Verdict::Bad { step, why } => {
            put_counted(&mut out, b"; invalid step ", u64::from(*step))?;
            out.extend_from_slice(b": ")?;
            put_bad_step(alloc, &mut out, lifted, steps, *step, why)?;
        }
        Verdict::GoalUnmet { place } => {
            out.extend_from_slice(b"; invalid goal ")?;
            put_goal(alloc, &mut out, lifted, *place)?;
        }
    }
    out.push(b'\n')?;
    Ok(Text::of_vec(out))
}

// Steps count from 1.
fn put_bad_step(
    alloc: Global,
    out: &mut Vec<u8>,
    lifted: &Lifted,
    steps: &Steps,
    number: u32,
    why: &Why,
) -> Result<(), AllocError>
    requires { IsBadStep lifted.now steps.now number why.now }
    ensures { OnOk result (out.new.items ≡ out.old.items
        ++ why_text lifted.now (step_at steps.now (number - 1)) why.now) }
{
    let step = &steps.as_slice()[number as usize - 1];
    put_why(alloc, out, lifted, step, why)
}

#[tactic(auto, unfolding(crate::specs::Verdicts::why_text))]
fn put_why(
    alloc: Global,
    out: &mut Vec<u8>,
    lifted: &Lifted,
    step: &Step,
    why: &Why,
) -> Result<(), AllocError>
    requires { IsAbout lifted.now step.now why.now }
    ensures { OnOk result (out.new.items ≡ out.old.items ++ why_text lifted.now step.now why.now) }
{
    match why {
        Why::UnknownAction => put_two(out, b"unknown action ", step.name.as_slice()),
        Why::Arguments { given, wanted } => {
            put_counted(out, b"arguments ", u64::from(*given))?;
            put_counted(out, b" wanted ", u64::from(*wanted))
        }
        Why::UnknownObject { place } => put_arg(out, b"unknown object ", step, *place),
        Why::Misfit { place } => put_arg(out, b"type of ", step, *place),
        Why::Condition { place } => {
            out.extend_from_slice(b"condition ")?;
            put_condition(alloc, out, lifted, step, *place)
        }
    }
}

fn put_arg(out: &mut Vec<u8>, words: &[u8], step: &Step, place: u32) -> Result<(), AllocError>
    requires { place < length step.now.args }
    ensures { OnOk result (out.new.items ≡ out.old.items ++ (words.now ++ arg_at step.now place)) }
{
    put_two(out, words, step.args.as_slice()[place as usize].as_slice())
}

// The condition at a place of the action that the step names, with the step's objects. A word that names no object stands
// for the first; there is none in a step whose conditions were asked.
fn put_condition(
    alloc: Global,
    out: &mut Vec<u8>,
    lifted: &Lifted,
    step: &Step,
    place: u32,
) -> Result<(), AllocError>
    requires { place < length (schema_at lifted.now (instance_of lifted.now step.now).schema).conds }
    ensures { OnOk result (let one = instance_of lifted.now step.now in
        out.new.items ≡ out.old.items ++ literal_text lifted.now one.args (cond_at lifted.now one place)) }
{
    let args = objects_of(alloc, lifted, step.args.as_slice())?;
    let schema = lifted.schema_of(&step.name).unwrap_or(0);
    put_cond(alloc, out, lifted, schema, args.as_slice(), place)
}

// The condition at a place of a schema.
fn put_cond(
    alloc: Global,
    out: &mut Vec<u8>,
    lifted: &Lifted,
    schema: u32,
    args: &[u32],
    place: u32,
) -> Result<(), AllocError>
    requires { place < length (schema_at lifted.now schema).conds }
    ensures { OnOk result (out.new.items ≡ out.old.items
        ++ literal_text lifted.now args.now (cond_at lifted.now (record { schema = schema; args = args.now }) place)) }
{
    let cond = &lifted.schema_at(schema).conds.as_slice()[place as usize];
    put_literal(alloc, out, lifted, args, cond)
}

fn objects_of(alloc: Global, lifted: &Lifted, words: &[Text]) -> Result<Vec<u32>, AllocError>
    ensures { IfOk result (λ objects. objects.items ≡ map (λ word. unwrap_or (object_named lifted.now word) 0) words.now) }
{
    let mut objects = Vec::with_capacity(alloc, words.len())?;
    for word in words {
        objects.push(lifted.object_of(word).unwrap_or(0))?;
    }
    Ok(objects)
}

fn put_goal(alloc: Global, out: &mut Vec<u8>, lifted: &Lifted, place: u32) -> Result<(), AllocError>
    requires { place < length lifted.now.goals }
    ensures { OnOk result (out.new.items ≡ out.old.items ++ atom_text lifted.now (atom_at lifted.now.goals place)) }
{
    put_atom(
        alloc,
        out,
        lifted,
        &lifted.goals().as_slice()[place as usize],
    )
}
