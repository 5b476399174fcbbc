//! The verdict on the steps of a plan.

ghost use Rattle.std.specs.Prelude.{◌≡◌, ◌<◌, ◌^◌, length, map, unwrap_or, None, Some, IfOk, MatchResult};
ghost use Rattle.wp_check.specs.PlanFile.{AreShort};
ghost use Rattle.wp_check.specs.Verdicts.{IsNamed, Stops, fault_of_args, fault_of_object, fault_of_step, instance_of, verdict_at_end, verdict_of};
ghost use Rattle.wp_lift.specs.Names.{object_named};
ghost use Rattle.wp_lift.specs.Worlds.{among, after};

use crate::cause::{Stop, Verdict, Why};
use crate::step::{Step, Steps};
use std::alloc::{AllocError, Global};
use wp_edge::Text;
use wp_lift::{Args, Lifted, World};

/// What the plan of these steps is: the first step that is bad, with its first cause, else the first goal atom that does
/// not hold after them, else valid.
#[tactic(auto, unfolding(crate::specs::Verdicts::verdict_of))]
pub fn verdict(alloc: Global, lifted: &Lifted, steps: &Steps) -> Result<Verdict, AllocError>
    requires { AreShort steps.now }
    ensures { IfOk result (λ verdict. verdict ≡ verdict_of lifted.now steps.now) }
{
    let mut world = lifted.start(alloc)?;
    for (place, step) in steps.as_slice().iter().enumerate() {
        match take_step(alloc, lifted, step, &mut world) {
            Ok(()) => {}
            Err(Stop::Bad { why }) => {
                return Ok(Verdict::Bad {
                    step: place as u32 + 1,
                    why,
                });
            }
            Err(Stop::Memory) => return Err(AllocError),
        }
    }
    Ok(at_end(lifted.unmet_goal(&world)))
}

fn at_end(unmet: Option<u32>) -> Verdict
    ensures { result ≡ verdict_at_end unmet }
{
    match unmet {
        Some(place) => Verdict::GoalUnmet { place },
        None => Verdict::Valid,
    }
}

// The world after the step, where it is none that is bad.
fn take_step(alloc: Global, lifted: &Lifted, step: &Step, world: &mut World) -> Result<(), Stop>
    requires { length step.now.args < 2 ^ 32 }
    ensures { MatchResult result
        (λ _. (fault_of_step lifted.now (among world.old) step.now ≡ None)
        × (among world.new ≡ after lifted.now (instance_of lifted.now step.now) (among world.old)))
        (λ stop. Stops stop (fault_of_step lifted.now (among world.old) step.now)) }
{
    let Some(schema) = lifted.schema_of(&step.name) else {
        return Err(Stop::Bad {
            why: Why::UnknownAction,
        });
    };
    let given = step.args.as_slice().len() as u32;
    let wanted = lifted.arity_of(schema);
    if given != wanted {
        return Err(Stop::Bad {
            why: Why::Arguments { given, wanted },
        });
    }
    let args = objects_of(alloc, lifted, schema, step.args.as_slice())?;
    take_instance(alloc, lifted, step, schema, &args, world)
}

// The world after the instance that the step names, where its conditions hold.
fn take_instance(
    alloc: Global,
    lifted: &Lifted,
    _step: &Step,
    schema: u32,
    args: &Args,
    world: &mut World,
) -> Result<(), Stop>
    requires named { IsNamed lifted.now _step.now schema args.now }
    requires in_range { schema < length lifted.now.schemas }
    ensures { MatchResult result
        (λ _. (fault_of_step lifted.now (among world.old) _step.now ≡ None)
        × (among world.new ≡ after lifted.now (instance_of lifted.now _step.now) (among world.old)))
        (λ stop. Stops stop (fault_of_step lifted.now (among world.old) _step.now)) }
{
    if let Some(place) = lifted.first_false(alloc, schema, args, world)? {
        return Err(Stop::Bad {
            why: Why::Condition { place },
        });
    }
    lifted.after(schema, args, world)?;
    Ok(())
}

// The objects that the words name, each of a type of its parameter.
fn objects_of(alloc: Global, lifted: &Lifted, schema: u32, words: &[Text]) -> Result<Args, Stop>
    requires { length words.now < 2 ^ 32 }
    ensures { MatchResult result
        (λ args. (fault_of_args lifted.now schema 0 words.now ≡ None)
        × (args ≡ map (λ word. unwrap_or (object_named lifted.now word) 0) words.now))
        (λ stop. Stops stop (fault_of_args lifted.now schema 0 words.now)) }
{
    let mut args = Vec::new(alloc);
    for (place, word) in words.iter().enumerate() {
        args.push(object_at(lifted, schema, place as u32, word)?)?;
    }
    Ok(Args::of_vec(args))
}

fn object_at(lifted: &Lifted, schema: u32, place: u32, word: &Text) -> Result<u32, Why>
    ensures { MatchResult result
        (λ object. (fault_of_object lifted.now schema place (object_named lifted.now word.now) ≡ None)
        × (object ≡ unwrap_or (object_named lifted.now word.now) 0))
        (λ why. fault_of_object lifted.now schema place (object_named lifted.now word.now) ≡ Some why) }
{
    let Some(object) = lifted.object_of(word) else {
        return Err(Why::UnknownObject { place });
    };
    if !lifted.fits(schema, place, object) {
        return Err(Why::Misfit { place });
    }
    Ok(object)
}
