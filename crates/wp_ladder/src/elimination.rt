//! Action elimination.
ghost use Rattle.std.specs.Prelude.{◌≡◌, ◌<◌, true, length, IfOk, OnOk, All};
ghost use Rattle.wp_task.specs.Task.{is_plan};
ghost use Rattle.wp_ladder.specs.Trimmed.{applying, reaches, state_after, trimmed, IsSubsequence, PlansAreTrimmed};

use std::alloc::{AllocError, Global};
use wp_task::{Atoms, State, Task};

/// The trimmed plan is a plan of the task, and what is left of the plan where some of its steps are left out; more tries
/// would change nothing.
pub fn plans_are_trimmed()
    ensures { PlansAreTrimmed }
{}

/// A plan of the task, trimmed. Each step is tried once, by a walk over the steps after it.
pub fn trim(alloc: Global, task: &Task, plan: &Atoms) -> Result<Atoms, AllocError>
    requires { is_plan task.now plan.now ≡ true }
    ensures value { IfOk result (λ shorter. shorter ≡ trimmed task.now plan.now) }
    ensures plan { IfOk result (λ shorter. is_plan task.now shorter ≡ true) }
    ensures steps { IfOk result (λ shorter. IsSubsequence shorter plan.now) }
{
    let mut steps = Vec::from_slice(alloc, plan.as_slice())?;
    let mut rest = Vec::with_capacity(alloc, steps.len())?;
    let mut before = task.init().copy(alloc)?;
    let mut after = before.copy(alloc)?;
    let mut place = 0;
    while place < steps.len() {
        let later = &steps[place + 1..];
        let met = reaches_goals(task, &before, later, &mut after, &mut rest)?;
        if met {
            steps.truncate(place);
            steps.extend_from_slice(rest.as_slice())?;
        } else {
            task.advance(&mut before, steps[place]);
            place += 1;
        }
    }
    Ok(Atoms::of_vec(steps))
}

/// Whether all goals hold after those of the steps that apply, from the state `start` on. `state` becomes the state that
/// they lead to, and `taken` has them in place of what it had. No memory is taken where it has room for all steps.
fn reaches_goals(
    task: &Task,
    start: &State,
    steps: &[u32],
    state: &mut State,
    taken: &mut Vec<u32>,
) -> Result<bool, AllocError>
    requires numbers { All (λ a. a < length task.now.acts) steps.now }
    requires size { length start.now ≡ task.now.atoms }
    requires room { length state.old ≡ task.now.atoms }
    ensures met { IfOk result (λ met. met ≡ reaches task.now start.now steps.now) }
    ensures taken { OnOk result (taken.new.items ≡ applying task.now.acts start.now steps.now) }
    ensures room { length state.new ≡ task.now.atoms }
{
    state.copy_from(start);
    follow(task, steps, state, taken)?;
    let unmet = task.unmet_goals(state);
    Ok(unmet == 0)
}

/// Takes those of the steps that apply in the state that is then reached, in order.
fn follow(
    task: &Task,
    steps: &[u32],
    state: &mut State,
    taken: &mut Vec<u32>,
) -> Result<(), AllocError>
    requires numbers { All (λ a. a < length task.now.acts) steps.now }
    requires size { length state.old ≡ task.now.atoms }
    ensures size { length state.new ≡ length state.old }
    ensures taken { OnOk result (taken.new.items ≡ applying task.now.acts state.old steps.now) }
    ensures state { OnOk result (state.new ≡ state_after task.now.acts state.old taken.new.items) }
{
    taken.clear();
    for a in steps {
        if task.applies(state, *a) {
            task.advance(state, *a);
            taken.push(*a)?;
        }
    }
    Ok(())
}
