//! The task of a lifted problem.

ghost use Rattle.std.specs.Prelude.{◌≡◌, ◌≤◌, ◌<◌, true, not, length, map, position, All, IfOk, IfSome};
ghost use Rattle.wp_lift.specs.Problem.{Instance};
ghost use Rattle.wp_lift.specs.Worlds.{among, unmet_goal};
ghost use Rattle.wp_ground.specs.Tasks.{steps_of, task_with, atom_at};
ghost use Rattle.wp_ground.specs.Texts.{atom_text, step_text};
ghost use Rattle.wp_ground.specs.Sweeps.{IsReached};
ghost use Rattle.wp_ground.specs.Refusals.{Gives, GivesBy};

use crate::acts::acts_of;
use crate::numbering::TaskAtoms;
use crate::steps::Steps;
use crate::table::AtomTable;
use crate::taking::reach;
use crate::texts::{atom_text, atom_texts, step_texts};
use std::alloc::{AllocError, Global};
use thiserror::Error;
use wp_edge::{Text, Texts};
use wp_lift::{GroundAtom, Lifted};
use wp_task::{State, Task};

const MOST_ACTS: u64 = 1048576;

/// A task with the names that its numbers stand for.
#[derive(Drop)]
pub struct Grounded {
    pub task: Task,
    /// Of each atom the text by which it is printed.
    pub atom_names: Texts,
    /// Of each action the step of a plan that it is.
    pub act_names: Texts,
}

/// Why a lifted problem has no task.
#[derive(Debug, Drop, Error)]
pub enum GroundError {
    /// More than 1,048,576 actions.
    #[error("too many ground actions")]
    TooManyActs,

    /// More than 65,536 atoms.
    #[error("too many ground atoms")]
    TooManyAtoms,

    /// The goal atom at this place is not reached even without deletes: no plan exists.
    #[error("goal {goal} is out of reach")]
    GoalOutOfReach { goal: u32, atom: Text },

    /// Want of memory; it says nothing of the problem.
    #[error("out of memory")]
    Memory,
}

impl From<AllocError> for GroundError {
    ghost use Rattle.wp_ground.specs.declared.grounding.GroundError.TheVariants.{Memory};

    ghost from_gives = { λ _ e. e ≡ Memory };

    fn from(_error: AllocError) -> GroundError {
        GroundError::Memory
    }
}

/// The task over the atoms that are reached when nothing is deleted: an atom whose predicate no effect names never
/// changes, and is no atom of the task. Where it has too many actions, too many atoms or a goal atom that is not reached,
/// the first of these in this order is the error.
pub fn ground(alloc: Global, lifted: &Lifted) -> Result<Grounded, GroundError>
    ensures { Gives result lifted.now }
{
    let Some(found) = reach(alloc, lifted, MOST_ACTS)? else {
        return Err(GroundError::TooManyActs);
    };
    ground_over(alloc, lifted, &found.atoms, &found.steps)
}

/// The same over the reached atoms and the instances whose conditions are reached.
fn ground_over(
    alloc: Global,
    lifted: &Lifted,
    reached: &AtomTable,
    steps: &Steps,
) -> Result<Grounded, GroundError>
    requires reached { IsReached lifted.now 1048576 reached.now }
    requires steps { steps.now ≡ steps_of lifted.now (among reached.now) }
    ensures { GivesBy result lifted.now (among reached.now) }
{
    let Some(atoms) = TaskAtoms::of_reached(alloc, lifted, reached)? else {
        return Err(GroundError::TooManyAtoms);
    };
    match unmet_goal(lifted, reached) {
        Some(goal) => Err(out_of_reach(alloc, lifted, goal)?),
        None => Ok(named_task(alloc, lifted, &atoms, steps)?),
    }
}

/// The place of the first goal atom, in text order, that is not reached. None exactly where all are reached.
fn unmet_goal(lifted: &Lifted, reached: &AtomTable) -> Option<u32>
    ensures value { result ≡ unmet_goal lifted.now (among reached.now) }
    ensures in_range { IfSome result (λ place. place < length lifted.now.goals) }
{
    match first_missing(reached, lifted.goals().as_slice()) {
        Some(place) => Some(place as u32),
        None => None,
    }
}

fn first_missing(reached: &AtomTable, atoms: &[GroundAtom]) -> Option<usize>
    ensures { result ≡ position (λ atom. not (among reached.now atom)) atoms.now }
{
    atoms.iter().position(|atom| !is_reached(reached, atom))
}

fn is_reached(reached: &AtomTable, atom: &GroundAtom) -> bool
    ensures { result ≡ among reached.now atom.now }
{
    reached.find(atom.pred, atom.args.as_slice()).is_some()
}

fn out_of_reach(alloc: Global, lifted: &Lifted, goal: u32) -> Result<GroundError, AllocError>
    requires { goal < length lifted.now.goals }
    ensures { IfOk result (λ error. error ≡ GroundError.GoalOutOfReach goal (atom_text lifted.now (atom_at lifted.now.goals goal))) }
{
    let atom = atom_text(alloc, lifted, &lifted.goals().as_slice()[goal as usize])?;
    Ok(GroundError::GoalOutOfReach { goal, atom })
}

fn named_task(
    alloc: Global,
    lifted: &Lifted,
    atoms: &TaskAtoms,
    steps: &Steps,
) -> Result<Grounded, AllocError>
    requires few { length steps.now ≤ 1048576 }
    requires there { All (λ (step : Instance). step.schema < length lifted.now.schemas) steps.now }
    ensures { IfOk result (λ grounded. grounded ≡ record {
      task = task_with lifted.now atoms.now steps.now;
      atom_names = map (atom_text lifted.now) atoms.now;
      act_names = map (step_text lifted.now) steps.now;
    }) }
{
    let task = task_of(alloc, lifted, atoms, steps)?;
    let atom_names = atom_texts(alloc, lifted, atoms)?;
    let act_names = step_texts(alloc, lifted, steps)?;
    Ok(Grounded {
        task,
        atom_names,
        act_names,
    })
}

fn task_of(
    alloc: Global,
    lifted: &Lifted,
    atoms: &TaskAtoms,
    steps: &Steps,
) -> Result<Task, AllocError>
    requires few { length steps.now ≤ 1048576 }
    requires there { All (λ (step : Instance). step.schema < length lifted.now.schemas) steps.now }
    ensures { IfOk result (λ task. task ≡ task_with lifted.now atoms.now steps.now) }
{
    let count = atoms.len() as u32;
    let init = opening_state(alloc, lifted, atoms)?;
    let goals = atoms.numbers(alloc, lifted.goals().as_slice())?;
    let acts = acts_of(alloc, lifted, atoms, steps)?;
    let task = Task::new(alloc, count, init, goals, acts)?;
    Ok(task)
}

/// The state of the stated atoms.
fn opening_state(alloc: Global, lifted: &Lifted, atoms: &TaskAtoms) -> Result<State, AllocError>
    ensures { IfOk result (λ state. state ≡ map (among lifted.now.opening) atoms.now) }
{
    let count = atoms.len() as u32;
    let numbers = atoms.numbers(alloc, lifted.opening().as_slice())?;
    let state = State::of(alloc, &numbers, count)?;
    Ok(state)
}
