//! The generator that tries every action.
ghost use Rattle.std.specs.Prelude.{◌≡◌, ◌++◌, ◌∷◌, [], true, OnOk, if◌then◌else◌, IsTrue};

use crate::successors::Successors;
use std::alloc::{AllocError, Global};
use wp_task::{Atoms, State, Task};

/// Tries the actions one after another. It keeps nothing of the task that it was made of, and serves every task.
#[derive(Drop)]
pub struct Plain;

impl Plain {
    pub fn of(task: &Task) -> Plain
        ensures { IsTrue (⟦<Plain as Successors>⟧.serves result task.now) }
    {
        let _ = task;
        Plain
    }
}

impl Successors for Plain {
    ghost serves = { λ _ _. true };

    fn list(&self, alloc: Global, task: &Task, s: &State) -> Result<Atoms, AllocError> {
        let mut found = Vec::new(alloc);
        for a in 0..task.act_count() {
            push_if(&mut found, a, task.applies(s, a))?;
        }
        Ok(Atoms::of_vec(found))
    }
}

fn push_if(numbers: &mut Vec<u32>, number: u32, wanted: bool) -> Result<(), AllocError>
    ensures { OnOk result (numbers.new.items ≡ numbers.old.items ++ (if wanted then number ∷ [] else [])) }
{
    if wanted {
        numbers.push(number)?;
    }
    Ok(())
}
