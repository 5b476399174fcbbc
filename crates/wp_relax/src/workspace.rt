//! What relaxed plans are made in.
ghost use Rattle.std.specs.Prelude.{◌≡◌, ◌<◌, length, IfOk, All};
ghost use Rattle.wp_relax.specs.RelaxedPlan.{relaxed_atoms_of};
ghost use Rattle.wp_relax.specs.Workspace.{room_for};

use crate::frontier::Frontier;
use crate::pending::Pending;
use crate::plans::{in_reach, numbers_of};
use crate::settle::settle;
use crate::wanted::{add_all, no_flags, want_all};
use std::alloc::{AllocError, Global};
use std::marker::Model;
use wp_task::{Atoms, State, Task, Track};

/// Room for the relaxed plans of a task, made once and used for one after another. Nothing of one plan is left for the
/// next, so callers see only how much room there is.
#[derive(Drop)]
pub struct Workspace {
    frontier: Frontier,
    pending: Pending,
    wanted: Vec<bool>,
    todo: Vec<u32>,
    added: Vec<bool>,
}

impl Model for Workspace {
    ghost use Rattle.std.specs.Prelude.{length};
    ghost use Rattle.wp_relax.specs.Workspace.{Room, AreOfOneSize};

    ghost Value = { Room };

    ghost view = { λ w. record { atoms = length w.frontier.costs; acts = length w.pending.left.items } };

    ghost invariant = { λ w. AreOfOneSize w.frontier.costs w.pending.left.items w.pending.prices.items w.wanted.items w.added.items };
}

impl Workspace {
    /// Room for the relaxed plans of the task.
    pub fn of(alloc: Global, task: &Task) -> Result<Workspace, AllocError>
        ensures { IfOk result (λ work. work ≡ room_for task.now) }
    {
        let frontier = Frontier::of(alloc, task.atoms())?;
        let pending = Pending::of(alloc, task.act_count())?;
        let wanted = no_flags(alloc, task.atoms())?;
        let added = no_flags(alloc, task.atoms())?;
        Ok(Workspace {
            frontier,
            pending,
            wanted,
            todo: Vec::new(alloc),
            added,
        })
    }

    /// The atoms that the relaxed plan at a state adds and that are not in the state; none where there is no plan.
    pub(crate) fn relaxed_atoms(
        &mut self,
        alloc: Global,
        task: &Task,
        s: &State,
    ) -> Result<Track, AllocError>
        requires serves { self.old ≡ room_for task.now }
        requires size { length s.now ≡ task.now.atoms }
        ensures value { IfOk result (λ track. track ≡ relaxed_atoms_of task.now.acts task.now.goals s.now) }
        ensures below { IfOk result (λ track. All (λ p. p < task.now.atoms) track) }
        ensures room { self.new ≡ self.old }
    {
        settle(&mut self.frontier, &mut self.pending, task, s)?;
        if !in_reach(task.goals(), self.frontier.costs()) {
            return Ok(Track::of(Atoms::of_vec(Vec::new(alloc))));
        }
        let supporters = self.frontier.supporters();
        want_all(&mut self.wanted, &mut self.todo, task, s, supporters)?;
        add_all(&mut self.added, task, s, supporters, &self.wanted);
        let atoms = numbers_of(alloc, &self.added, s.size())?;
        Ok(Track::of(atoms))
    }
}
