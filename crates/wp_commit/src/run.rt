//! What a run needs throughout.
ghost use Rattle.std.specs.Prelude.{◌≡◌, IfOk};
ghost use Rattle.wp_plain.specs.Ranges.{AreInRange};

use std::alloc::{AllocError, Global};
use std::marker::Model;
use wp_plain::Settings;
use wp_relax::Workspace;
use wp_succ::Tree;
use wp_task::Task;

/// What a run needs throughout, made once: memory, what it was asked for, and what is made of its task. Callers see the task, the
/// settings, which are in range, and the number of the tuples that are counted.
#[derive(Drop)]
pub(crate) struct Run<'a> {
    pub alloc: Global,
    pub task: &'a Task,
    pub settings: Settings,
    pub tuples: u64,
    pub succ: Tree,
    pub workspace: Workspace,
}

impl<'a> Model for Run<'a> {
    ghost use Rattle.std.specs.Prelude.{◌≡◌, IsTrue};
    ghost use Rattle.wp_succ.specs.Serving.{are_preconditions_of};
    ghost use Rattle.wp_relax.specs.Workspace.{room_for};
    ghost use Rattle.wp_plain.specs.Ranges.{AreInRange};
    ghost use Rattle.wp_plain.specs.Steps.{Asked};

    ghost Value = { Asked };

    ghost view = { λ r. record { task = r.task.now; settings = r.settings; tuples = r.tuples } };

    ghost invariant = { λ r. AreInRange r.settings × (r.workspace ≡ room_for r.task.now) × IsTrue (are_preconditions_of r.succ r.task.now) };
}

impl<'a> Run<'a> {
    pub(crate) fn of(
        alloc: Global,
        task: &'a Task,
        settings: Settings,
        tuples: u64,
    ) -> Result<Run<'a>, AllocError>
        requires { AreInRange settings }
        ensures { IfOk result (λ run. run ≡ record { task = task.now; settings = settings; tuples = tuples }) }
    {
        let succ = Tree::of(alloc, task)?;
        let workspace = Workspace::of(alloc, task)?;
        Ok(Run {
            alloc,
            task,
            settings,
            tuples,
            succ,
            workspace,
        })
    }
}
