//! What a run needs throughout.
ghost use Rattle.std.specs.Prelude.{◌≡◌};
ghost use Rattle.wp_task.specs.Task.{IsTask};
ghost use Rattle.wp_plain.specs.Ranges.{AreInRange};

use crate::settings::Settings;
use std::alloc::Global;
use std::marker::Model;
use wp_task::Task;

/// What a run needs throughout, made once: callers see the task, the settings, which are in range, and the number of the
/// tuples that are counted.
#[derive(Drop)]
pub struct Run<'a> {
    alloc: Global,
    task: &'a Task,
    settings: Settings,
    tuples: u64,
}

impl<'a> Model for Run<'a> {
    ghost use Rattle.std.specs.Prelude.{◌≡◌};
    ghost use Rattle.wp_task.specs.Task.{IsTask};
    ghost use Rattle.wp_plain.specs.Ranges.{AreInRange};
    ghost use Rattle.wp_plain.specs.Steps.{Asked};

    ghost Value = { Asked };

    ghost view = { λ r. record { task = r.task.now; settings = r.settings; tuples = r.tuples } };

    ghost invariant = { λ r. AreInRange r.settings × IsTask r.task.now };
}

impl<'a> Run<'a> {
    pub fn of(alloc: Global, task: &'a Task, settings: Settings, tuples: u64) -> Run<'a>
        requires range { AreInRange settings }
        requires fits { IsTask task.now }
        ensures { result ≡ record { task = task.now; settings = settings; tuples = tuples } }
    {
        Run {
            alloc,
            task,
            settings,
            tuples,
        }
    }

    pub fn alloc(&self) -> Global {
        self.alloc
    }

    pub fn task(&self) -> &'a Task
        ensures { result.now ≡ self.now.task }
    {
        self.task
    }

    /// The settings; they are in their ranges, as the task is.
    pub fn settings(&self) -> &Settings
        ensures value { result.now ≡ self.now.settings }
        ensures range { AreInRange self.now.settings }
        ensures fits { IsTask self.now.task }
    {
        &self.settings
    }

    pub fn tuples(&self) -> u64
        ensures { result ≡ self.now.tuples }
    {
        self.tuples
    }
}
