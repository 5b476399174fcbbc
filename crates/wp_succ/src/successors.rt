//! What a successor generator promises.
ghost use Rattle.std.specs.Prelude.{◌≡◌, ◌<◌, Bool, length, IsTrue, IfOk, All};
ghost use Rattle.wp_task.specs.Task.{PlanningTask, applicable_in};

use std::alloc::{AllocError, Global};
use wp_task::{Atoms, State, Task};

/// A successor generator. It is made of a task, and serves that one and perhaps others.
pub trait Successors: Sync {
    ghost serves: { Self → PlanningTask → Bool };

    /// The actions of the task that apply in the state, in number order.
    fn list(&self, alloc: Global, task: &Task, s: &State) -> Result<Atoms, AllocError>
        requires serves { IsTrue (serves self.now task.now) }
        requires size { length s.now ≡ task.now.atoms }
        ensures value { IfOk result (λ acts. acts ≡ applicable_in task.now.acts s.now) }
        ensures numbers { IfOk result (λ acts. All (λ a. a < length task.now.acts) acts) };
}
