//! A law of the answers to `gen`.

ghost use Rattle.wp_app.specs.Generated.{MadeTasksAreNotRefused};

use wp_gen::depot_tasks_are_read;

/// Where the size is from 1 to 64, `gen` never answers that a text is refused: its statuses are those of the search, and those
/// of the causes against a task.
pub fn made_tasks_are_not_refused()
    ensures { MadeTasksAreNotRefused }
{
    depot_tasks_are_read();
}
