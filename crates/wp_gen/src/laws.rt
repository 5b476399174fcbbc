//! What holds of the texts of each number and size.

ghost use Rattle.wp_gen.specs.Laws.{DepotTasksAreRead};

use wp_lex::written_lists_are_read;

/// The domain and the problem of a size from 1 to 64, whatever the number, are read without a fault, and so are their names.
pub fn depot_tasks_are_read()
    ensures { DepotTasksAreRead }
{
    written_lists_are_read();
}
