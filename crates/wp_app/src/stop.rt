//! What ends a run before its last step.

ghost use Rattle.std.specs.Prelude.{◌≡◌, IsTrue};
ghost use Rattle.wp_app.specs.Output.{answered};
ghost use Rattle.wp_app.specs.Statuses.{is_of_files};
ghost use Rattle.wp_app.specs.Stops.{Meets};
ghost use Rattle.wp_app.specs.declared.stop.Stop.TheVariants.{Memory};

use crate::reply::{Reply, Status};
use std::alloc::AllocError;
use wp_edge::Text;
use wp_syntax::Part;

/// A step of the run does not go on.
#[derive(Drop)]
pub enum Stop {
    /// This is the answer.
    Ends { reply: Reply },
    /// The file of that part could not be read.
    ReadFault { part: Part },
    Memory,
}

impl From<AllocError> for Stop {
    ghost from_gives = { λ _ stop. stop ≡ Memory };

    fn from(_error: AllocError) -> Stop {
        Stop::Memory
    }
}

/// Ends the run with an answer.
pub fn ended<T>(status: Status, text: Text) -> Result<T, Stop>
    requires { IsTrue (is_of_files status) }
    ensures { Meets (answered status text) result }
{
    Err(Stop::Ends {
        reply: Reply { text, status },
    })
}
