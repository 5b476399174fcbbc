//! The file of a part, read up to the limit of the part.

ghost use Rattle.std.specs.Prelude.{◌≡◌, ◌≤◌, IsUtf8};
ghost use Rattle.wp_app.specs.Output.{part_of, limit_of, answered};
ghost use Rattle.wp_app.specs.declared.reply.Status.TheVariants.{Limit};
ghost use Rattle.wp_app.specs.Stops.{Follows, Meets, IfUnread};
ghost use Rattle.wp_report.specs.Inputs.{too_long_text};

use crate::reply::Status;
use crate::stop::{Stop, ended};
use std::alloc::Global;
use std::str;
use wp_edge::{FetchError, Shelf, Text};
use wp_report::too_long_text;
use wp_syntax::Part;

/// The bytes of the file of that name.
#[tactic(auto, unfolding(crate::specs::Output::part_of))]
pub fn read_part<S: Shelf>(
    alloc: Global,
    shelf: &mut S,
    part: Part,
    name: &Text,
) -> Result<Text, Stop>
    requires { IsUtf8 name.now }
    ensures follows { Follows (S.contents shelf.old) (part_of part name.now)
        (S.faults shelf.old) (S.faults shelf.new) result }
    ensures unread { IfUnread result (λ unread. unread ≡ part) }
    ensures same { S.contents shelf.new ≡ S.contents shelf.old }
    ensures later { S.faults shelf.old ≤ S.faults shelf.new }
{
    let Ok(path) = str::from_utf8(name.as_slice()) else {
        unreachable!();
    };
    match shelf.fetch(alloc, path, limit(part)) {
        Ok(bytes) => Ok(Text::of_vec(bytes)),
        Err(FetchError::Failed) => Err(Stop::ReadFault { part }),
        Err(FetchError::TooLong { .. }) => too_long(alloc, part),
        Err(FetchError::Memory) => Err(Stop::Memory),
    }
}

/// The answer to a file that is longer than its limit.
fn too_long(alloc: Global, part: Part) -> Result<Text, Stop>
    ensures { Meets (answered Limit (too_long_text part (limit_of part))) result }
{
    ended(Status::Limit, too_long_text(alloc, part, limit(part))?)
}

/// The most bytes that the file of a part may have.
fn limit(part: Part) -> u64
    ensures { result ≡ limit_of part }
{
    match part {
        Part::Domain => 4_194_304,
        Part::Problem | Part::Plan => 16_777_216,
        Part::Certificate => 268_435_456,
    }
}
