//! The answer to `ground`: the domain and the problem are fetched and read, and the numbered task is printed.

ghost use Rattle.std.specs.Prelude.{◌≡◌, ◌≢◌, ◌≤◌, IfOk, IsTrue, IsUtf8};
ghost use Rattle.wp_app.specs.Headline.{IsReached};
ghost use Rattle.wp_app.specs.Output.{ground_error_status, ground_reply, grounded_step, lifted_step};
ghost use Rattle.wp_app.specs.Statuses.{is_of_files};
ghost use Rattle.wp_app.specs.Steps.{goes, ◌>>=◌ as ◌and_then◌};
ghost use Rattle.wp_app.specs.Stops.{Follows, IfUnread, Meets};
ghost use Rattle.wp_app.specs.Table.{answer_to_ground};
ghost use Rattle.wp_words.specs.declared.commands.Command.TheVariants.{Ground};
ghost use Rattle.wp_report.specs.Tasks.{IsNamed};

use crate::inputs::{Texts, read_texts};
use crate::readers::lifted_of;
use crate::reply::{Reply, Status};
use crate::stop::{Stop, ended};
use std::alloc::{AllocError, Global};
use wp_edge::{Shelf, Text};
use wp_ground::{GroundError, Grounded, ground};
use wp_lift::Lifted;
use wp_report::{ground_error_text, ground_text};

/// The task of a domain and a problem, of the files of these names.
#[tactic(auto, unfolding(crate::specs::Table::answer_to_ground))]
pub fn ground_files<S: Shelf>(
    alloc: Global,
    shelf: &mut S,
    domain: &Text,
    problem: &Text,
) -> Result<Reply, Stop>
    requires domain { IsUtf8 domain.now }
    requires problem { IsUtf8 problem.now }
    ensures follows { Follows (S.contents shelf.old) (answer_to_ground domain.now problem.now)
        (S.faults shelf.old) (S.faults shelf.new) result }
    ensures defined { IfOk result (λ reply. IsTrue (is_of_files reply.status)) }
    ensures unread { IfUnread result
        (IsReached (S.contents shelf.old) (Ground domain.now problem.now)) }
    ensures same { S.contents shelf.new ≡ S.contents shelf.old }
    ensures later { S.faults shelf.old ≤ S.faults shelf.new }
{
    let texts = read_texts(alloc, shelf, domain, problem)?;
    numbered(alloc, &texts)
}

/// The answer to a domain and a problem that have no fault of their own.
fn numbered(alloc: Global, texts: &Texts) -> Result<Reply, Stop>
    ensures meets { Meets (lifted_step texts.now.domain texts.now.problem
        and_then λ lifted. grounded_step lifted and_then λ grounded. goes (ground_reply grounded)) result }
    ensures defined { IfOk result (λ reply. IsTrue (is_of_files reply.status)) }
{
    let lifted = lifted_of(alloc, texts)?;
    let grounded = grounded_of(alloc, &lifted)?;
    Ok(reply_with(alloc, &grounded)?)
}

/// The task of a lifted problem, or why there is none.
#[tactic(auto, unfolding(crate::specs::Output::grounded_step))]
pub fn grounded_of(alloc: Global, lifted: &Lifted) -> Result<Grounded, Stop>
    ensures meets { Meets (grounded_step lifted.now) result }
    ensures named { IfOk result IsNamed }
{
    match ground(alloc, lifted) {
        Ok(grounded) => Ok(grounded),
        Err(GroundError::Memory) => Err(Stop::Memory),
        Err(error) => ended(status_of(&error), ground_error_text(alloc, &error)?),
    }
}

fn status_of(error: &GroundError) -> Status
    requires { error.now ≢ GroundError.Memory }
    ensures value { result ≡ ground_error_status error.now }
    ensures defined { IsTrue (is_of_files result) }
{
    match error {
        GroundError::TooManyActs | GroundError::TooManyAtoms => Status::Limit,
        GroundError::GoalOutOfReach { goal: _, atom: _ } => Status::OutOfReach,
        GroundError::Memory => unreachable!(),
    }
}

#[tactic(auto, unfolding(crate::specs::Output::ground_reply))]
fn reply_with(alloc: Global, grounded: &Grounded) -> Result<Reply, AllocError>
    requires { IsNamed grounded.now }
    ensures reply { IfOk result (λ reply. reply ≡ ground_reply grounded.now) }
    ensures defined { IfOk result (λ reply. IsTrue (is_of_files reply.status)) }
{
    Ok(Reply {
        text: ground_text(alloc, grounded)?,
        status: Status::Done,
    })
}
