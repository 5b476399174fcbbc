//! The certificate behind the answer that there is no plan.

ghost use Rattle.std.specs.Prelude.{◌≡◌, ◌≤◌, ◌++◌, IfOk};
ghost use Rattle.wp_app.specs.Output.{cert_text, certified, closed_text, is_no_plan, most_listed};
ghost use Rattle.wp_cert.specs.Closing.{closed_cert};

use crate::reply::{Reply, Status};
use std::alloc::{AllocError, Global};
use wp_cert::{Cert, CloseError, cert_text, close};
use wp_edge::Text;
use wp_task::Task;

/// The most states that a certificate lists.
const MOST_STATES: u64 = 100_000_000;

/// A reply that there is no plan with the certificate of the reachable states behind it, where that is asked for; any other
/// stays. A search of the task has kept so many states.
pub fn certified(
    alloc: Global,
    reply: Reply,
    closed: bool,
    task: &Task,
    kept: u64,
) -> Result<Reply, AllocError>
    ensures { IfOk result (λ more. more ≡ certified closed (closed_text task.now kept) reply) }
{
    if is_no_plan(reply.status) && closed {
        let lines = closed_text(alloc, task, kept)?;
        with_lines(reply, &lines)
    } else {
        Ok(reply)
    }
}

fn is_no_plan(status: Status) -> bool
    ensures { result ≡ is_no_plan status }
{
    matches!(status, Status::NoPlan)
}

/// The reply with lines behind its own.
fn with_lines(reply: Reply, lines: &Text) -> Result<Reply, AllocError>
    ensures { IfOk result (λ more. more ≡ (record reply { text = reply.text ++ lines.now })) }
{
    let Reply { text, status } = reply;
    let mut text = text.into_vec();
    text.extend_from_slice(lines.as_slice())?;
    Ok(Reply {
        text: Text::of_vec(text),
        status,
    })
}

/// The lines of that certificate.
#[tactic(auto, unfolding(crate::specs::Output::closed_text))]
fn closed_text(alloc: Global, task: &Task, kept: u64) -> Result<Text, AllocError>
    ensures { IfOk result (λ text. text ≡ closed_text task.now kept) }
{
    let cert = reachable(alloc, task, most_listed(kept))?;
    optional_text(alloc, &cert)
}

fn most_listed(kept: u64) -> u64
    ensures value { result ≡ most_listed kept }
    ensures few { result ≤ 100000000 }
{
    if kept > MOST_STATES {
        MOST_STATES
    } else {
        kept
    }
}

/// The reachable states, unless they are more than the limit.
fn reachable(alloc: Global, task: &Task, limit: u64) -> Result<Option<Cert>, AllocError>
    requires { limit ≤ 100000000 }
    ensures { IfOk result (λ cert. cert ≡ closed_cert task.now limit) }
{
    match close(alloc, task, limit) {
        Ok(cert) => Ok(Some(cert)),
        Err(CloseError::Limit) => Ok(None),
        Err(CloseError::Memory) => Err(AllocError),
    }
}

/// The text of a certificate, where there is one.
fn optional_text(alloc: Global, cert: &Option<Cert>) -> Result<Text, AllocError>
    ensures { IfOk result (λ text. text ≡ cert_text cert.now) }
{
    match cert {
        Some(cert) => cert_text(alloc, cert),
        None => Ok(Text::of_vec(Vec::new(alloc))),
    }
}
