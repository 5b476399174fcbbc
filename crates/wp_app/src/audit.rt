//! The answer to `audit`: the domain and the problem are fetched and read, then the certificate, and then its states are asked.

ghost use Rattle.std.specs.Prelude.{◌≡◌, ◌≤◌, IfOk, IsTrue, IsUtf8};
ghost use Rattle.wp_app.specs.Headline.{IsReached};
ghost use Rattle.wp_app.specs.Output.{audit_status, audited_reply, grounded_step, lifted_step};
ghost use Rattle.wp_app.specs.Statuses.{is_of_files};
ghost use Rattle.wp_app.specs.Steps.{goes, ◌>>=◌ as ◌and_then◌};
ghost use Rattle.wp_app.specs.Stops.{Follows, IfUnread, Meets};
ghost use Rattle.wp_app.specs.Table.{answer_to_audit, cert_in};
ghost use Rattle.wp_report.specs.Tasks.{IsNamed};
ghost use Rattle.wp_words.specs.declared.commands.Command.TheVariants.{Audit};
ghost use Rattle.wp_syntax.specs.declared.error.Part.TheVariants.{Certificate};

use crate::fetch::read_part;
use crate::ground::grounded_of;
use crate::inputs::{Texts, read_texts};
use crate::readers::{cert_of, lifted_of};
use crate::reply::{Reply, Status};
use crate::stop::Stop;
use std::alloc::{AllocError, Global};
use wp_cert::{Audit as Audited, Cert, audit, audit_text};
use wp_edge::{Shelf, Text};
use wp_ground::Grounded;
use wp_syntax::Part;

/// Whether the states of a certificate are closed in the task of a domain and a problem, of the files of these names.
#[tactic(auto, unfolding(crate::specs::Table::answer_to_audit))]
pub fn audit_files<S: Shelf>(
    alloc: Global,
    shelf: &mut S,
    domain: &Text,
    problem: &Text,
    certificate: &Text,
) -> Result<Reply, Stop>
    requires domain { IsUtf8 domain.now }
    requires problem { IsUtf8 problem.now }
    requires certificate { IsUtf8 certificate.now }
    ensures follows { Follows (S.contents shelf.old)
        (answer_to_audit domain.now problem.now certificate.now)
        (S.faults shelf.old) (S.faults shelf.new) result }
    ensures defined { IfOk result (λ reply. IsTrue (is_of_files reply.status)) }
    ensures unread { IfUnread result
        (IsReached (S.contents shelf.old) (Audit domain.now problem.now certificate.now)) }
    ensures same { S.contents shelf.new ≡ S.contents shelf.old }
    ensures later { S.faults shelf.old ≤ S.faults shelf.new }
{
    let texts = read_texts(alloc, shelf, domain, problem)?;
    let cert = read_certificate(alloc, shelf, certificate)?;
    audited(alloc, &texts, &cert)
}

/// The certificate of that name.
fn read_certificate<S: Shelf>(
    alloc: Global,
    shelf: &mut S,
    certificate: &Text,
) -> Result<Cert, Stop>
    requires { IsUtf8 certificate.now }
    ensures follows { Follows (S.contents shelf.old) (cert_in certificate.now)
        (S.faults shelf.old) (S.faults shelf.new) result }
    ensures unread { IfUnread result (λ part. part ≡ Certificate) }
    ensures same { S.contents shelf.new ≡ S.contents shelf.old }
    ensures later { S.faults shelf.old ≤ S.faults shelf.new }
{
    let cert_text = read_part(alloc, shelf, Part::Certificate, certificate)?;
    cert_of(alloc, &cert_text)
}

/// The answer to a certificate whose texts have no fault of their own.
fn audited(alloc: Global, texts: &Texts, cert: &Cert) -> Result<Reply, Stop>
    ensures meets { Meets (lifted_step texts.now.domain texts.now.problem
        and_then λ lifted. grounded_step lifted and_then λ grounded. goes (audited_reply grounded cert.now)) result }
    ensures defined { IfOk result (λ reply. IsTrue (is_of_files reply.status)) }
{
    let lifted = lifted_of(alloc, texts)?;
    let grounded = grounded_of(alloc, &lifted)?;
    Ok(reply_on(alloc, &grounded, cert)?)
}

#[tactic(auto, unfolding(crate::specs::Output::audited_reply))]
fn reply_on(alloc: Global, grounded: &Grounded, cert: &Cert) -> Result<Reply, AllocError>
    requires { IsNamed grounded.now }
    ensures reply { IfOk result (λ reply. reply ≡ audited_reply grounded.now cert.now) }
    ensures defined { IfOk result (λ reply. IsTrue (is_of_files reply.status)) }
{
    let found = audit(alloc, &grounded.task, cert)?;
    Ok(Reply {
        text: audit_text(alloc, &grounded.act_names, cert, &found)?,
        status: status_of(&found),
    })
}

fn status_of(found: &Audited) -> Status
    ensures value { result ≡ audit_status found.now }
    ensures defined { IsTrue (is_of_files result) }
{
    match found {
        Audited::Yes => Status::Done,
        Audited::Foreign { .. } | Audited::NoStart | Audited::Goal { .. } | Audited::Open { .. } =>
            { Status::InvalidCert }
    }
}
