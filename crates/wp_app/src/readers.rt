//! The readers of the texts as steps of a run: a fault of a text is an answer.

ghost use Rattle.std.specs.Prelude.{◌≡◌, IfOk, IsTrue};
ghost use Rattle.wp_app.specs.Output.{cert_step, domain_in, domain_step, items_step, lifted_step, plan_step, problem_in, problem_step, refused, verdict_reply, verdict_status};
ghost use Rattle.wp_app.specs.Statuses.{is_of_files};
ghost use Rattle.wp_app.specs.Steps.{goes, ◌>>=◌ as ◌and_then◌};
ghost use Rattle.wp_app.specs.Stops.{Meets};
ghost use Rattle.wp_check.specs.PlanFile.{AreShort};

use crate::inputs::Texts;
use crate::reply::{Reply, Status};
use crate::stop::{Stop, ended};
use std::alloc::{AllocError, Global};
use wp_cert::{Cert, CertError, cert_error_text, read_cert};
use wp_check::{PlanError, Steps, Verdict, read_plan, verdict};
use wp_edge::Text;
use wp_lex::{LexError, Tree, read_tree};
use wp_lift::{Lifted, lift};
use wp_report::{lex_text, pddl_text, plan_error_text, verdict_text};
use wp_syntax::{Domain, Part, PddlError, Problem, read_domain, read_problem};

/// The domain of a text, or the refusal of it.
#[tactic(auto, unfolding(crate::specs::Output::domain_step))]
pub fn domain_of(alloc: Global, text: &Text) -> Result<Domain, Stop>
    ensures { Meets (domain_step text.now) result }
{
    let tree = tree_of(alloc, Part::Domain, text)?;
    domain_in(alloc, &tree)
}

#[tactic(auto, unfolding(crate::specs::Output::domain_in))]
fn domain_in(alloc: Global, tree: &Tree) -> Result<Domain, Stop>
    ensures { Meets (domain_in tree.now) result }
{
    match read_domain(alloc, tree) {
        Ok(domain) => Ok(domain),
        Err(PddlError::Memory) => Err(Stop::Memory),
        Err(error) => refuse(pddl_text(alloc, &error)?),
    }
}

/// The problem of a text, or the refusal of it.
#[tactic(auto, unfolding(crate::specs::Output::problem_step))]
pub fn problem_of(alloc: Global, text: &Text) -> Result<Problem, Stop>
    ensures { Meets (problem_step text.now) result }
{
    let tree = tree_of(alloc, Part::Problem, text)?;
    problem_in(alloc, &tree)
}

#[tactic(auto, unfolding(crate::specs::Output::problem_in))]
fn problem_in(alloc: Global, tree: &Tree) -> Result<Problem, Stop>
    ensures { Meets (problem_in tree.now) result }
{
    match read_problem(alloc, tree) {
        Ok(problem) => Ok(problem),
        Err(PddlError::Memory) => Err(Stop::Memory),
        Err(error) => refuse(pddl_text(alloc, &error)?),
    }
}

// The list of a text, or the refusal of it.
#[tactic(auto, unfolding(crate::specs::Output::items_step))]
fn tree_of(alloc: Global, part: Part, text: &Text) -> Result<Tree, Stop>
    ensures { Meets (items_step part text.now) result }
{
    match read_tree(alloc, text.as_slice()) {
        Ok(tree) => Ok(tree),
        Err(LexError::Memory) => Err(Stop::Memory),
        Err(error) => refuse(lex_text(alloc, part, &error)?),
    }
}

/// The steps of a plan file, or the refusal of it.
#[tactic(auto, unfolding(crate::specs::Output::plan_step))]
pub fn steps_of(alloc: Global, text: &Text) -> Result<Steps, Stop>
    ensures meets { Meets (plan_step text.now) result }
    ensures short { IfOk result AreShort }
{
    match read_plan(alloc, text.as_slice()) {
        Ok(steps) => Ok(steps),
        Err(PlanError::Memory) => Err(Stop::Memory),
        Err(error) => refuse(plan_error_text(alloc, &error)?),
    }
}

/// The certificate of a text, or the refusal of it.
#[tactic(auto, unfolding(crate::specs::Output::cert_step))]
pub fn cert_of(alloc: Global, text: &Text) -> Result<Cert, Stop>
    ensures { Meets (cert_step text.now) result }
{
    match read_cert(alloc, text.as_slice()) {
        Ok(cert) => Ok(cert),
        Err(CertError::Memory) => Err(Stop::Memory),
        Err(error) => refuse(cert_error_text(alloc, &error)?),
    }
}

/// The answer to a text that has a fault, by the line of it.
fn refuse<T>(line: Text) -> Result<T, Stop>
    ensures { Meets (refused line) result }
{
    ended(Status::Refused, line)
}

/// The answer to a plan whose texts have no fault of their own.
pub fn judge(alloc: Global, texts: &Texts, steps: &Steps) -> Result<Reply, Stop>
    requires { AreShort steps.now }
    ensures meets { Meets (lifted_step texts.now.domain texts.now.problem
        and_then λ lifted. goes (verdict_reply lifted steps.now)) result }
    ensures defined { IfOk result (λ reply. IsTrue (is_of_files reply.status)) }
{
    let lifted = lifted_of(alloc, texts)?;
    Ok(reply_on(alloc, &lifted, steps)?)
}

// The lifted problem, or the refusal of the text in which a name means nothing.
#[tactic(auto, unfolding(crate::specs::Output::lifted_step))]
pub fn lifted_of(alloc: Global, texts: &Texts) -> Result<Lifted, Stop>
    ensures { Meets (lifted_step texts.now.domain texts.now.problem) result }
{
    match lift(alloc, &texts.domain, &texts.problem) {
        Ok(lifted) => Ok(lifted),
        Err(PddlError::Memory) => Err(Stop::Memory),
        Err(error) => refuse(pddl_text(alloc, &error)?),
    }
}

#[tactic(auto, unfolding(crate::specs::Output::verdict_reply))]
fn reply_on(alloc: Global, lifted: &Lifted, steps: &Steps) -> Result<Reply, AllocError>
    requires { AreShort steps.now }
    ensures reply { IfOk result (λ reply. reply ≡ verdict_reply lifted.now steps.now) }
    ensures defined { IfOk result (λ reply. IsTrue (is_of_files reply.status)) }
{
    let verdict = verdict(alloc, lifted, steps)?;
    Ok(Reply {
        text: verdict_text(alloc, lifted, steps, &verdict)?,
        status: status_of(&verdict),
    })
}

fn status_of(verdict: &Verdict) -> Status
    ensures { result ≡ verdict_status verdict.now }
{
    match verdict {
        Verdict::Valid => Status::Done,
        Verdict::Bad { .. } | Verdict::GoalUnmet { .. } => Status::InvalidPlan,
    }
}
