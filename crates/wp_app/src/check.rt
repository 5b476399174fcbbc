//! The answer to `check`: the domain and the problem are fetched and read, then the plan, and then it is judged.

ghost use Rattle.std.specs.Prelude.{◌≡◌, ◌≤◌, IfOk, IsTrue, IsUtf8};
ghost use Rattle.wp_app.specs.Headline.{IsReached};
ghost use Rattle.wp_app.specs.Table.{answer_to_check, steps_in};
ghost use Rattle.wp_app.specs.Statuses.{is_of_files};
ghost use Rattle.wp_app.specs.Stops.{Follows, IfUnread};
ghost use Rattle.wp_check.specs.PlanFile.{AreShort};
ghost use Rattle.wp_words.specs.declared.commands.Command.TheVariants.{Check};
ghost use Rattle.wp_syntax.specs.declared.error.Part.TheVariants.{Plan};

use crate::fetch::read_part;
use crate::inputs::read_texts;
use crate::readers::{judge, steps_of};
use crate::reply::Reply;
use crate::stop::Stop;
use std::alloc::Global;
use wp_check::Steps;
use wp_edge::{Shelf, Text};
use wp_syntax::Part;

/// The verdict on a plan in a domain and a problem, of the files of these names.
#[tactic(auto, unfolding(crate::specs::Table::answer_to_check))]
pub fn check<S: Shelf>(
    alloc: Global,
    shelf: &mut S,
    domain: &Text,
    problem: &Text,
    plan: &Text,
) -> Result<Reply, Stop>
    requires domain { IsUtf8 domain.now }
    requires problem { IsUtf8 problem.now }
    requires plan { IsUtf8 plan.now }
    ensures follows { Follows (S.contents shelf.old)
        (answer_to_check domain.now problem.now plan.now)
        (S.faults shelf.old) (S.faults shelf.new) result }
    ensures defined { IfOk result (λ reply. IsTrue (is_of_files reply.status)) }
    ensures unread { IfUnread result
        (IsReached (S.contents shelf.old) (Check domain.now problem.now plan.now)) }
    ensures same { S.contents shelf.new ≡ S.contents shelf.old }
    ensures later { S.faults shelf.old ≤ S.faults shelf.new }
{
    let texts = read_texts(alloc, shelf, domain, problem)?;
    let steps = read_steps(alloc, shelf, plan)?;
    judge(alloc, &texts, &steps)
}

/// The steps of the plan of that name.
fn read_steps<S: Shelf>(alloc: Global, shelf: &mut S, plan: &Text) -> Result<Steps, Stop>
    requires { IsUtf8 plan.now }
    ensures follows { Follows (S.contents shelf.old) (steps_in plan.now)
        (S.faults shelf.old) (S.faults shelf.new) result }
    ensures short { IfOk result AreShort }
    ensures unread { IfUnread result (λ part. part ≡ Plan) }
    ensures same { S.contents shelf.new ≡ S.contents shelf.old }
    ensures later { S.faults shelf.old ≤ S.faults shelf.new }
{
    let plan_text = read_part(alloc, shelf, Part::Plan, plan)?;
    steps_of(alloc, &plan_text)
}
