//! The domain and the problem of a command.

ghost use Rattle.std.specs.Prelude.{◌≡◌, ◌≤◌, IsUtf8};
ghost use Rattle.wp_app.specs.Headline.{IsInputReached};
ghost use Rattle.wp_app.specs.Stops.{Follows, IfUnread};
ghost use Rattle.wp_app.specs.Table.{texts_step};

use crate::fetch::read_part;
use crate::readers::{domain_of, problem_of};
use crate::stop::Stop;
use std::alloc::Global;
use wp_edge::{Shelf, Text};
use wp_syntax::{Domain, Part, Problem};

/// A domain and a problem.
#[derive(Drop)]
pub struct Texts {
    pub domain: Domain,
    pub problem: Problem,
}

/// The domain and the problem of these names. The domain is read before the problem is fetched.
#[tactic(auto, unfolding(crate::specs::Table::texts_step))]
pub fn read_texts<S: Shelf>(
    alloc: Global,
    shelf: &mut S,
    domain: &Text,
    problem: &Text,
) -> Result<Texts, Stop>
    requires domain { IsUtf8 domain.now }
    requires problem { IsUtf8 problem.now }
    ensures follows { Follows (S.contents shelf.old) (texts_step domain.now problem.now)
        (S.faults shelf.old) (S.faults shelf.new) result }
    ensures unread { IfUnread result (IsInputReached (S.contents shelf.old) domain.now) }
    ensures same { S.contents shelf.new ≡ S.contents shelf.old }
    ensures later { S.faults shelf.old ≤ S.faults shelf.new }
{
    let domain_text = read_part(alloc, shelf, Part::Domain, domain)?;
    let domain_record = domain_of(alloc, &domain_text)?;
    let problem_text = read_part(alloc, shelf, Part::Problem, problem)?;
    let problem_record = problem_of(alloc, &problem_text)?;
    Ok(Texts {
        domain: domain_record,
        problem: problem_record,
    })
}
