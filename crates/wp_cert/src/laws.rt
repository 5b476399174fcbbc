//! Laws of certificates, each on a function of its own.
ghost use Rattle.wp_cert.specs.Format.{CommentedIsRead, TextsAreRead, WrittenIsRead};
ghost use Rattle.wp_cert.specs.Laws.{YesIsClosed, YesHasNoPlan, YesHasNoValidPlan, ClosedStatesAreReachable, NoneAreMany, KeptStatesAreCertified, EmptiedKeepsFew, EmptiedOutputIsCertified};

use wp_ground::{plans_are_valid, unreached_goals_have_no_plan, valid_plans_are_numbered};
use wp_plain::{emptied_has_no_plan, endings_answer, first_is_least, nodes_are_numbered};

/// A text is read as a certificate exactly where its lines, without the comments, are those of the certificate; so what is
/// written is read back, behind comments too.
pub fn texts_are_read()
    ensures texts { TextsAreRead }
    ensures written { WrittenIsRead }
    ensures commented { CommentedIsRead }
{}

/// An audit finds nothing exactly where the states are closed. Then the task has no plan, and no plan of the lifted problem is
/// valid.
pub fn yes_has_no_plan()
    ensures closed { YesIsClosed }
    ensures plan { YesHasNoPlan }
    ensures valid { YesHasNoValidPlan }
{
    emptied_has_no_plan();
    plans_are_valid();
    valid_plans_are_numbered();
    unreached_goals_have_no_plan();
}

/// The states that are listed are the reachable ones, each once; none are listed exactly where there are more than the limit.
pub fn closed_states_are_reachable()
    ensures all { ClosedStatesAreReachable }
    ensures many { NoneAreMany }
{}

/// Where BFWS(f5) is left with no node that waits, the reachable states are those that it kept: as many are listed, and an
/// audit of them finds nothing.
pub fn kept_states_are_certified()
    ensures { KeptStatesAreCertified }
{}

/// Where a search is left with no node that waits, it has kept at most as many nodes as its budget allows expansions.
pub fn emptied_searches_keep_few()
    ensures { EmptiedKeepsFew }
{
    nodes_are_numbered();
    first_is_least();
}

/// What BFWS(f5) prints where it is left with no node that waits, with the reachable states behind it, is read as a certificate, and
/// an audit of it finds nothing.
pub fn emptied_output_is_certified()
    ensures { EmptiedOutputIsCertified }
{
    endings_answer();
    emptied_searches_keep_few();
    kept_states_are_certified();
    texts_are_read();
    closed_states_are_reachable();
}
