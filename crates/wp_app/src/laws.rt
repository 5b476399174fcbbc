//! Laws of the answers to `plan`: what the printed text and the statuses say of the files.

ghost use Rattle.wp_app.specs.Laws.{AnswersOfNoPlanAreTrue, ClosedAnswersAreCertified, DoneAnswersAreValidPlans, EmptiedSearchesHaveNoPlan, FoundPlansAreReadBack, GoalsOutOfReachHaveNoPlan, LargeBudgetsAreNotSpent, LargeLimitsAreNotReached, SearchesAreBounded};

use wp_cert::{emptied_output_is_certified, emptied_searches_keep_few};
use wp_check::{comments_join, plans_of_texts_are_read_back};
use wp_ground::{plans_are_valid, unreached_goals_have_no_plan, valid_plans_are_numbered};
use wp_lift::liftings_are_formed;
use wp_plain::{emptied_has_no_plan, endings_answer, found_is_plan};

/// Where a plan is found, the printed text, its last line with the counts included, is read back as the steps of that plan,
/// and these steps are valid for the files that were read.
pub fn found_plans_are_read_back()
    ensures { FoundPlansAreReadBack }
{
    found_is_plan();
    liftings_are_formed();
    plans_are_valid();
    plans_of_texts_are_read_back();
    comments_join();
}

/// Where the answer is that a goal is out of reach, no plan is valid.
pub fn goals_out_of_reach_have_no_plan()
    ensures { GoalsOutOfReachHaveNoPlan }
{
    liftings_are_formed();
    unreached_goals_have_no_plan();
}

/// Where BFWS(f5) is left with no node that waits, and so the answer is that there is no plan, none is valid.
pub fn emptied_searches_have_no_plan()
    ensures { EmptiedSearchesHaveNoPlan }
{
    emptied_has_no_plan();
    liftings_are_formed();
    plans_are_valid();
    valid_plans_are_numbered();
}

/// The expansions that k-BFWS counts are at most one more than its pairs of counters times the tuples of the task's atoms.
pub fn searches_are_bounded()
    ensures { SearchesAreBounded }
{
    endings_answer();
}

/// Limits that are large enough end no search: where the budget of k-BFWS is above the bound on its expansions, the answer is not
/// that it is spent; where BFWS(f5) has a budget for all reachable states and words for all pairs of counters, the answer is a
/// plan, or that there is none.
pub fn large_limits_are_not_reached()
    ensures budget { LargeBudgetsAreNotSpent }
    ensures limits { LargeLimitsAreNotReached }
{
    endings_answer();
}

/// Where `plan` answers that it is done, the printed text is read back as the steps of a valid plan for the files that were read.
pub fn done_answers_are_valid_plans()
    ensures { DoneAnswersAreValidPlans }
{
    found_plans_are_read_back();
}

/// Where `plan` answers that there is no plan, or that a goal is out of reach, no plan is valid for the files that were read.
pub fn answers_of_no_plan_are_true()
    ensures { AnswersOfNoPlanAreTrue }
{
    goals_out_of_reach_have_no_plan();
    emptied_searches_have_no_plan();
}

/// Where `plan --closed` answers that there is no plan, its whole text is read as a certificate, and an audit of it in the task of the
/// files that were read says yes.
pub fn closed_answers_are_certified()
    ensures { ClosedAnswersAreCertified }
{
    comments_join();
    emptied_searches_keep_few();
    emptied_output_is_certified();
}
