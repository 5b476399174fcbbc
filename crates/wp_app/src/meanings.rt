//! Laws of the answers of all commands: what each status means, in the words of the definitions.

ghost use Rattle.wp_app.specs.Causes.{LimitsHaveTheirCauses, MissingFilesHaveNoAnswer, PlainPlaysNoPart, RefusalsHaveTheirCauses, TasksAreGrounded, UsageIsOfNoCommand, WorkersChangeNoAnswer};
ghost use Rattle.wp_app.specs.Meanings.{AnswersAreOfTheirCommands, DoneAuditsHaveClosedStates, DoneAuditsHaveNoPlan, DoneChecksHaveValidPlans, EndingsHaveTheirStatuses, InvalidAuditsHaveOpenStates, InvalidChecksHaveInvalidPlans, NoPlanIsTrue, UnreachedGoalsAreAnswered};

use wp_cert::yes_has_no_plan;
use wp_check::valid_steps_name_valid_plans;
use wp_ground::{plans_are_valid, unreached_goals_have_no_plan, valid_plans_are_numbered};
use wp_lift::liftings_are_formed;
use wp_plain::{emptied_has_no_plan, workers_play_no_part};

/// Which statuses each command can answer.
pub fn answers_are_of_their_commands()
    ensures { AnswersAreOfTheirCommands }
{}

/// `check` is done exactly where the steps of the plan file name a valid plan, and answers that the plan is invalid exactly
/// where its steps are read and are not valid.
pub fn checks_are_true()
    ensures done { DoneChecksHaveValidPlans }
    ensures invalid { InvalidChecksHaveInvalidPlans }
{
    valid_steps_name_valid_plans();
}

/// `audit` is done exactly where its three files are read, no cause is against the task, and the states of the certificate are closed in
/// it; it answers that the certificate is invalid exactly where they are not. Where it is done no plan is valid, whoever made the
/// certificate.
pub fn audits_are_true()
    ensures done { DoneAuditsHaveClosedStates }
    ensures invalid { InvalidAuditsHaveOpenStates }
    ensures none { DoneAuditsHaveNoPlan }
{
    liftings_are_formed();
    yes_has_no_plan();
}

/// A search that has a task answers the status of its ending, and the status of an ending comes of such a search alone.
pub fn endings_have_their_statuses()
    ensures { EndingsHaveTheirStatuses }
{}

/// `ground`, `plan`, `gen` and `audit` answer that a goal is out of reach exactly where it is.
pub fn unreached_goals_are_answered()
    ensures { UnreachedGoalsAreAnswered }
{}

/// A command that reads files refuses exactly where the first of them that cannot be read has a fault, or where all are read
/// and a name is at fault. Any command answers that a limit is passed exactly where that file is too long, or where a task of its
/// texts has too many actions or atoms.
pub fn refusals_have_their_causes()
    ensures refusals { RefusalsHaveTheirCauses }
    ensures limits { LimitsHaveTheirCauses }
{}

/// A command has no answer exactly where the first of its files that cannot be read is not there.
pub fn missing_files_have_no_answer()
    ensures { MissingFilesHaveNoAnswer }
{}

/// The usage is the answer exactly where the words have no command.
pub fn usage_is_of_no_command()
    ensures { UsageIsOfNoCommand }
{}

/// Words whose commands differ in `--plain` alone have one answer.
pub fn plain_plays_no_part()
    ensures { PlainPlaysNoPart }
{}

/// Words whose commands differ in `--workers` and `--ahead` alone have one answer.
pub fn workers_change_no_answer()
    ensures { WorkersChangeNoAnswer }
{
    workers_play_no_part();
}

/// `ground` prints a task exactly where its files are read and lifted and no cause is against the task.
pub fn tasks_are_grounded()
    ensures { TasksAreGrounded }
{}

/// Where any command answers that there is no plan, or that a goal is out of reach, no plan is valid.
pub fn no_plan_is_true()
    ensures { NoPlanIsTrue }
{
    endings_have_their_statuses();
    unreached_goals_are_answered();
    answers_are_of_their_commands();
    liftings_are_formed();
    emptied_has_no_plan();
    plans_are_valid();
    valid_plans_are_numbered();
    unreached_goals_have_no_plan();
}
