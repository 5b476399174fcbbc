//! Laws of verdicts.

ghost use Rattle.wp_check.specs.Causes.{VerdictsNameTheFirstCause, VerdictsNameTheFirstGoal};
ghost use Rattle.wp_check.specs.Laws.{ValidStepsNameValidPlans};
ghost use Rattle.wp_check.specs.PlanText.{CommentsJoin, PrintedPlansAreRead};
ghost use Rattle.wp_check.specs.Printed.{PlansOfTextsAreReadBack, ValidPlansAreReadBack, ValidPlansGiveValidSteps};

use wp_lex::lists_are_read;
use wp_lift::liftings_are_named;
use wp_syntax::{domains_are_named, problems_are_named};

/// The verdict on steps is that they are valid exactly where they name the instances of a valid plan: the first cause for
/// which a step is bad comes only where no valid plan has these names.
pub fn valid_steps_name_valid_plans()
    ensures { ValidStepsNameValidPlans }
{}

/// A step is named as bad with a cause exactly where the steps before it apply in turn and the cause is the first for which it is
/// bad after them; a goal atom is named exactly where all steps apply and it is the first that does not hold after them.
pub fn verdicts_name_the_first()
    ensures causes { VerdictsNameTheFirstCause }
    ensures goals { VerdictsNameTheFirstGoal }
{}

/// Where names tell objects and schemas apart, the steps that have the names of a valid plan's instances are valid.
pub fn valid_plans_give_valid_steps()
    ensures { ValidPlansGiveValidSteps }
{
    valid_steps_name_valid_plans();
}

/// The text of steps whose names and arguments are words, a line a step, is read as these steps, whatever comments stand
/// behind them.
pub fn printed_plans_are_read()
    ensures { PrintedPlansAreRead }
{
    lists_are_read();
}

/// The text of a valid plan is read as steps that are valid, whatever comments stand behind it.
pub fn valid_plans_are_read_back()
    ensures { ValidPlansAreReadBack }
{
    printed_plans_are_read();
    valid_plans_give_valid_steps();
}

/// The text of a valid plan of what is read and lifted from two texts without a fault is read as steps that are valid.
pub fn plans_of_texts_are_read_back()
    ensures { PlansOfTextsAreReadBack }
{
    domains_are_named();
    problems_are_named();
    liftings_are_named();
    valid_plans_are_read_back();
}

/// Lines of comments behind lines of comments are lines of comments.
pub fn comments_join()
    ensures { CommentsJoin }
{}
