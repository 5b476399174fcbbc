//! Laws of the search, each on a function of its own. They speak of its definition, and so of everything that ends as
//! the definition says. The last three are the definition case by case, for what is proved to go as it does.
ghost use Rattle.wp_plain.specs.Explored.{ChildrenAreNumbered};
ghost use Rattle.wp_plain.specs.Numbers.{NodesAreNumbered};
ghost use Rattle.wp_plain.specs.Run.{StepsAreTaken};
ghost use Rattle.wp_plain.specs.Laws.{FoundIsPlan, EmptiedIsClosed, ClosedHasNoPlan, EmptiedHasNoPlan, KeptAreFirst, AllAreCounted, ExpansionsAreFew, PairsAreFew, TuplesAreCounted, BudgetIsSpent, WordsAreExceeded, BudgetIsEnough, LimitsAreEnough, EndingsAnswer, EndingsOfAllAnswer, NumbersAreSmall};

/// What a search finds is a plan of the task.
pub fn found_is_plan()
    ensures { FoundIsPlan }
{}

/// Where BFWS(f5) is left with no node that waits, the task has no plan: the states that it kept hold the opening state
/// and all that the actions lead to from them, and none of them has all goals.
pub fn emptied_has_no_plan()
    ensures kept { EmptiedIsClosed }
    ensures closed { ClosedHasNoPlan }
    ensures none { EmptiedHasNoPlan }
{}

/// The bound on k-BFWS: a node that is kept is the first with its counters at which some tuple is true, so the
/// expansions are at most one more than the pairs of counters times the tuples that are counted, where these have all
/// that are true at reachable states. Of pairs there are at most (goals + 1) * (atoms + 1) in every search.
pub fn expansions_are_few()
    ensures kept { KeptAreFirst }
    ensures expanded { ExpansionsAreFew }
    ensures pairs { PairsAreFew }
{}

/// There are n tuples of one of n atoms, and n + n * (n - 1) / 2 of one or two. All of them may be counted.
pub fn tuples_are_counted()
    ensures number { TuplesAreCounted }
    ensures all { AllAreCounted }
{}

/// What has come about where a search ends at one of its limits.
pub fn limits_are_reached()
    ensures budget { BudgetIsSpent }
    ensures words { WordsAreExceeded }
{}

/// Limits that are enough: k-BFWS does not spend a budget above the bound on its expansions; BFWS(f5) finds a plan or
/// shows that there is none, with a budget for all reachable states and words for all pairs.
pub fn limits_are_enough()
    ensures budget { BudgetIsEnough }
    ensures limits { LimitsAreEnough }
{}

/// No number of a run reaches 2^63, of a task and of settings in their ranges.
pub fn numbers_are_small()
    ensures { NumbersAreSmall }
{}

/// All of this as one record of each ending, for tuples that are counted, and for all tuples of the task.
pub fn endings_answer()
    ensures counted { EndingsAnswer }
    ensures all { EndingsOfAllAnswer }
{}

/// A step and a run, case by case.
pub fn steps_are_taken()
    ensures { StepsAreTaken }
{}

/// The number of a node is its place, and names it; an expansion leaves it so.
pub fn nodes_are_numbered()
    ensures { NodesAreNumbered }
{}

/// Evaluated children, with the next numbers, are the nodes that an expansion generates.
pub fn children_are_numbered()
    ensures { ChildrenAreNumbered }
{}
