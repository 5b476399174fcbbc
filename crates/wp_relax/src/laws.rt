//! Laws of the definitions, each on a function of its own.
ghost use Rattle.wp_relax.specs.Laws.{CostsSettle, OneTable, RelaxedPlansReach, SupportersAreThere, SupportersNeedLess, WantedAreLeast};

/// Costs are made by as many rounds as there are atoms, and a further round changes nothing.
pub fn costs_settle()
    ensures { CostsSettle }
{}

/// Each precondition of an atom's supporter costs less than the atom.
pub fn supporters_need_less()
    ensures { SupportersNeedLess }
{}

/// A table that no action makes cheaper, and in which each finite cost has a cause, is the table of additive costs.
pub fn one_table()
    ensures { OneTable }
{}

/// An atom has no supporter exactly where it is in the state or its cost is infinite.
pub fn supporters_are_there()
    ensures { SupportersAreThere }
{}

/// The wanted atoms are the least set that has the unmet goals and, with each of its atoms, what its supporter needs
/// and the state lacks.
pub fn wanted_are_least()
    ensures { WantedAreLeast }
{}

/// A relaxed plan, carried out in its order by the actions without their deletes, makes every goal true.
pub fn relaxed_plans_reach()
    ensures { RelaxedPlansReach }
{}
