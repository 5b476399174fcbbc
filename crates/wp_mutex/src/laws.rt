//! Laws of possible pairs, each on a function of its own.
ghost use Rattle.wp_mutex.specs.Laws.{PairsSettle, LeastAreClosed, ReachablePairsArePossible};

/// As many rounds as are defined are enough: a further one changes nothing.
pub fn pairs_settle()
    ensures { PairsSettle }
{}

/// The possible pairs are the one least set that has the pairs of the opening state and all that the actions make possible.
pub fn least_are_closed()
    ensures { LeastAreClosed }
{}

/// Every two atoms of a reachable state are a possible pair.
pub fn reachable_pairs_are_possible()
    ensures { ReachablePairsArePossible }
{}
