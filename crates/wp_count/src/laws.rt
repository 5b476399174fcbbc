//! The law of the counters.
ghost use Rattle.wp_count.specs.Laws.{MarksCount, RootIsMarked, ChildrenAreEvaluated};

/// What a node keeps of its path is enough: the counters of the root and of all children are those of their whole paths.
pub fn counters_are_carried()
    ensures counters { MarksCount }
    ensures root { RootIsMarked }
    ensures children { ChildrenAreEvaluated }
{}
