//! The law of the open list, on a function of its own.
ghost use Rattle.wp_queue.specs.OpenList.{OneListForASet};

/// Two lists in order that have the same nodes are equal: so what contracts see of an open list is a set.
pub fn one_list_for_a_set()
    ensures { OneListForASet }
{}
