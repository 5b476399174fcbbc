//! The law of novelty. A width search asks how small a tuple of atoms a node has that no earlier node with its
//! counters had, after Lipovetzky and Geffner (AAAI 2017).
ghost use Rattle.wp_task.specs.Novelty.{NoveltyIsComputed};

/// The function that computes a node's novelty gives the one number that the definition's relation holds of.
pub fn novelty_is_computed()
    ensures { NoveltyIsComputed }
{}
