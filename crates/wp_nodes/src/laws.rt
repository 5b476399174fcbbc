//! The law of links, on a function of its own.
ghost use Rattle.std.specs.Prelude.{ℕ, List};
ghost use Rattle.wp_nodes.specs.KeptNodes.{Keeping, AreLinked};
ghost use Rattle.wp_nodes.specs.Links.{plan_in, FollowLinks};

/// The plans that are computed for kept nodes follow their links.
pub fn plans_follow_links()
    ensures { (nodes : Keeping) → AreLinked nodes → FollowLinks nodes.kept (plan_in nodes.kept) }
{}
