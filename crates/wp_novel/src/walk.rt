//! The atoms of a state, one after another.
ghost use Rattle.std.specs.Prelude.{◌≡◌, ℕ, ◌<◌, ◌≤◌, false, IfSome, IfNone};
ghost use Rattle.wp_task.specs.Set.{has, IsNext};

use wp_task::State;

/// The least atom of the state from `from` on that is below `end`.
pub(crate) fn next_below(state: &State, from: u32, end: u32) -> Option<u32>
    ensures found { IfSome result (λ p. (p < end) × IsNext state.now from p) }
    ensures none { IfNone result ((p : ℕ) → from ≤ p → p < end → has state.now p ≡ false) }
{
    let p = state.next(from)?;
    if p < end { Some(p) } else { None }
}
