//! Sets of pairs as rows of flags, and what an action needs of them.
ghost use Rattle.std.specs.Prelude.{◌≡◌, ◌||◌, ◌&&◌, not, ◌+◌, ◌<◌, false, length, map, replicate, IfOk};
ghost use Rattle.std.specs.List.{list_all, range_with_len};
ghost use Rattle.wp_task.specs.Set.{has, lists};
ghost use Rattle.wp_task.specs.Task.{act_at};
ghost use Rattle.wp_mutex.specs.PossiblePairs.{joins, joins_all, may_apply, may_follow};

use std::alloc::{AllocError, Global};
use wp_task::{State, Task};

/// The rows of the set of no pair.
pub(crate) fn no_pairs(alloc: Global, atoms: u32) -> Result<Vec<State>, AllocError>
    ensures { IfOk result (λ rows. rows.items ≡ map (λ q. replicate (q + 1) false) (range_with_len 0 atoms)) }
{
    let mut rows = Vec::with_capacity(alloc, atoms as usize)?;
    for q in 0..atoms {
        let row = State::empty(alloc, q + 1)?;
        rows.push(row)?;
    }
    Ok(rows)
}

/// Whether a pair is in the set.
pub(crate) fn joins(rows: &[State], p: u32, q: u32) -> bool
    ensures { result ≡ joins rows.now p q }
{
    match rows.get(p.max(q) as usize) {
        Some(row) => row.has(p.min(q)),
        None => false,
    }
}

/// Whether an atom is possible with each of the listed ones.
pub(crate) fn joins_all(rows: &[State], atoms: &[u32], q: u32) -> bool
    ensures { result ≡ joins_all (joins rows.now) atoms.now q }
{
    atoms.iter().all(|p| joins(rows, *p, q))
}

/// Whether the atoms are pairwise possible, each with itself too.
pub(crate) fn are_joined(rows: &[State], atoms: &[u32]) -> bool
    ensures { result ≡ list_all (joins_all (joins rows.now) atoms.now) atoms.now }
{
    atoms.iter().all(|q| joins_all(rows, atoms, *q))
}

/// Whether an atom may be true after an action that may apply.
pub(crate) fn may_follow(rows: &[State], task: &Task, a: u32, q: u32) -> bool
    requires { a < length task.now.acts }
    ensures { result ≡ may_follow (joins rows.now) (act_at task.now.acts a) q }
{
    let act = task.act(a);
    if act.add.as_slice().contains(&q) {
        return true;
    }
    joins(rows, q, q) && joins_all(rows, act.pre.as_slice(), q) && !act.del.as_slice().contains(&q)
}

/// Whether both atoms are in the state.
pub(crate) fn has_both(s: &State, p: u32, q: u32) -> bool
    ensures { result ≡ (has s.now p && has s.now q) }
{
    s.has(p) && s.has(q)
}

/// Whether both atoms are listed.
pub(crate) fn lists_both(atoms: &[u32], p: u32, q: u32) -> bool
    ensures { result ≡ (lists atoms.now p && lists atoms.now q) }
{
    atoms.contains(&p) && atoms.contains(&q)
}
