//! The possible pairs of a task.
ghost use Rattle.std.specs.Prelude.{◌≡◌, ◌≢◌, ℕ, ◌<◌, ◌≤◌, Bool, List, length, IfOk, Err};
ghost use Rattle.wp_task.specs.Task.{IsReachable};
ghost use Rattle.wp_mutex.specs.PossiblePairs.{joins, more_pairs, possible_pairs, HasRows, HasPairsOf};
ghost use Rattle.wp_mutex.specs.Laws.{IsLeastClosed};

use crate::error::PossibleError;
use crate::triangle::joins;
use crate::work::possible_rows;
use std::alloc::Global;
use std::marker::Model;
use wp_task::{State, Task};

/// The most atoms of a task whose pairs are computed.
const MOST_ATOMS: u32 = 8192;

/// The pairs of atoms of a task that h2 leaves possible: a flag for each pair.
#[derive(Drop)]
pub struct Possible {
    rows: Vec<State>,
}

impl Model for Possible {
    ghost use Rattle.std.specs.Prelude.{◌≤◌, List, Bool, length};
    ghost use Rattle.wp_mutex.specs.PossiblePairs.{HasRows};

    ghost Value = { List (List Bool) };

    ghost view = { λ p. p.rows.items };

    ghost invariant = { λ p. HasRows (length p.rows.items) p.rows.items × (length p.rows.items ≤ 8192) };
}

impl Possible {
    /// The possible pairs of a task of at most 8,192 atoms.
    pub fn of(alloc: Global, task: &Task) -> Result<Possible, PossibleError>
        ensures value { IfOk result (λ possible. possible ≡ possible_pairs task.now.acts task.now.init) }
        ensures size { IfOk result (λ possible. length possible ≡ task.now.atoms) }
        ensures least { IfOk result (λ possible. IsLeastClosed task.now.acts task.now.init possible) }
        ensures reachable { IfOk result (λ possible. (state : List Bool) → IsReachable task.now state → HasPairsOf state possible) }
        ensures many { 8192 < task.now.atoms → result ≡ Err (PossibleError.TooMany task.now.atoms) }
        ensures few { task.now.atoms ≤ 8192 → (atoms : ℕ) → result ≢ Err (PossibleError.TooMany atoms) }
    {
        let atoms = task.atoms();
        if atoms > MOST_ATOMS {
            return Err(PossibleError::TooMany { atoms });
        }
        let rows = possible_rows(alloc, task)?;
        Ok(Possible { rows })
    }

    /// How many atoms there are.
    pub fn atoms(&self) -> u32
        ensures value { result ≡ length self.now }
        ensures few { result ≤ 8192 }
    {
        self.rows.len() as u32
    }

    /// The rows, each a set of the atoms up to its own.
    pub(crate) fn into_rows(self) -> Vec<State>
        ensures value { result.items ≡ self }
        ensures rows { HasRows (length result.items) result.items }
        ensures few { length result.items ≤ 8192 }
    {
        let Possible { rows } = self;
        rows
    }

    /// Whether two atoms may be true together; an atom with itself, whether it may be true at all.
    pub fn pair(&self, p: u32, q: u32) -> bool
        requires left { p < length self.now }
        requires right { q < length self.now }
        ensures { result ≡ joins self.now p q }
    {
        joins(self.rows.as_slice(), p, q)
    }
}
