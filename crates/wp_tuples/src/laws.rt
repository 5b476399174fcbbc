//! The laws of places, each on a function of its own.
ghost use Rattle.std.specs.Prelude.{ℕ, ◌≤◌};
ghost use Rattle.wp_tuples.specs.TuplePlaces.{AreNumbered};
ghost use Rattle.wp_tuples.specs.Placing.{TuplesHavePlaces};

/// For one or two atoms a tuple, the places number the tuples.
pub fn tuples_are_numbered()
    ensures { (atoms : ℕ) (width : ℕ) → 1 ≤ width → width ≤ 2 → AreNumbered atoms width }
{}

/// The tuples that have a place in the index of all tuples are its tuples.
pub fn tuples_have_places()
    ensures { TuplesHavePlaces }
{}
