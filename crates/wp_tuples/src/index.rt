//! The index of all tuples.
ghost use Rattle.std.specs.Prelude.{◌≡◌, ◌+◌, ◌-◌, ◌*◌, ◌/◌, ◌^◌, ◌<◌, ◌≤◌, [], ◌∷◌, length};
ghost use Rattle.wp_tuples.specs.TuplePlaces.{place_of, tuples_of};
ghost use Rattle.wp_tuples.specs.Placing.{AreApart, all_placed};

use crate::places::Places;
use std::marker::Model;

/// The places of the sets of 1 to `width` of the atoms below a number. Every pair is counted.
#[derive(Drop)]
pub struct TupleIndex {
    atoms: u32,
    width: u8,
}

impl Model for TupleIndex {
    ghost use Rattle.std.specs.Prelude.{◌≤◌};
    ghost use Rattle.wp_tuples.specs.TuplePlaces.{Indexed};

    ghost Value = { Indexed };

    ghost view = { λ i. record { atoms = i.atoms; width = i.width } };

    ghost invariant = { λ i. (i.atoms ≤ 65536) × ((1 ≤ i.width) × (i.width ≤ 2)) };
}

impl TupleIndex {
    /// The index of the tuples of up to `width` of the atoms below `atoms`.
    pub fn new(atoms: u32, width: u8) -> TupleIndex
        requires atoms { atoms ≤ 65536 }
        requires width { (1 ≤ width) × (width ≤ 2) }
        ensures { result ≡ record { atoms = atoms; width = width } }
    {
        TupleIndex { atoms, width }
    }
}

impl Places for TupleIndex {
    ghost places = { all_placed };

    fn width(&self) -> u8 {
        self.width
    }

    fn len(&self) -> u64
        ensures tuples { result ≡ length (tuples_of self.now) }
        ensures singles { self.now.width ≡ 1 → result ≡ self.now.atoms }
        ensures pairs { self.now.width ≡ 2 → result ≡ self.now.atoms + self.now.atoms * (self.now.atoms - 1) / 2 }
        ensures below { result < 2 ^ 32 }
        ensures apart { AreApart (all_placed self.now) }
    {
        let atoms = u64::from(self.atoms);
        if self.width == 1 {
            return atoms;
        }
        atoms + pairs_below(atoms)
    }

    fn atom_place(&self, p: u32) -> u64
        requires { p < self.now.atoms }
        ensures place { result ≡ place_of self.now.atoms (p ∷ []) }
        ensures within { result < length (tuples_of self.now) }
    {
        // The width is at hand by this look at it: with none, no place would be within.
        let _ = &self.width;
        u64::from(p)
    }

    // Places grow with the greater atom first, so the pairs of an atom with those before it lie together.
    fn pair_place(&self, p: u32, q: u32) -> u64
        requires width { self.now.width ≡ 2 }
        requires order { p < q }
        requires atom { q < self.now.atoms }
        ensures place { result ≡ place_of self.now.atoms (p ∷ q ∷ []) }
        ensures within { result < length (tuples_of self.now) }
    {
        u64::from(self.atoms) + pairs_below(u64::from(q)) + u64::from(p)
    }
}

/// How many pairs there are of the atoms below a number.
pub(crate) fn pairs_below(q: u64) -> u64
    requires { q ≤ 65536 }
    ensures value { result ≡ q * (q - 1) / 2 }
    ensures small { result < 2 ^ 31 }
{
    q * q.saturating_sub(1) / 2
}
