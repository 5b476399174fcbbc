//! What a node keeps for its counters.
ghost use Rattle.std.specs.Prelude.{◌≡◌, IfOk};
ghost use Rattle.std.specs.List.Sorted.{IsStrictlyIncreasing};

use crate::atoms::Atoms;
use crate::state::State;
use std::alloc::{AllocError, Global};
use std::marker::Model;

/// The atoms that a relaxed plan adds and that are not true where it starts, in order: R in the definition of #r.
#[derive(Drop)]
pub struct Track {
    atoms: Atoms,
}

impl Model for Track {
    ghost use Rattle.std.specs.Prelude.{List, ℕ};
    ghost use Rattle.std.specs.List.Sorted.{IsStrictlyIncreasing};

    ghost Value = { List ℕ };

    ghost view = { λ t. t.atoms };

    ghost invariant = { λ t. IsStrictlyIncreasing t.atoms };
}

impl Track {
    pub fn of(atoms: Atoms) -> Track
        requires { IsStrictlyIncreasing atoms }
        ensures { result ≡ atoms }
    {
        Track { atoms }
    }

    pub fn atoms(&self) -> &Atoms
        ensures value { result.now ≡ self.now }
        ensures rising { IsStrictlyIncreasing self.now }
    {
        &self.atoms
    }

    /// An equal track.
    pub fn copy(&self, alloc: Global) -> Result<Track, AllocError>
        ensures { IfOk result (λ copy. copy ≡ self.now) }
    {
        let atoms = self.atoms.copy(alloc)?;
        Ok(Track { atoms })
    }
}

/// A node's counters #g and #r, the number of the track that #r counts on, and the atoms of that track that were
/// achieved since its base.
#[derive(Drop)]
pub struct Mark {
    pub g: u32,
    pub r: u32,
    pub track: u64,
    pub got: State,
}

impl Mark {
    /// An equal mark.
    pub fn copy(&self, alloc: Global) -> Result<Mark, AllocError>
        ensures { IfOk result (λ copy. copy ≡ self.now) }
    {
        let got = self.got.copy(alloc)?;
        Ok(Mark {
            g: self.g,
            r: self.r,
            track: self.track,
            got,
        })
    }
}
