//! Worlds: sets of ground atoms, kept by hash.

ghost use Rattle.std.specs.Prelude.{◌≡◌, ◌&&◌, not, [], IfOk, OnOk};
ghost use Rattle.wp_lift.specs.Worlds.{among, is_same_atom, noted};

use crate::atoms::GroundAtom;
use indexmap::IndexSet;
use std::alloc::{AllocError, Global};
use std::marker::Model;

/// A set of ground atoms: those that are true. What is not in it is false.
#[derive(Drop)]
pub struct World {
    alloc: Global,
    atoms: IndexSet<GroundAtom>,
}

impl Model for World {
    ghost use Rattle.std.specs.Prelude.{List};
    ghost use Rattle.wp_lift.specs.declared.atoms.GroundAtom.{GroundAtom};

    ghost Value = { List GroundAtom };

    ghost view = { λ w. w.atoms.keys };
}

impl World {
    /// The world in which no atom is true.
    pub fn new(alloc: Global) -> World
        ensures { result ≡ [] }
    {
        World {
            alloc,
            atoms: IndexSet::new(alloc),
        }
    }

    /// The world in which these atoms are true.
    pub fn of_atoms(alloc: Global, atoms: &[GroundAtom]) -> Result<World, AllocError>
        ensures { IfOk result (λ world. among world ≡ among atoms.now) }
    {
        let mut world = World::new(alloc);
        for atom in atoms {
            world.note(atom.copy(alloc)?)?;
        }
        Ok(world)
    }

    /// The true atoms, each once. Their order says nothing.
    pub fn as_slice(&self) -> &[GroundAtom]
        ensures { result.now ≡ self.now }
    {
        self.atoms.as_slice()
    }

    /// What the world's own memory comes from.
    pub fn alloc(&self) -> Global {
        self.alloc
    }

    /// Whether the atom is true.
    pub fn has(&self, atom: &GroundAtom) -> bool
        ensures { result ≡ among self.now atom.now }
    {
        self.atoms.contains(atom)
    }

    /// Makes the atom true. After want of memory the world is spent.
    pub fn note(&mut self, atom: GroundAtom) -> Result<(), AllocError>
        ensures { OnOk result (self.new ≡ noted self.old atom) }
    {
        self.atoms.insert(atom)?;
        Ok(())
    }

    /// Makes the atom false.
    pub fn remove(&mut self, atom: &GroundAtom)
        ensures { (other : _) → among self.new other ≡ (among self.old other && not (is_same_atom atom.now other)) }
    {
        self.atoms.swap_remove(atom);
    }
}
