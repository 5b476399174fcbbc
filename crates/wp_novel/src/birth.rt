//! Births: the nodes that are entered into novelty tables.
ghost use Rattle.std.specs.Prelude.{◌≡◌, ◌∷◌, [], ◌++◌, length, not, filter, IfOk, OnOk, if◌then◌else◌};
ghost use Rattle.wp_task.specs.Set.{atoms_in};
ghost use Rattle.wp_novel.specs.NoveltyTables.{counters_of, is_same};
ghost use Rattle.wp_novel.specs.Births.{is_new};
ghost use Rattle.wp_novel.specs.MarkedTuples.{new_atoms, old_atoms};

use crate::walk::next_below;
use std::alloc::{AllocError, Global};
use std::marker::Model;
use wp_task::{Atoms, State};

/// The counters #g and #r of a node.
#[derive(Clone, Copy, PartialEq, Eq, Hash)]
pub struct Pair {
    pub g: u32,
    pub r: u32,
}

/// A generated node that is no repeat: its number in the order of generation, its counters, its state, and which of the atoms of its
/// state are new. The true atoms are listed once, the new ones and the others apart, for the marks and for the looks.
#[derive(Drop)]
pub struct Birth {
    number: u64,
    pair: Pair,
    state: State,
    fresh: Option<Atoms>,
    parts: Parts,
}

impl Model for Birth {
    ghost use Rattle.std.specs.Prelude.{◌≡◌, not, filter};
    ghost use Rattle.wp_task.specs.Set.{atoms_in};
    ghost use Rattle.wp_novel.specs.NoveltyTables.{counters_of, is_same};
    ghost use Rattle.wp_novel.specs.Births.{BirthView, is_new};

    ghost Value = { BirthView };

    ghost view = { λ b. record { node = record { number = b.number; counters = counters_of b.pair; state = b.state }; fresh = b.fresh } };

    ghost invariant = { λ b. (b.parts.new_atoms.items ≡ filter (is_new b.fresh) (atoms_in b.state))
        × (b.parts.old_atoms.items ≡ filter (λ p. not (is_new b.fresh p)) (atoms_in b.state)) };
}

impl Birth {
    /// A birth. Where `fresh` is absent all its atoms are new.
    pub fn of(
        alloc: Global,
        number: u64,
        pair: Pair,
        state: State,
        fresh: Option<Atoms>,
    ) -> Result<Birth, AllocError>
        ensures { IfOk result (λ birth. birth ≡ record { node = record { number = number; counters = counters_of pair; state = state }; fresh = fresh }) }
    {
        let parts = parts_of(alloc, &state, &fresh)?;
        Ok(Birth {
            number,
            pair,
            state,
            fresh,
            parts,
        })
    }

    pub fn number(&self) -> u64
        ensures { result ≡ self.now.node.number }
    {
        self.number
    }

    pub fn pair(&self) -> Pair
        ensures { counters_of result ≡ self.now.node.counters }
    {
        self.pair
    }

    /// Whether it has the pair.
    pub(crate) fn has_pair(&self, pair: Pair) -> bool
        ensures { result ≡ is_same self.now.node.counters (counters_of pair) }
    {
        self.pair == pair
    }

    /// How many atoms its state is over.
    pub(crate) fn size(&self) -> u32
        ensures { result ≡ length self.now.node.state }
    {
        self.state.size()
    }

    /// The new atoms of its state, in order.
    pub(crate) fn new_atoms(&self) -> &[u32]
        ensures { result.now ≡ new_atoms self.now }
    {
        self.parts.new_atoms.as_slice()
    }

    /// The other atoms of its state, in order.
    pub(crate) fn old_atoms(&self) -> &[u32]
        ensures { result.now ≡ old_atoms self.now }
    {
        self.parts.old_atoms.as_slice()
    }

    /// Gives its state back.
    pub fn into_state(self) -> State
        ensures { result ≡ self.node.state }
    {
        let Birth {
            number: _,
            pair: _,
            state,
            fresh: _,
            parts: _,
        } = self;
        state
    }
}

/// The true atoms of a state, in order: the new ones, and the others.
#[derive(Drop)]
pub(crate) struct Parts {
    pub new_atoms: Vec<u32>,
    pub old_atoms: Vec<u32>,
}

impl Parts {
    /// Adds an atom.
    fn put(&mut self, p: u32, new: bool) -> Result<(), AllocError>
        ensures new { OnOk result (self.new.new_atoms.items ≡ self.old.new_atoms.items ++ (if new then p ∷ [] else [])) }
        ensures old { OnOk result (self.new.old_atoms.items ≡ self.old.old_atoms.items ++ (if new then [] else p ∷ [])) }
    {
        if new {
            self.new_atoms.push(p)?;
        } else {
            self.old_atoms.push(p)?;
        }
        Ok(())
    }
}

/// The atoms of a state, in order, parted by whether they are new.
fn parts_of(alloc: Global, state: &State, fresh: &Option<Atoms>) -> Result<Parts, AllocError>
    ensures new { IfOk result (λ parts. parts.new_atoms.items ≡ filter (is_new fresh.now) (atoms_in state.now)) }
    ensures old { IfOk result (λ parts. parts.old_atoms.items ≡ filter (λ p. not (is_new fresh.now p)) (atoms_in state.now)) }
{
    let size = state.size();
    let mut parts = room_for(alloc, size, fresh)?;
    let mut from = 0;
    while let Some(p) = next_below(state, from, size) {
        parts.put(p, is_new(fresh, p))?;
        from = p + 1;
    }
    Ok(parts)
}

/// Room for the atoms of most states at once: one that has more of them grows the lists.
fn room_for(alloc: Global, size: u32, fresh: &Option<Atoms>) -> Result<Parts, AllocError>
    ensures new { IfOk result (λ parts. parts.new_atoms.items ≡ []) }
    ensures old { IfOk result (λ parts. parts.old_atoms.items ≡ []) }
{
    let room = size.min(128) as usize;
    let (new, old) = match fresh {
        Some(atoms) => (atoms.as_slice().len(), room),
        None => (room, 0),
    };
    Ok(Parts {
        new_atoms: Vec::with_capacity(alloc, new)?,
        old_atoms: Vec::with_capacity(alloc, old)?,
    })
}

/// Whether an atom is new. The lists of new atoms are short, so they are looked through.
fn is_new(fresh: &Option<Atoms>, p: u32) -> bool
    ensures { result ≡ is_new fresh.now p }
{
    match fresh {
        Some(atoms) => atoms.as_slice().contains(&p),
        None => true,
    }
}

/// A list of births.
#[derive(Drop)]
pub struct Births {
    items: Vec<Birth>,
}

impl Model for Births {
    ghost use Rattle.std.specs.Prelude.{List};
    ghost use Rattle.wp_novel.specs.Births.{BirthView};

    ghost Value = { List BirthView };

    ghost view = { λ b. b.items.items };
}

impl Births {
    pub fn of_vec(items: Vec<Birth>) -> Births
        ensures { result ≡ items.items }
    {
        Births { items }
    }

    pub fn into_vec(self) -> Vec<Birth>
        ensures { result.items ≡ self }
    {
        let Births { items } = self;
        items
    }

    pub fn as_slice(&self) -> &[Birth]
        ensures { result.now ≡ self.now }
    {
        self.items.as_slice()
    }
}
