//! Events of a search.
ghost use Rattle.std.specs.Prelude.{◌≡◌, IfOk};

use std::alloc::{AllocError, Global};
use std::marker::Model;

/// A node that an expansion generated: its number, the action that led to it, its novelty (from 1 to width + 1), its
/// counters #g and #r, and whether it was kept or pruned.
#[derive(Clone, Copy, Drop)]
pub struct Born {
    pub number: u64,
    pub act: u32,
    pub w: u8,
    pub g: u32,
    pub r: u32,
    pub kept: bool,
}

/// The nodes that an expansion generated, in the order of their numbers.
#[derive(Drop)]
pub struct Borns {
    items: Vec<Born>,
}

impl Model for Borns {
    ghost use Rattle.std.specs.Prelude.{List};
    ghost use Rattle.wp_watch.specs.declared.event.Born.{Born};

    ghost Value = { List Born };

    ghost view = { λ b. b.items.items };
}

impl Borns {
    pub fn of_vec(items: Vec<Born>) -> Borns
        ensures { result ≡ items.items }
    {
        Borns { items }
    }

    pub fn into_vec(self) -> Vec<Born>
        ensures { result.items ≡ self }
    {
        let Borns { items } = self;
        items
    }

    pub fn as_slice(&self) -> &[Born]
        ensures { result.now ≡ self.now }
    {
        self.items.as_slice()
    }
}

/// An expansion: the expanded node's number, novelty and counters, how many of its children were repeats, and the
/// children that were numbered.
#[derive(Drop)]
pub struct Event {
    pub number: u64,
    pub w: u8,
    pub g: u32,
    pub r: u32,
    pub repeats: u64,
    pub born: Borns,
}

impl Event {
    /// An equal event.
    pub fn copy(&self, alloc: Global) -> Result<Event, AllocError>
        ensures { IfOk result (λ copy. copy ≡ self.now) }
    {
        let born = Vec::from_slice(alloc, self.born.as_slice())?;
        Ok(Event {
            number: self.number,
            w: self.w,
            g: self.g,
            r: self.r,
            repeats: self.repeats,
            born: Borns::of_vec(born),
        })
    }
}

/// The events of a search, in order.
#[derive(Drop)]
pub struct Events {
    items: Vec<Event>,
}

impl Model for Events {
    ghost use Rattle.std.specs.Prelude.{List};
    ghost use Rattle.wp_watch.specs.declared.event.Event.{Event};

    ghost Value = { List Event };

    ghost view = { λ e. e.items.items };
}

impl Events {
    pub fn of_vec(items: Vec<Event>) -> Events
        ensures { result ≡ items.items }
    {
        Events { items }
    }

    pub fn into_vec(self) -> Vec<Event>
        ensures { result.items ≡ self }
    {
        let Events { items } = self;
        items
    }

    pub fn as_slice(&self) -> &[Event]
        ensures { result.now ≡ self.now }
    {
        self.items.as_slice()
    }
}
