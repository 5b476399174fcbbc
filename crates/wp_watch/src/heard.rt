//! The events that a watcher heard, each a copy of its own.
ghost use Rattle.std.specs.Prelude.{◌≡◌, ◌≤◌, ◌<◌, ◌^◌, ◌++◌, ◌∷◌, [], length, IfOk, OnErr, OnOk};
ghost use Rattle.std.specs.Option.{ForSome};
ghost use Rattle.wp_watch.specs.Sums.{born_in, repeats_in};
ghost use Rattle.wp_watch.specs.Places.{CanTell, heed_at, heed_of};

use crate::event::Event;
use crate::watch::Heed;
use std::alloc::{AllocError, Global};

/// Events, and how many of them are wanted, where not all are.
#[derive(Drop)]
pub(crate) struct Heard {
    alloc: Global,
    pub(crate) events: Vec<Event>,
    pub(crate) until: Option<u64>,
    ghost repeats: { repeats_in events.items < 2 ^ 63 },
    ghost born: { born_in events.items < 2 ^ 63 },
    ghost wants: { ForSome until (λ count. 1 ≤ count) },
}

impl Heard {
    pub(crate) fn new(alloc: Global, until: Option<u64>) -> Heard
        requires { ForSome until (λ count. 1 ≤ count) }
        ensures events { result.events.items ≡ [] }
        ensures until { result.until ≡ until }
    {
        Heard {
            alloc,
            events: Vec::new(alloc),
            until,
        }
    }

    /// Keeps a copy of the event. Want of memory leaves what was heard.
    pub(crate) fn keep(&mut self, event: &Event) -> Result<Heed, AllocError>
        requires { CanTell self.old.until self.old.events.items event.now }
        ensures ok { OnOk result (self.new.events.items ≡ self.old.events.items ++ event.now ∷ []) }
        ensures err { OnErr result (self.new.events.items ≡ self.old.events.items) }
        ensures heed { IfOk result (λ heed. heed ≡ heed_of self.old.until self.new.events.items) }
        ensures until { self.new.until ≡ self.old.until }
    {
        let copy = event.copy(self.alloc)?;
        self.events.push(copy)?;
        Ok(heed_at(self.until, self.events.len() as u64))
    }
}

fn heed_at(until: Option<u64>, count: u64) -> Heed
    ensures { result ≡ heed_at until count }
{
    match until {
        Some(last) => { if count == last { Heed::Done } else { Heed::Go } }
        None => Heed::Go,
    }
}
