//! A watcher: who hears the events of a search and says something of them.
ghost use Rattle.std.specs.Prelude.{◌≡◌, ◌≤◌, ◌++◌, ◌∷◌, [], ℕ, List, Option, IfOk, OnErr, OnOk};
ghost use Rattle.std.specs.Option.{ForSome};
ghost use Rattle.wp_watch.specs.Places.{CanTell, heed_of};
ghost use Rattle.wp_watch.specs.Texts.{says};

use crate::event::Event;
use std::alloc::{AllocError, Global};
use wp_edge::Text;

/// What a watcher says of the events: their counts; a line for each expansion and each child; a line for each expansion
/// with fewer unmet goals than all before; nothing.
#[derive(Clone, Copy, Drop, PartialEq, Eq)]
pub enum WatchKind {
    Tally,
    Trace,
    Fronts,
    Silent,
}

/// Whether a watcher wants to hear more.
#[derive(Clone, Copy, Drop, PartialEq, Eq)]
pub enum Heed {
    Go,
    Done,
}

/// A search observer: it hears events, and its text is a function of its kind and of what it heard.
///
/// `told` are the events that it heard, in order; `until` is how many it wants, at least one, where it does not want all.
pub trait Watch: Drop {
    ghost use Rattle.wp_watch.specs.declared.event.Event.{Event};
    ghost use Rattle.wp_watch.specs.declared.watch.WatchKind.{WatchKind};

    ghost kind: { Self → WatchKind };

    ghost told: { Self → List Event };

    ghost until: { Self → Option ℕ };

    /// Its kind. That it wants at least one event is said here, since no law of a trait is known at a `dyn`.
    fn kind(&self) -> WatchKind
        ensures kind { result ≡ kind self.now }
        ensures wants { ForSome (until self.now) (λ count. 1 ≤ count) };

    /// Hears an event, and is done where it was the last one that it wants. Want of memory leaves it as it was.
    fn saw(&mut self, event: &Event) -> Result<Heed, AllocError>
        requires { CanTell (until self.old) (told self.old) event.now }
        ensures ok { OnOk result (told self.new ≡ told self.old ++ event.now ∷ []) }
        ensures err { OnErr result (told self.new ≡ told self.old) }
        ensures heed { IfOk result (λ heed. heed ≡ heed_of (until self.old) (told self.new)) }
        ensures kind { kind self.new ≡ kind self.old }
        ensures until { until self.new ≡ until self.old };

    /// The text of its kind and of the events that it heard.
    fn say(&self, alloc: Global) -> Result<Text, AllocError>
        ensures { IfOk result (λ text. text ≡ says (kind self.now) (told self.now)) };
}
