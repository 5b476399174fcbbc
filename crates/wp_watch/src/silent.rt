//! The watcher that says nothing.
ghost use Rattle.std.specs.Prelude.{◌≡◌, ◌≤◌, []};
ghost use Rattle.std.specs.Option.{ForSome};

use crate::event::Event;
use crate::heard::Heard;
use crate::watch::{Heed, Watch, WatchKind};
use std::alloc::{AllocError, Global};
use wp_edge::Text;

/// It hears, and its text is empty.
#[derive(Drop)]
pub struct Silent {
    heard: Heard,
}

impl Silent {
    /// It heard nothing yet, and wants so many events, or all.
    pub fn new(alloc: Global, until: Option<u64>) -> Silent
        requires { ForSome until (λ count. 1 ≤ count) }
        ensures kind { ⟦<Silent as Watch>⟧.kind result ≡ WatchKind.Silent }
        ensures told { ⟦<Silent as Watch>⟧.told result ≡ [] }
        ensures until { ⟦<Silent as Watch>⟧.until result ≡ until }
    {
        Silent {
            heard: Heard::new(alloc, until),
        }
    }
}

impl Watch for Silent {
    ghost use Rattle.wp_watch.specs.declared.watch.WatchKind.TheVariants as kinds;

    ghost kind = { λ _. kinds.Silent };

    ghost told = { λ watch. watch.heard.events.items };

    ghost until = { λ watch. watch.heard.until };

    fn kind(&self) -> WatchKind {
        WatchKind::Silent
    }

    fn saw(&mut self, event: &Event) -> Result<Heed, AllocError> {
        self.heard.keep(event)
    }

    #[tactic(auto, unfolding(crate::specs::Texts::says))]
    fn say(&self, alloc: Global) -> Result<Text, AllocError> {
        Ok(Text::of_vec(Vec::new(alloc)))
    }
}
