//! Lists of kinds of watchers.
ghost use Rattle.std.specs.Prelude.{◌≡◌};

use crate::watch::WatchKind;
use std::marker::Model;

/// Kinds of watchers, in order.
#[derive(Drop)]
pub struct WatchKinds {
    items: Vec<WatchKind>,
}

impl Model for WatchKinds {
    ghost use Rattle.std.specs.Prelude.{List};
    ghost use Rattle.wp_watch.specs.declared.watch.WatchKind.{WatchKind};

    ghost Value = { List WatchKind };

    ghost view = { λ k. k.items.items };
}

impl WatchKinds {
    pub fn of_vec(items: Vec<WatchKind>) -> WatchKinds
        ensures { result ≡ items.items }
    {
        WatchKinds { items }
    }

    pub fn into_vec(self) -> Vec<WatchKind>
        ensures { result.items ≡ self }
    {
        let WatchKinds { items } = self;
        items
    }

    pub fn as_slice(&self) -> &[WatchKind]
        ensures { result.now ≡ self.now }
    {
        self.items.as_slice()
    }
}
