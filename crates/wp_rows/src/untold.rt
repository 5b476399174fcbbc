//! A shelf and a sink that tell nothing but how many of their calls have failed, as those of the program do.

ghost use Rattle.std.specs.Prelude.{◌≡◌};

use std::alloc::Global;
use wp_edge::{FetchError, MemShelf, MemSink, Shelf, Sink, SinkError};

/// Files in memory that are not told. A name that is not there counts as a fault.
#[derive(Drop)]
pub(crate) struct UntoldShelf {
    told: MemShelf,
    faults: u64,
}

impl UntoldShelf {
    pub(crate) fn new(told: MemShelf) -> UntoldShelf {
        UntoldShelf { told, faults: 0 }
    }
}

impl Shelf for UntoldShelf {
    ghost use Rattle.std.specs.Prelude.{None};

    ghost contents = { λ _. None };

    ghost faults = { λ shelf. shelf.faults };

    fn fetch(&mut self, alloc: Global, name: &str, limit: u64) -> Result<Vec<u8>, FetchError> {
        let fetched = self.told.fetch(alloc, name, limit);
        if let Err(FetchError::Failed) = fetched {
            self.faults = self.faults.saturating_add(1);
        }
        fetched
    }
}

/// An output in memory that does not say what it holds.
#[derive(Drop)]
pub(crate) struct UntoldSink {
    pub(crate) told: MemSink,
}

impl Sink for UntoldSink {
    ghost use Rattle.std.specs.Prelude.{None};

    ghost held = { λ _. None };

    ghost faults = { λ sink. sink.told.faults };

    fn put(&mut self, piece: &[u8]) -> Result<u64, SinkError> {
        self.told.put(piece)
    }
}
