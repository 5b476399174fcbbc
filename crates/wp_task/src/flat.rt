//! Lists of numbers, one after another in one vector.
ghost use Rattle.std.specs.Prelude.{◌≡◌, ◌++◌, ◌∷◌, [], ◌+◌, ◌<◌, ◌≤◌, length, slice_index, slice_index_or, slice_range, IfOk, OnOk};

use std::alloc::{AllocError, Global};
use std::marker::Model;

/// Lists of numbers, by place.
#[derive(Drop)]
pub(crate) struct Flat {
    offsets: Vec<usize>,
    items: Vec<u32>,
}

impl Model for Flat {
    ghost use Rattle.std.specs.Prelude.{List, ℕ};
    ghost use Rattle.wp_task.specs.Flat.{lists_in, AreOffsets};

    ghost Value = { List (List ℕ) };

    ghost view = { λ f. lists_in f.offsets.items f.items.items };

    ghost invariant = { λ f. AreOffsets f.offsets.items f.items.items };
}

impl Flat {
    /// No list.
    pub(crate) fn new(alloc: Global) -> Result<Flat, AllocError>
        ensures { IfOk result (λ flat. flat ≡ []) }
    {
        let offsets = vec![in alloc; 0usize; 1]?;
        Ok(Flat {
            offsets,
            items: Vec::new(alloc),
        })
    }

    /// One list more.
    pub(crate) fn push(&mut self, list: &[u32]) -> Result<(), AllocError>
        ensures { OnOk result (self.new ≡ self.old ++ list.now ∷ []) }
    {
        self.offsets.reserve(1)?;
        self.items.extend_from_slice(list)?;
        self.offsets.push(self.items.len())?;
        Ok(())
    }

    /// The list at a place.
    pub(crate) fn at(&self, place: u32) -> &[u32]
        requires { place < length self.now }
        ensures { result.now ≡ slice_index_or self.now place [] }
    {
        part(self.items.as_slice(), self.offsets.as_slice(), place)
    }

    /// How many lists there are.
    pub(crate) fn len(&self) -> usize
        ensures { result ≡ length self.now }
    {
        self.offsets.len() - 1
    }
}

/// The items from an offset up to the next.
fn part<'a>(items: &'a [u32], offsets: &[usize], place: u32) -> &'a [u32]
    requires place { place + 1 < length offsets.now }
    requires rising { slice_index offsets.now place ≤ slice_index offsets.now (place + 1) }
    requires within { slice_index offsets.now (place + 1) ≤ length items.now }
    ensures { result.now ≡ slice_range items.now (slice_index offsets.now place) (slice_index offsets.now (place + 1)) }
{
    &items[offsets[place as usize]..offsets[place as usize + 1]]
}
