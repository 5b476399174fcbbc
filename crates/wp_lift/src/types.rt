//! Types by number: of objects and parameters, and which are below which.

ghost use Rattle.std.specs.Prelude.{◌≡◌, ◌++◌, ◌∷◌, [], false, slice_index_or, slice_set, IfOk};
ghost use Rattle.std.specs.List.{list_any};

use crate::flags::Flags;
use std::alloc::AllocError;
use std::marker::Model;

/// The numbers of types: those of an object, or those of which a parameter takes one.
#[derive(Drop)]
pub struct TypeNumbers {
    items: Vec<u32>,
}

impl Model for TypeNumbers {
    ghost use Rattle.std.specs.Prelude.{List, ℕ};

    ghost Value = { List ℕ };

    ghost view = { λ a. a.items.items };
}

impl TypeNumbers {
    /// The list of these items, in their order.
    pub fn of_vec(items: Vec<u32>) -> TypeNumbers
        ensures { result ≡ items.items }
    {
        TypeNumbers { items }
    }

    pub fn as_slice(&self) -> &[u32]
        ensures { result.now ≡ self.now }
    {
        self.items.as_slice()
    }
}

/// The types of each object, or of each parameter of a schema.
#[derive(Drop)]
pub struct TypeLists {
    items: Vec<TypeNumbers>,
}

impl Model for TypeLists {
    ghost use Rattle.std.specs.Prelude.{List, ℕ};

    ghost Value = { List (List ℕ) };

    ghost view = { λ a. a.items.items };
}

impl TypeLists {
    /// The list of these items, in their order.
    pub fn of_vec(items: Vec<TypeNumbers>) -> TypeLists
        ensures { result ≡ items.items }
    {
        TypeLists { items }
    }

    /// The list with one more at the end.
    pub fn with_list(self, numbers: TypeNumbers) -> Result<TypeLists, AllocError>
        ensures { IfOk result (λ more. more ≡ self ++ numbers ∷ []) }
    {
        let TypeLists { items } = self;
        let mut items = items;
        items.push(numbers)?;
        Ok(TypeLists { items })
    }

    /// The list with more numbers at the end of those at a place. Past the end nothing changes.
    pub fn with_more(self, place: u32, more: &[u32]) -> Result<TypeLists, AllocError>
        ensures { IfOk result (λ lists. lists ≡ slice_set self place (slice_index_or self place [] ++ more.now)) }
    {
        let TypeLists { items } = self;
        let mut items = items;
        if (place as usize) < items.len() {
            let numbers = &mut items[place as usize];
            numbers.items.extend_from_slice(more)?;
        }
        Ok(TypeLists { items })
    }

    /// The types at a place. None are past the end.
    pub fn at(&self, place: u32) -> &[u32]
        ensures { result.now ≡ slice_index_or self.now place [] }
    {
        match self.items.get(place as usize) {
            Some(numbers) => numbers.as_slice(),
            None => &[],
        }
    }
}

/// Of some types, for each type whether it is above.
#[derive(Drop)]
pub struct Rows {
    items: Vec<Flags>,
}

impl Model for Rows {
    ghost use Rattle.std.specs.Prelude.{List, Bool};

    ghost Value = { List (List Bool) };

    ghost view = { λ a. a.items.items };
}

impl Rows {
    /// The list of these items, in their order.
    pub fn of_vec(items: Vec<Flags>) -> Rows
        ensures { result ≡ items.items }
    {
        Rows { items }
    }

    /// The flag of a row at a place; false past the ends.
    pub fn at(&self, row: u32, place: u32) -> bool
        ensures { result ≡ slice_index_or (slice_index_or self.now row []) place false }
    {
        match self.items.get(row as usize) {
            Some(flags) => flags.at(place),
            None => false,
        }
    }
}

fn is_below_any(subtypes: &Rows, kind: u32, wanted: &[u32]) -> bool
    ensures { result ≡ list_any (λ above. slice_index_or (slice_index_or subtypes.now kind []) above false) wanted.now }
{
    wanted.iter().any(|above| subtypes.at(kind, *above))
}

/// Whether one of the kinds is a subtype of one of those that are wanted.
pub fn is_any_below(subtypes: &Rows, kinds: &[u32], wanted: &[u32]) -> bool
    ensures { result ≡ list_any (λ kind. list_any (λ above. slice_index_or (slice_index_or subtypes.now kind []) above false) wanted.now) kinds.now }
{
    kinds
        .iter()
        .any(|kind| is_below_any(subtypes, *kind, wanted))
}
