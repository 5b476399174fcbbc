//! Names by number.

ghost use Rattle.std.specs.Prelude.{◌≡◌, ◌^◌, ◌<◌, [], ◌∷◌, ◌++◌, length, IfOk};
ghost use Rattle.std.specs.Prelude.{List, ℕ, nat_eq};
ghost use Rattle.std.specs.Cmp.Lexicographic.{pointwise};
ghost use Rattle.indexmap.specs.IndexMap.{get};
ghost use Rattle.wp_lift.specs.Names.{number_of};
ghost use Rattle.wp_lift.specs.Numbering.{IsNumbering};

use indexmap::IndexMap;
use std::alloc::{AllocError, Global};
use std::marker::Model;
use wp_edge::{Text, Texts};

/// A list of names, in which a name is found by hashing: its number is the place where it stands first.
#[derive(Drop)]
pub struct NameTable {
    names: Texts,
    numbers: IndexMap<Text, u32>,
}

impl Model for NameTable {
    ghost use Rattle.std.specs.Prelude.{List, ℕ, nat_eq};
    ghost use Rattle.std.specs.Cmp.Lexicographic.{pointwise};
    ghost use Rattle.indexmap.specs.IndexMap.{get};
    ghost use Rattle.wp_lift.specs.Numbering.{IsNumbering};

    ghost Value = { List (List ℕ) };

    ghost view = { λ t. t.names };

    ghost invariant = { λ t. IsNumbering (get (pointwise nat_eq) t.numbers) t.names };
}

impl NameTable {
    /// No names.
    pub fn new(alloc: Global) -> NameTable
        ensures { result ≡ [] }
    {
        NameTable {
            names: Texts::of_vec(Vec::new(alloc)),
            numbers: IndexMap::new(alloc),
        }
    }

    /// The names, by number.
    pub fn names(&self) -> &Texts
        ensures value { result.now ≡ self.now }
        ensures few { length self.now < 2 ^ 32 }
    {
        &self.names
    }

    /// The number of the name. None exactly where it is not there.
    pub fn number_of(&self, name: &Text) -> Option<u32>
        ensures value { result ≡ number_of name.now self.now }
    {
        self.numbers.get(name).copied()
    }

    /// The names with one more at the end. A table has fewer than 2^32 names; more is want of memory.
    pub fn with_name(self, alloc: Global, name: Text) -> Result<NameTable, AllocError>
        ensures { IfOk result (λ table. table ≡ self ++ name ∷ []) }
    {
        let NameTable { names, numbers } = self;
        let mut names = names;
        let numbers = with_number(alloc, numbers, &name, names.as_slice().len())?;
        names.push(name)?;
        Ok(NameTable { names, numbers })
    }
}

// The numbers of the names with one more behind `count` of them. A name that is there keeps its number.
fn with_number(
    alloc: Global,
    numbers: IndexMap<Text, u32>,
    name: &Text,
    count: usize,
) -> Result<IndexMap<Text, u32>, AllocError>
    ensures { IfOk result (λ more. (names : List (List ℕ)) → length names ≡ count
        → IsNumbering (get (pointwise nat_eq) numbers) names
        → IsNumbering (get (pointwise nat_eq) more) (names ++ name.now ∷ [])) }
{
    let mut numbers = numbers;
    if count >= u32::MAX as usize {
        return Err(AllocError);
    }
    if !numbers.contains_key(name) {
        numbers.insert(name.copy(alloc)?, count as u32)?;
    }
    Ok(numbers)
}
