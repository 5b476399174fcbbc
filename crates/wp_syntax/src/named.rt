//! Items that have a name, and whether one has a given name already.

ghost use Rattle.std.specs.Prelude.{◌≡◌};
ghost use Rattle.wp_syntax.specs.Named.{has_named};

use crate::records::{ActionText, Name, PredText, Typed};
use wp_edge::Text;

/// So many predicates, and so many actions, a domain may have.
pub const MOST_DECLARED: u32 = 4096;

/// So many parameters an action or a predicate may have.
pub const MOST_PARAMS: u32 = 32;

/// What is declared by a name.
pub trait Named {
    ghost use Rattle.wp_syntax.specs.declared.records.Name.{Name};

    ghost name_of: { Self → Name };

    fn name(&self) -> &Name
        ensures { result.now ≡ name_of self.now };
}

impl Named for Name {
    ghost name_of = { λ name. name };

    fn name(&self) -> &Name {
        self
    }
}

impl Named for Typed {
    ghost name_of = { λ typed. typed.name };

    fn name(&self) -> &Name {
        &self.name
    }
}

impl Named for PredText {
    ghost name_of = { λ pred. pred.name };

    fn name(&self) -> &Name {
        &self.name
    }
}

impl Named for ActionText {
    ghost name_of = { λ action. action.name };

    fn name(&self) -> &Name {
        &self.name
    }
}

/// Whether one of the items has the name.
pub fn has_named<T: Named>(text: &Text, items: &[T]) -> bool
    ensures { result ≡ has_named T.name_of text.now items.now }
{
    items
        .iter()
        .any(|item| item.name().text.as_slice() == text.as_slice())
}
