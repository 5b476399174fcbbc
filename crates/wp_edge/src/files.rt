//! Files as values: a name and bytes.

ghost use Rattle.std.specs.Prelude.{◌≡◌};

use crate::lists::text::Text;
use std::marker::Model;

#[derive(Debug, Drop)]
pub struct File {
    pub name: Text,
    pub bytes: Text,
}

/// A list of files.
#[derive(Debug, Drop)]
pub struct Files {
    items: Vec<File>,
}

impl Model for Files {
    ghost use Rattle.std.specs.Prelude.{List};
    ghost use Rattle.wp_edge.specs.declared.files.File.{File};

    ghost Value = { List File };

    ghost view = { λ a. a.items.items };
}

impl Files {
    /// The list of these items, in their order.
    pub fn of_vec(items: Vec<File>) -> Files
        ensures { result ≡ items.items }
    {
        Files { items }
    }

    pub fn into_vec(self) -> Vec<File>
        ensures { result.items ≡ self }
    {
        let Files { items } = self;
        items
    }

    pub fn as_slice(&self) -> &[File]
        ensures { result.now ≡ self.now }
    {
        self.items.as_slice()
    }
}
