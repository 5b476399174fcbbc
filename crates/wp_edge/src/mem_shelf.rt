//! A shelf of files in memory, for tests: it tells its contents, and fails at the calls that it is told to.

ghost use Rattle.std.specs.Prelude.{◌≡◌, ◌≤◌, ◌⊎◌, ◌↔◌, IsTrue, Some, None, Err, IfOk, IfErr, IfSome, IfNone};
ghost use Rattle.wp_edge.specs.Fetch.{IsFetched, IsCause, IsMissing};
ghost use Rattle.wp_edge.specs.Folder.{contents_of, found};
ghost use Rattle.wp_edge.specs.Fakes.{fails_next, fetched_once, IsRead};

use crate::calls::{count, count_call};
use crate::files::{File, Files};
use crate::lists::numbers::Numbers;
use crate::lists::text::Text;
use crate::shelf::{FetchError, Shelf};
use std::alloc::Global;
use std::marker::Model;

/// Files in memory. Of files of one name the first counts.
#[derive(Debug, Drop)]
pub struct MemShelf {
    files: Files,
    fails: Numbers,
    calls: u64,
    faults: u64,
}

impl Model for MemShelf {
    ghost use Rattle.wp_edge.specs.Fakes.{Shelved};

    ghost Value = { Shelved };

    ghost view = { λ a. record { files = a.files; fails = a.fails; calls = a.calls; faults = a.faults } };
}

impl MemShelf {
    /// The shelf of these files, whose calls of the numbers in `fails`, from 1, are to fail.
    pub fn new(files: Files, fails: Numbers) -> MemShelf
        ensures { result ≡ record { files = files; fails = fails; calls = 0; faults = 0 } }
    {
        MemShelf {
            files,
            fails,
            calls: 0,
            faults: 0,
        }
    }
}

impl Shelf for MemShelf {
    ghost use Rattle.std.specs.Prelude.{Some};
    ghost use Rattle.wp_edge.specs.Folder.{contents_of};

    ghost contents = { λ shelf. Some (contents_of shelf.files) };

    ghost faults = { λ shelf. shelf.faults };

    fn fetch(&mut self, alloc: Global, name: &str, limit: u64) -> Result<Vec<u8>, FetchError>
        ensures ok { IfOk result (λ bytes. IsFetched (Some (contents_of self.old.files)) name.now limit bytes.items) }
        ensures err { IfErr result (IsCause (Some (contents_of self.old.files)) name.now limit self.old.faults self.new.faults) }
        ensures same { Some (contents_of self.new.files) ≡ Some (contents_of self.old.files) }
        ensures later { self.old.faults ≤ self.new.faults }

        // A listed call fails and is counted; a name that is not there fails and is not.
        ensures counts { self.new ≡ fetched_once self.old }
        ensures fails { (result ≡ Err FetchError.Failed) ↔ (IsTrue (fails_next self.old) ⊎ IsMissing (Some (contents_of self.old.files)) name.now) }
    {
        if count_call(self.fails.as_slice(), &mut self.calls) {
            count(&mut self.faults);
            return Err(FetchError::Failed);
        }
        read_file(alloc, self.files.as_slice(), name.as_bytes(), limit)
    }
}

/// The bytes of the first file of that name, where they are within the limit.
fn read_file(alloc: Global, files: &[File], name: &[u8], limit: u64) -> Result<Vec<u8>, FetchError>
    ensures { IsRead (found files.now name.now) limit result }
{
    match find_file(files, name) {
        Some(bytes) => read_within(alloc, bytes.as_slice(), limit),
        None => Err(FetchError::Failed),
    }
}

/// The bytes of the first file of that name.
#[tactic(auto, using(crate::proofs::FolderLemmas::found_steps))]
fn find_file<'a>(files: &'a [File], name: &[u8]) -> Option<&'a Text>
    ensures there { IfSome result (λ bytes. found files.entry.now name.entry.now ≡ Some bytes.now) }
    ensures missing { IfNone result (found files.entry.now name.entry.now ≡ None) }
{
    for file in files {
        if name == file.name.as_slice() {
            return Some(&file.bytes);
        }
    }
    None
}

/// The bytes, where they are within the limit.
fn read_within(alloc: Global, bytes: &[u8], limit: u64) -> Result<Vec<u8>, FetchError>
    ensures { IsRead (Some bytes.now) limit result }
{
    if bytes.len() as u64 > limit {
        return Err(FetchError::TooLong { got: limit + 1 });
    }
    Ok(Vec::from_slice(alloc, bytes)?)
}
