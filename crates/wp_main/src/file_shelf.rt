//! The real shelf: files of the system, each opened by its path and read up to the limit.

ghost use Rattle.std.specs.Prelude.{◌≡◌, ◌≤◌, ℕ, IfOk, None, length, vec_len};
ghost use Rattle.wp_main.specs.Reads.{IsFaultOrMemory, IsBounded, IsWhole};

use std::alloc::Global;
use std::fs;
use std::io::{Error, ErrorKind, Read};
use std::rt::Files;
use wp_edge::{FetchError, Shelf};

/// How much a read asks for at most.
const CHUNK: u64 = 16_384;

/// The files of the system. It tells nothing of what they contain.
#[derive(Drop)]
pub struct FileShelf<'a, R: Files> {
    rt: &'a R,
    faults: u64,
}

impl<'a, R: Files> FileShelf<'a, R> {
    /// The files that this runtime opens, with no fault so far.
    pub fn new(rt: &'a R) -> FileShelf<'a, R>
        ensures { result.faults ≡ 0 }
    {
        FileShelf { rt, faults: 0 }
    }
}

impl<'a, R: Files> Shelf for FileShelf<'a, R> {
    ghost use Rattle.std.specs.Prelude.{None};

    ghost contents = { λ _. None };

    ghost faults = { λ shelf. shelf.faults };

    fn fetch(&mut self, alloc: Global, name: &str, limit: u64) -> Result<Vec<u8>, FetchError> {
        let read = read_path(self.rt, alloc, name, limit);
        if let Err(FetchError::Failed) = read {
            self.faults = self.faults.saturating_add(1);
        }
        read
    }
}

/// The bytes of the file at that path.
fn read_path<R: Files>(rt: &R, alloc: Global, path: &str, limit: u64) -> Result<Vec<u8>, FetchError>
    ensures { IsBounded limit result }
{
    match fs::open(rt, path) {
        Ok(mut file) => read_to_limit(alloc, &mut file, limit),
        Err(error) => Err(fault_of(&error)),
    }
}

/// All bytes that are left, read until a read gives none, or until one more than the limit has come.
fn read_to_limit<F: Read>(alloc: Global, file: &mut F, limit: u64) -> Result<Vec<u8>, FetchError>
    ensures bounded { IsBounded limit result }
    ensures whole { IsWhole (F.remaining file.old) limit result }
{
    let mut bytes = Vec::new(alloc);
    let mut chunk = [0u8; CHUNK as usize];
    for _ in 0..u64::MAX {
        let left = (limit - bytes.len() as u64).saturating_add(1);
        match file.read(&mut chunk[..left.min(CHUNK) as usize]) {
            Ok(0) => return Ok(bytes),
            Ok(count) => bytes.extend_from_slice(&chunk[..count])?,
            Err(error) => return Err(fault_of(&error)),
        }
        if bytes.len() as u64 > limit {
            return Err(FetchError::TooLong { got: limit + 1 });
        }
    }
    Err(FetchError::Failed)
}

/// What an error of the system is to the shelf: want of memory, or else a failure.
fn fault_of(error: &Error) -> FetchError
    ensures { IsFaultOrMemory result }
{
    match error.kind() {
        ErrorKind::OutOfMemory => FetchError::Memory,
        _ => FetchError::Failed,
    }
}

#[cfg(test)]
mod tests {
    use super::*;
    use std::test::Fail;

    const PATH: &str = "file_shelf_test.pddl";

    #[test]
    fn a_file_is_read_whole_and_a_missing_one_is_a_fault(rt: HostRuntime) -> Result<(), Fail> {
        fs::write(&rt, PATH, "(define (domain d))")?;
        let mut shelf = FileShelf::new(&rt);
        let bytes = shelf.fetch(rt.alloc(), PATH, 19)?;
        assert_eq!(rt; bytes.as_slice(), b"(define (domain d))".as_slice());
        let cut = shelf.fetch(rt.alloc(), PATH, 18);
        assert!(rt; matches!(cut, Err(FetchError::TooLong { got: 19 })));
        assert_eq!(rt; shelf.faults, 0);
        fs::remove_file(&rt, PATH)?;
        let missing = shelf.fetch(rt.alloc(), PATH, 19);
        assert!(rt; matches!(missing, Err(FetchError::Failed)));
        let folder = shelf.fetch(rt.alloc(), ".", 19);
        assert!(rt; matches!(folder, Err(FetchError::Failed)));
        assert_eq!(rt; shelf.faults, 2);
        Ok(())
    }
}
