//! `plan` over a chain of two actions, and outputs that take a few bytes a call.

ghost use Rattle.std.specs.Prelude.{◌≡◌, ◌≤◌, [], All};

use crate::check::{shelf, sink};
use std::alloc::{AllocError, Global};
use std::process::Abort;
use std::test::Fail;
use std::thread::Threads;
use wp_app::{Status, run_words};
use wp_edge::{OpenGate, Shelf, Sink};
use wp_watch::Watch;

const PLANNED: &str =
    "(s1)\n(s2)\n; found steps 2 expanded 2 numbered 3 kept 3 pruned 0 repeats 1 pairs 3\n";

pub(crate) fn words(alloc: Global, line: &[&str]) -> Result<Vec<String>, AllocError> {
    let mut words = Vec::new(alloc);
    for word in line {
        words.push(String::from_str(alloc, word)?)?;
    }
    Ok(words)
}

/// What the words of a line answer, with these watchers.
pub(crate) fn answered<R: Threads + Sync, S: Shelf, K: Sink>(
    rt: &R,
    alloc: Global,
    line: &[&str],
    shelf: &mut S,
    sink: &mut K,
    watchers: Vec<Box<dyn Watch>>,
) -> Result<Status, AllocError>
    requires { All (λ watch. told watch ≡ []) watchers.items }
{
    let words = words(alloc, line)?;
    Ok(run_words(
        rt,
        alloc,
        words.as_slice(),
        shelf,
        sink,
        &OpenGate,
        watchers,
    ))
}

/// A plan goes out in pieces of `most` bytes, of which those of these numbers are not taken.
fn check_plan<R: Abort + Threads + Sync>(
    rt: &R,
    alloc: Global,
    most: u64,
    fails: &[u64],
    status: u8,
    held: &str,
) -> Result<(), Fail>
    requires { 1 ≤ most }
{
    let line = ["plan", "d", "p", "--search", "kbfws", "--width", "1"];
    let mut shelf = shelf(alloc, "", &[])?;
    let mut sink = sink(alloc, most, fails)?;
    let answered = answered(rt, alloc, &line, &mut shelf, &mut sink, Vec::new(alloc))?;
    assert_eq!(rt; answered.code(), status);
    assert_eq!(rt; sink.held(), held.as_bytes());
    Ok(())
}

#[test]
fn a_plan_is_printed_as_far_as_it_is_taken(rt: HostRuntime) -> Result<(), Fail> {
    let alloc = rt.alloc();
    check_plan(&rt, alloc, 7, &[], 0, PLANNED)?;
    check_plan(&rt, alloc, 5, &[3], 21, "(s1)\n(s2)\n")
}
