//! `check` over a chain of two actions, where a fetch fails, a put, or both.

ghost use Rattle.std.specs.Prelude.{◌≤◌};

use crate::plan::answered;
use crate::untold::{UntoldShelf, UntoldSink};
use std::alloc::{AllocError, Global};
use std::process::Abort;
use std::test::Fail;
use std::thread::Threads;
use wp_edge::{File, Files, MemShelf, MemSink, Numbers, Text};

const DOMAIN: &str = "(define (domain chain) (:predicates (a) (b) (c))
 (:action s1 :precondition (a) :effect (b))
 (:action s2 :precondition (b) :effect (and (not (a)) (c))))
";

const PROBLEM: &str = "(define (problem p) (:domain chain) (:init (a)) (:goal (c)))
";

fn text(alloc: Global, bytes: &str) -> Result<Text, AllocError> {
    Ok(Text::of_vec(Vec::from_slice(alloc, bytes.as_bytes())?))
}

fn file(alloc: Global, name: &str, bytes: &str) -> Result<File, AllocError> {
    Ok(File {
        name: text(alloc, name)?,
        bytes: text(alloc, bytes)?,
    })
}

/// The chain with a plan; the fetches of these numbers fail.
pub(crate) fn shelf(alloc: Global, plan: &str, fails: &[u64]) -> Result<MemShelf, AllocError> {
    shelf_of(alloc, DOMAIN, PROBLEM, plan, fails)
}

pub(crate) fn shelf_of(
    alloc: Global,
    domain: &str,
    problem: &str,
    plan: &str,
    fails: &[u64],
) -> Result<MemShelf, AllocError> {
    let mut files = Vec::new(alloc);
    files.push(file(alloc, "d", domain)?)?;
    files.push(file(alloc, "p", problem)?)?;
    files.push(file(alloc, "plan", plan)?)?;
    let fails = Numbers::of_vec(Vec::from_slice(alloc, fails)?);
    Ok(MemShelf::new(Files::of_vec(files), fails))
}

/// An output of 400 bytes that takes `most` a call; the calls of these numbers fail.
pub(crate) fn sink(alloc: Global, most: u64, fails: &[u64]) -> Result<MemSink, AllocError>
    requires { 1 ≤ most }
{
    MemSink::new(
        alloc,
        400,
        most,
        Numbers::of_vec(Vec::from_slice(alloc, fails)?),
    )
}

/// A fetch and a put of the check of a valid plan fail, of the numbers that are given, from 1; the output takes three bytes a put.
fn check_plan<R: Abort + Threads + Sync>(
    rt: &R,
    alloc: Global,
    (fetch, put): (u64, u64),
    status: u8,
    held: &str,
) -> Result<(), Fail> {
    let line = ["check", "d", "p", "plan"];
    let mut shelf = shelf(alloc, "(s1)(s2)", &[fetch])?;
    let mut sink = sink(alloc, 3, &[put])?;
    let answer = answered(rt, alloc, &line, &mut shelf, &mut sink, Vec::new(alloc))?;
    assert_eq!(rt; answer.code(), status, "fetch {fetch} and put {put}");
    assert_eq!(rt; sink.held(), held.as_bytes(), "fetch {fetch} and put {put}");
    Ok(())
}

/// The same over a shelf and a sink that tell nothing but their counts.
fn check_plan_untold<R: Abort + Threads + Sync>(
    rt: &R,
    alloc: Global,
    (fetch, put): (u64, u64),
    status: u8,
    held: &str,
) -> Result<(), Fail> {
    let line = ["check", "d", "p", "plan"];
    let mut shelf = UntoldShelf::new(shelf(alloc, "(s1)(s2)", &[fetch])?);
    let mut sink = UntoldSink {
        told: sink(alloc, 3, &[put])?,
    };
    let answer = answered(rt, alloc, &line, &mut shelf, &mut sink, Vec::new(alloc))?;
    assert_eq!(rt;
        answer.code(),
        status,
        "untold, fetch {fetch} and put {put}"
    );
    assert_eq!(rt;
        sink.told.held(),
        held.as_bytes(),
        "untold, fetch {fetch} and put {put}"
    );
    Ok(())
}

// A fetch or put of number 0 is none.
#[test]
fn a_failed_fetch_is_named_and_a_failed_put_cuts_the_text(rt: HostRuntime) -> Result<(), Fail> {
    let alloc = rt.alloc();
    for (fails, status, held) in [
        ((1, 0), 20, "; read fault: domain\n"),
        ((2, 0), 20, "; read fault: problem\n"),
        ((3, 0), 20, "; read fault: plan\n"),
        ((0, 1), 21, ""),
        ((0, 2), 21, "; v"),
        ((0, 3), 21, "; vali"),
        ((0, 4), 21, "; valid s"),
        ((0, 5), 21, "; valid step"),
        ((0, 6), 21, "; valid steps 2"),
        ((0, 7), 0, "; valid steps 2\n"),
        ((2, 2), 21, "; r"),
    ] {
        check_plan(&rt, alloc, fails, status, held)?;
        check_plan_untold(&rt, alloc, fails, status, held)?;
    }
    Ok(())
}
