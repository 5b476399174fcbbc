//! The program: the top call over the real files and the real output.
//!
//! `FileShelf` and `OutSink` are the trusted edge. No contract says which bytes a file has or what the system
//! does with those that it is given; proved of both is that they keep to the traits of wp_edge.
#![tactic(auto)]

mod file_shelf;
mod out_sink;

use file_shelf::FileShelf;
use out_sink::OutSink;
use std::alloc::AllocError;
use std::env;
use std::io::ErrorKind;
use std::process::ExitCode;
use std::rt::{Env, Files};
use std::thread::Threads;
use wp_app::{Status, run_words};
use wp_edge::OpenGate;
use wp_watch::{Fronts, Tally, Trace, Watch};

fn main(rt: HostRuntime) -> ExitCode {
    ExitCode::from(run(&rt).code())
}

/// Runs the words that the program was started with.
fn run<R: Env + Files + Print + AllocGlobal + Threads + Sync>(rt: &R) -> Status {
    let Ok(words) = given_words(rt) else {
        return Status::Memory;
    };
    match watched(rt, words.as_slice()) {
        Ok(status) => status,
        Err(_) => Status::Memory,
    }
}

/// Runs the words with a watcher of each kind that they can ask for, in the order of their texts.
fn watched<R: Files + Print + AllocGlobal + Threads + Sync>(
    rt: &R,
    words: &[String],
) -> Result<Status, AllocError> {
    let alloc = rt.alloc();
    let mut watchers: Vec<Box<dyn Watch>> = Vec::new(alloc);
    watchers.push(Box::new(alloc, Tally::new(alloc, None))?)?;
    watchers.push(Box::new(alloc, Trace::new(alloc, None))?)?;
    watchers.push(Box::new(alloc, Fronts::new(alloc, None))?)?;
    let mut shelf = FileShelf::new(rt);
    let mut sink = OutSink::new(rt);
    Ok(run_words(rt, alloc, words, &mut shelf, &mut sink, &OpenGate, watchers))
}

/// The words after the program's name. Where one of them is not text there are none: they name no command.
fn given_words<R: Env + AllocGlobal>(rt: &R) -> Result<Vec<String>, AllocError> {
    match env::args(rt) {
        Ok(words) => words.skip(1).collect(rt.alloc()),
        Err(error) if error.kind() == ErrorKind::OutOfMemory => Err(AllocError),
        Err(_) => Ok(Vec::new(rt.alloc())),
    }
}
