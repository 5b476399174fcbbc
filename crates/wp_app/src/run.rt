//! The top call.

ghost use Rattle.std.specs.Prelude.{◌≡◌, ◌≤◌, ◌∷◌, ◌++◌, ℕ, [], List, Option, IfOk, OnOk, None, All, filter, map, string_bytes, IsTrue, if◌then◌else◌};
ghost use Rattle.wp_app.specs.Headline.{Headline, outside_of, Answered, ReadFaulted, WriteFaulted, IsReply, IsReplyTo, IsReached, IsUsageOf, IsUsageOrFault};
ghost use Rattle.wp_watch.specs.declared.watch.WatchKind.{WatchKind};
ghost use Rattle.wp_watch.specs.Places.{AreAfter, AreUntold};
ghost use Rattle.wp_plain.specs.Places.{places_in};
ghost use Rattle.wp_words.specs.Names.{HasNames, IsInRange};
ghost use Rattle.wp_words.specs.Words.{command_of};
ghost use Rattle.wp_app.specs.Requests.{asked_by, keeps_kind};
ghost use Rattle.wp_app.specs.Statuses.{is_defined, is_of_files};
ghost use Rattle.wp_app.specs.Stops.{Follows, IfUnread};
ghost use Rattle.wp_app.specs.Table.{answer_to_request};

use crate::audit::audit_files;
use crate::check::check;
use crate::generate::generated;
use crate::ground::ground_files;
use crate::plan::plan_files;
use crate::put::put_all;
use crate::reply::{Reply, Status};
use crate::stop::Stop;
use std::alloc::{AllocError, Global};
use std::thread::Threads;
use wp_edge::{Gate, Shelf, Sink};
use wp_report::{read_fault_text, usage_text};
use wp_watch::{Watch, WatchKind, Watchers};
use wp_words::{Command, WordsError, command};

/// Reads the words, fetches their files, and writes the answer.
///
/// Words are those after the program's name. The whole text is made before its first byte is put, so that an answer for
/// want of memory writes nothing.
pub fn run_words<R: Threads + Sync, S: Shelf, K: Sink, G: Gate>(
    rt: &R,
    alloc: Global,
    words: &[String],
    shelf: &mut S,
    sink: &mut K,
    gate: &G,
    watchers: Vec<Box<dyn Watch>>,
) -> Status
    requires { All (λ watch. told watch ≡ []) watchers.items }
    ensures headline { Headline (asked_by kind until (map string_bytes words.now) watchers.items)
        (outside_of (S.contents shelf.old) (S.faults shelf.old) (S.faults shelf.new)
        (K.held sink.old) (K.held sink.new) (K.faults sink.old) (K.faults sink.new)) result }
    ensures defined { IsTrue (is_defined result) →
        Answered (asked_by kind until (map string_bytes words.now) watchers.items)
        (outside_of (S.contents shelf.old) (S.faults shelf.old) (S.faults shelf.new)
        (K.held sink.old) (K.held sink.new) (K.faults sink.old) (K.faults sink.new)) result }
    ensures read_fault { result ≡ Status.ReadFault →
        ReadFaulted (asked_by kind until (map string_bytes words.now) watchers.items)
        (outside_of (S.contents shelf.old) (S.faults shelf.old) (S.faults shelf.new)
        (K.held sink.old) (K.held sink.new) (K.faults sink.old) (K.faults sink.new)) }
    ensures write_fault { result ≡ Status.WriteFault →
        WriteFaulted (asked_by kind until (map string_bytes words.now) watchers.items)
        (outside_of (S.contents shelf.old) (S.faults shelf.old) (S.faults shelf.new)
        (K.held sink.old) (K.held sink.new) (K.faults sink.old) (K.faults sink.new)) }
    ensures memory { result ≡ Status.Memory → K.held sink.new ≡ K.held sink.old }
    // Whatever shelf and sink are: exactly where the words have no command, or a write fault or want of memory in its place.
    ensures usage { result ≡ Status.Usage → command_of (map string_bytes words.now) ≡ None }
    ensures no_command { command_of (map string_bytes words.now) ≡ None → IsUsageOrFault result }
    ensures contents { S.contents shelf.new ≡ S.contents shelf.old }
    ensures shelf_later { S.faults shelf.old ≤ S.faults shelf.new }
    ensures sink_later { K.faults sink.old ≤ K.faults sink.new }
{
    let Ok(reply) = reply_to(rt, alloc, words, shelf, gate, watchers) else {
        return Status::Memory;
    };
    match put_all(sink, reply.text.as_slice()) {
        Ok(()) => reply.status,
        Err(_) => Status::WriteFault,
    }
}

/// What is to be written.
fn reply_to<R: Threads + Sync, S: Shelf, G: Gate>(
    rt: &R,
    alloc: Global,
    words: &[String],
    shelf: &mut S,
    gate: &G,
    watchers: Vec<Box<dyn Watch>>,
) -> Result<Reply, AllocError>
    requires { All (λ watch. told watch ≡ []) watchers.items }
    ensures is { IfOk result (IsReply
        (asked_by kind until (map string_bytes words.now) watchers.items)
        (S.contents shelf.old) (S.faults shelf.old) (S.faults shelf.new)) }
    ensures usage { IfOk result
        (IsUsageOf (asked_by kind until (map string_bytes words.now) watchers.items)) }
    ensures contents { S.contents shelf.new ≡ S.contents shelf.old }
    ensures later { S.faults shelf.old ≤ S.faults shelf.new }
{
    match command(alloc, words) {
        Ok(command) => {
            let kept = kept_for(alloc, &command, watchers)?;
            let watchers = Watchers::new(alloc, kept)?;
            command_reply(rt, alloc, &command, shelf, gate, watchers)
        }
        Err(WordsError::Usage) => Ok(Reply {
            text: usage_text(alloc)?,
            status: Status::Usage,
        }),
        Err(WordsError::Memory) => Err(AllocError),
    }
}

/// The watchers that a command keeps, in their order. The others are dropped at once.
fn kept_for(
    alloc: Global,
    command: &Command,
    watchers: Vec<Box<dyn Watch>>,
) -> Result<Vec<Box<dyn Watch>>, AllocError>
    ensures { IfOk result (λ kept.
        kept.items ≡ filter (λ watch. keeps_kind command.now (kind watch)) watchers.items) }
{
    let mut kept = Vec::new(alloc);
    for watch in watchers {
        push_kept(&mut kept, command, watch)?;
    }
    Ok(kept)
}

fn push_kept(
    kept: &mut Vec<Box<dyn Watch>>,
    command: &Command,
    watch: Box<dyn Watch>,
) -> Result<(), AllocError>
    ensures { OnOk result (kept.new.items
        ≡ kept.old.items ++ (if keeps_kind command.now (kind watch) then watch ∷ [] else [])) }
{
    if keeps_kind(command, watch.kind()) {
        kept.push(watch)?;
    }
    Ok(())
}

/// Whether a command keeps the watchers of a kind: a search those that its words ask for, and the silent ones.
fn keeps_kind(command: &Command, kind: WatchKind) -> bool
    ensures { result ≡ keeps_kind command.now kind }
{
    match command {
        Command::Plan { watch, .. } | Command::Gen { watch, .. } => {
            kind == WatchKind::Silent || watch.as_slice().contains(&kind)
        }
        Command::Check { .. } | Command::Ground { .. } | Command::Audit { .. } => false,
    }
}

/// What is to be written for a command.
fn command_reply<R: Threads + Sync, S: Shelf, G: Gate>(
    rt: &R,
    alloc: Global,
    command: &Command,
    shelf: &mut S,
    gate: &G,
    watchers: Watchers,
) -> Result<Reply, AllocError>
    requires names { HasNames command.now }
    requires range { IsInRange command.now }
    requires untold { AreUntold (places_in kind until told watchers) }
    ensures is { IfOk result (λ reply. (list : List (WatchKind × Option ℕ))
        → AreAfter list [] (places_in kind until told watchers) →
        IsReplyTo (record { command = command.now; watchers = list })
        (S.contents shelf.old) (S.faults shelf.old) (S.faults shelf.new) reply) }
    ensures contents { S.contents shelf.new ≡ S.contents shelf.old }
    ensures later { S.faults shelf.old ≤ S.faults shelf.new }
{
    match run_command(rt, alloc, command, shelf, gate, watchers) {
        Ok(reply) => Ok(reply),
        Err(Stop::Ends { reply }) => Ok(reply),
        Err(Stop::ReadFault { part }) => Ok(Reply {
            text: read_fault_text(alloc, part)?,
            status: Status::ReadFault,
        }),
        Err(Stop::Memory) => Err(AllocError),
    }
}

/// The answer to a command.
#[tactic(auto, unfolding(crate::specs::Table::answer_to_request))]
fn run_command<R: Threads + Sync, S: Shelf, G: Gate>(
    rt: &R,
    alloc: Global,
    command: &Command,
    shelf: &mut S,
    gate: &G,
    watchers: Watchers,
) -> Result<Reply, Stop>
    requires names { HasNames command.now }
    requires range { IsInRange command.now }
    requires untold { AreUntold (places_in kind until told watchers) }
    ensures follows { (list : List (WatchKind × Option ℕ))
        → AreAfter list [] (places_in kind until told watchers) → Follows (S.contents shelf.old)
        (answer_to_request (record { command = command.now; watchers = list }))
        (S.faults shelf.old) (S.faults shelf.new) result }
    ensures defined { IfOk result (λ reply. IsTrue (is_of_files reply.status)) }
    ensures unread { IfUnread result (IsReached (S.contents shelf.old) command.now) }
    ensures contents { S.contents shelf.new ≡ S.contents shelf.old }
    ensures later { S.faults shelf.old ≤ S.faults shelf.new }
{
    match command {
        Command::Check {
            domain,
            problem,
            plan,
        } => check(alloc, shelf, domain, problem, plan),
        Command::Ground { domain, problem } => ground_files(alloc, shelf, domain, problem),
        Command::Plan {
            domain,
            problem,
            settings,
            watch: _,
            plain,
            closed,
        } => plan_files(
            rt, alloc, shelf, domain, problem, settings, *plain, *closed, gate, watchers,
        ),
        Command::Gen {
            number,
            size,
            settings,
            watch: _,
            plain,
        } => generated(rt, alloc, *number, *size, settings, *plain, gate, watchers),
        Command::Audit {
            domain,
            problem,
            certificate,
        } => audit_files(alloc, shelf, domain, problem, certificate),
    }
}
