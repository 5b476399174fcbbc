//! The answer to `plan`: the domain and the problem are fetched and read, and the task is searched. Where there is no plan, a
//! certificate of that may stand behind.

ghost use Rattle.std.specs.Prelude.{◌≡◌, ◌≤◌, ◌++◌, ℕ, [], List, Option, length, IfOk, OnOk, IsTrue, IsUtf8};
ghost use Rattle.wp_plain.specs.Ranges.{AreInRange};
ghost use Rattle.wp_plain.specs.Pairs.{all_tuples};
ghost use Rattle.wp_plain.specs.Run.{run, ending_of};
ghost use Rattle.wp_watch.specs.declared.watch.WatchKind.{WatchKind};
ghost use Rattle.wp_watch.specs.Places.{AreAfter, AreUntold};
ghost use Rattle.wp_plain.specs.Places.{places_in};
ghost use Rattle.wp_app.specs.Headline.{IsInputReached};
ghost use Rattle.wp_app.specs.Output.{ending_reply, ending_status, grounded_step, lifted_step, searched_reply, whole, with_texts};
ghost use Rattle.wp_app.specs.Statuses.{is_of_files};
ghost use Rattle.wp_app.specs.Steps.{goes, ◌>>=◌ as ◌and_then◌};
ghost use Rattle.wp_app.specs.Stops.{Follows, IfUnread, Meets};
ghost use Rattle.wp_app.specs.Table.{answer_to_plan};
ghost use Rattle.wp_report.specs.Endings.{IsPlanBelow};
ghost use Rattle.wp_report.specs.Tasks.{IsNamed};

use crate::closed::certified;
use crate::ground::grounded_of;
use crate::inputs::{Texts, read_texts};
use crate::readers::lifted_of;
use crate::reply::{Reply, Status};
use crate::shown::Shown;
use crate::stop::Stop;
use std::alloc::{AllocError, Global};
use std::thread::Threads;
use wp_commit::search;
use wp_edge::{Gate, Shelf, Text, Texts as Names};
use wp_ground::Grounded;
use wp_plain::{Ending, How, Search, Settings, found_is_plan, plain_search, tuple_count};
use wp_report::ending_text;
use wp_task::Task;
use wp_watch::{Watchers, places_follow};

/// How the search of the task of a domain and a problem ends, of the files of these names.
#[tactic(auto, unfolding(crate::specs::Table::answer_to_plan))]
pub fn plan_files<R: Threads + Sync, S: Shelf, G: Gate>(
    rt: &R,
    alloc: Global,
    shelf: &mut S,
    domain: &Text,
    problem: &Text,
    settings: &Settings,
    plain: bool,
    closed: bool,
    gate: &G,
    watchers: Watchers,
) -> Result<Reply, Stop>
    requires domain { IsUtf8 domain.now }
    requires problem { IsUtf8 problem.now }
    requires range { AreInRange settings.now }
    requires untold { AreUntold (places_in kind until told watchers) }
    ensures follows { (list : List (WatchKind × Option ℕ))
        → AreAfter list [] (places_in kind until told watchers) →
        Follows (S.contents shelf.old) (answer_to_plan domain.now problem.now settings.now closed list)
        (S.faults shelf.old) (S.faults shelf.new) result }
    ensures defined { IfOk result (λ reply. IsTrue (is_of_files reply.status)) }
    ensures unread { IfUnread result (IsInputReached (S.contents shelf.old) domain.now) }
    ensures same { S.contents shelf.new ≡ S.contents shelf.old }
    ensures later { S.faults shelf.old ≤ S.faults shelf.new }
{
    let texts = read_texts(alloc, shelf, domain, problem)?;
    let shown = whole(alloc, closed);
    planned(rt, alloc, shown, &texts, settings, plain, gate, watchers)
}

// All of a search, with nothing before it.
fn whole(alloc: Global, closed: bool) -> Shown
    ensures { result ≡ whole closed }
{
    Shown {
        front: Text::of_vec(Vec::new(alloc)),
        with_plan: true,
        closed,
    }
}

/// The answer to a domain and a problem that have no fault of their own.
pub fn planned<R: Threads + Sync, G: Gate>(
    rt: &R,
    alloc: Global,
    shown: Shown,
    texts: &Texts,
    settings: &Settings,
    plain: bool,
    gate: &G,
    watchers: Watchers,
) -> Result<Reply, Stop>
    requires range { AreInRange settings.now }
    requires untold { AreUntold (places_in kind until told watchers) }
    ensures meets { (list : List (WatchKind × Option ℕ))
        → AreAfter list [] (places_in kind until told watchers) →
        Meets (lifted_step texts.now.domain texts.now.problem and_then λ lifted. grounded_step lifted
        and_then λ grounded. goes (searched_reply shown settings.now list grounded)) result }
    ensures defined { IfOk result (λ reply. IsTrue (is_of_files reply.status)) }
{
    let lifted = lifted_of(alloc, texts)?;
    let grounded = grounded_of(alloc, &lifted)?;
    Ok(searched(rt, alloc, shown, settings, &grounded, plain, gate, watchers)?)
}

/// The ending of the search of the task, what the watchers say of it, and the certificate where there is no plan and it is
/// asked for.
#[tactic(auto, unfolding(crate::specs::Output::searched_reply))]
fn searched<R: Threads + Sync, G: Gate>(
    rt: &R,
    alloc: Global,
    shown: Shown,
    settings: &Settings,
    grounded: &Grounded,
    plain: bool,
    gate: &G,
    watchers: Watchers,
) -> Result<Reply, AllocError>
    requires range { AreInRange settings.now }
    requires named { IsNamed grounded.now }
    requires untold { AreUntold (places_in kind until told watchers) }
    ensures reply { IfOk result (λ reply.
        (list : List (WatchKind × Option ℕ))
        → AreAfter list [] (places_in kind until told watchers) →
        reply ≡ searched_reply shown settings.now list grounded.now) }
    ensures defined { IfOk result (λ reply. IsTrue (is_of_files reply.status)) }
{
    // What is found is a plan of the task, so its numbers are those of actions.
    found_is_plan();
    // By the law of places each watcher says what it wants of all events.
    places_follow();
    let mut watchers = watchers;
    let ending = search_task(
        rt,
        alloc,
        &grounded.task,
        settings,
        plain,
        gate,
        &mut watchers,
    )?;
    let closed = shown.closed;
    let reply = ending_reply(alloc, shown, settings, grounded, &ending)?;
    let texts = watchers.texts(alloc)?;
    let reply = with_texts(reply, &texts)?;
    certified(alloc, reply, closed, &grounded.task, ending.counts.kept)
}

/// The reply with more text behind its own.
fn with_texts(reply: Reply, texts: &Names) -> Result<Reply, AllocError>
    ensures { IfOk result (λ more. more ≡ with_texts reply texts.now) }
{
    let Reply { text, status } = reply;
    let mut text = text.into_vec();
    for more in texts.as_slice() {
        text.extend_from_slice(more.as_slice())?;
    }
    Ok(Reply {
        text: Text::of_vec(text),
        status,
    })
}

/// The ending of the search, by scanning lists or by the fast search: it is the same, and so are its events.
fn search_task<R: Threads + Sync, G: Gate>(
    rt: &R,
    alloc: Global,
    task: &Task,
    settings: &Settings,
    plain: bool,
    gate: &G,
    watchers: &mut Watchers,
) -> Result<Ending, AllocError>
    requires range { AreInRange settings.now }
    requires untold { AreUntold (places_in kind until told watchers.old) }
    ensures ending { IfOk result (λ ending.
        ending ≡ ending_of task.now settings.now (all_tuples task.now settings.now)) }
    ensures events { OnOk result ((list : List (WatchKind × Option ℕ))
        → AreAfter list [] (places_in kind until told watchers.old) →
        AreAfter list (run task.now settings.now (all_tuples task.now settings.now)).1.events
        (places_in kind until told watchers.new)) }
{
    if plain {
        plain_search(alloc, task, settings, watchers)
    } else {
        search(rt, alloc, task, settings, gate, watchers)
    }
}

#[tactic(auto, unfolding(crate::specs::Output::ending_reply))]
fn ending_reply(
    alloc: Global,
    shown: Shown,
    settings: &Settings,
    grounded: &Grounded,
    ending: &Ending,
) -> Result<Reply, AllocError>
    requires range { AreInRange settings.now }
    requires named { IsNamed grounded.now }
    requires plan { IsPlanBelow (length grounded.now.task.acts) ending.now.how }
    ensures reply { IfOk result (λ reply.
        reply ≡ ending_reply shown settings.now grounded.now ending.now) }
    ensures defined { IfOk result (λ reply. IsTrue (is_of_files reply.status)) }
{
    let tuples = tuple_count(settings.width, grounded.task.atoms());
    let Shown {
        front,
        with_plan,
        closed: _,
    } = shown;
    let text = ending_text(alloc, grounded, settings, tuples, ending, with_plan)?;
    Ok(Reply {
        text: behind(front, &text)?,
        status: ending_status(settings.search, &ending.how),
    })
}

fn behind(front: Text, text: &Text) -> Result<Text, AllocError>
    ensures { IfOk result (λ both. both ≡ front ++ text.now) }
{
    let mut both = front.into_vec();
    both.extend_from_slice(text.as_slice())?;
    Ok(Text::of_vec(both))
}

fn ending_status(search: Search, how: &How) -> Status
    ensures value { result ≡ ending_status search how.now }
    ensures defined { IsTrue (is_of_files result) }
{
    match how {
        How::Found { plan: _ } => Status::Done,
        How::Emptied => match search {
            Search::KBfws => Status::QueueEmpty,
            Search::F5 => Status::NoPlan,
        },
        How::Budget => Status::Budget,
        How::Words { pairs: _ } => Status::Words,
    }
}
