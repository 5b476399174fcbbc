//! The answer to `gen`: a domain and a problem are made and read as those of files are, and the task is searched.

ghost use Rattle.std.specs.Prelude.{◌≡◌, ℕ, [], List, Option, IfOk, IsTrue};
ghost use Rattle.wp_plain.specs.Places.{places_in};
ghost use Rattle.wp_plain.specs.Ranges.{AreInRange};
ghost use Rattle.wp_watch.specs.declared.watch.WatchKind.{WatchKind};
ghost use Rattle.wp_watch.specs.Places.{AreAfter, AreUntold};
ghost use Rattle.wp_words.specs.Names.{IsSize};
ghost use Rattle.wp_app.specs.Table.{answer_to_gen, made_step};
ghost use Rattle.wp_app.specs.Statuses.{is_of_files};
ghost use Rattle.wp_app.specs.Stops.{Meets};

use crate::inputs::Texts;
use crate::plan::planned;
use crate::readers::{domain_of, problem_of};
use crate::reply::Reply;
use crate::shown::Shown;
use crate::stop::Stop;
use std::alloc::Global;
use std::thread::Threads;
use wp_edge::Gate;
use wp_gen::depot_task;
use wp_plain::Settings;
use wp_report::gen_text;
use wp_watch::Watchers;

/// How the search of the task of a number and a size ends, behind the line that names them.
#[tactic(auto, unfolding(crate::specs::Table::answer_to_gen))]
pub fn generated<R: Threads + Sync, G: Gate>(
    rt: &R,
    alloc: Global,
    number: u64,
    size: u32,
    settings: &Settings,
    plain: bool,
    gate: &G,
    watchers: Watchers,
) -> Result<Reply, Stop>
    requires size { IsSize size }
    requires range { AreInRange settings.now }
    requires untold { AreUntold (places_in kind until told watchers) }
    ensures meets { (list : List (WatchKind × Option ℕ))
        → AreAfter list [] (places_in kind until told watchers) →
        Meets (answer_to_gen number size settings.now list) result }
    ensures defined { IfOk result (λ reply. IsTrue (is_of_files reply.status)) }
{
    let texts = made_texts(alloc, number, size)?;
    let shown = Shown {
        front: gen_text(alloc, number, size)?,
        with_plan: false,
        closed: false,
    };
    planned(rt, alloc, shown, &texts, settings, plain, gate, watchers)
}

/// The domain and the problem of a number and a size.
#[tactic(auto, unfolding(crate::specs::Table::made_step))]
fn made_texts(alloc: Global, number: u64, size: u32) -> Result<Texts, Stop>
    requires { IsSize size }
    ensures { Meets (made_step number size) result }
{
    let (domain, problem) = depot_task(alloc, number, size)?;
    let domain_record = domain_of(alloc, &domain)?;
    let problem_record = problem_of(alloc, &problem)?;
    Ok(Texts {
        domain: domain_record,
        problem: problem_record,
    })
}
