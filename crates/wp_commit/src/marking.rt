//! The phase of an expansion: its births are dealt to jobs, which mark beside each other, and beside these other jobs make broods ahead.
//! This is where threads are started.
ghost use Rattle.std.specs.Prelude.{◌≡◌, ◌<◌, ◌^◌, ◌++◌, List, false, length, map, All, IfOk, IfSome, OnOk};
ghost use Rattle.std.specs.List.{AllPairs};
ghost use Rattle.wp_task.specs.Novelty.{Generated};
ghost use Rattle.wp_novel.specs.Births.{nodes_of};
ghost use Rattle.wp_novel.specs.NoveltyTables.{placed, open_pairs, IsAtHome};
ghost use Rattle.wp_novel.specs.StandsFor.{StandsFor};
ghost use Rattle.wp_novel.specs.Jobs.{worked_job, IsReady, IsJobOf};
ghost use Rattle.wp_ahead.specs.Jobs.{CanWork, IsWorked};
ghost use Rattle.wp_commit.specs.Phases.{AreWorked};

use crate::run::Run;
use std::alloc::AllocError;
use std::thread::{Threads, for_each_mut, join_mut};
use wp_ahead::{AheadJob, AheadJobs, work};
use wp_edge::Gate;
use wp_novel::{Births, MarkJob, MarkJobs, Tables, worked_jobs_are_out};
use wp_tuples::Places;

/// The most jobs that a phase has, so that each has a thread of its own.
const MOST_WORKERS: usize = 64;

/// Marks the births in the tables and gives them back, and works the jobs that make broods in the same phase. What was marked is read
/// by nobody before all jobs are back, so the order in which they mark plays no part. Where memory is refused no job was dealt.
pub(crate) fn mark_all<R: Threads + Sync, P: Places, G: Gate>(
    rt: &R,
    run: &Run,
    gate: &G,
    tables: &mut Tables<P>,
    births: Births,
    aheads: AheadJobs,
) -> Result<(Births, AheadJobs), AllocError>
    requires home { IsAtHome (placed P.places tables.old) }
    requires ready { All (IsReady (placed P.places tables.old)) births }
    requires later { IfSome tables.old.last (λ last. All (λ b. last < b.node.number) births) }
    requires rising { AllPairs (λ x y. x.node.number < y.node.number) births }
    requires aheads { All (CanWork run.now.task) aheads }
    ensures births { IfOk result (λ parts. parts.0 ≡ births) }
    ensures aheads { IfOk result (λ parts. AreWorked run.now.task aheads parts.1) }
    ensures home { OnOk result (IsAtHome (placed P.places tables.new)) }
    ensures pairs { OnOk result (open_pairs (placed P.places tables.new) ≡ open_pairs (placed P.places tables.old)) }
    ensures index { OnOk result ((P.places tables.new.index) ≡ (P.places tables.old.index)) }
    ensures limit { OnOk result (tables.new.limit ≡ tables.old.limit) }
    ensures stands { OnOk result ((before : List Generated) → StandsFor (placed P.places tables.old) before → StandsFor (placed P.places tables.new) (before ++ nodes_of births)) }
{
    // By this law all jobs that are worked can be collected.
    worked_jobs_are_out();
    let marks = tables.deal(births, run.settings.workers)?;
    let (marks, aheads) = work_all(rt, run, gate, tables, marks, aheads);
    Ok((tables.collect(marks), aheads))
}

/// Works the jobs of a phase.
fn work_all<R: Threads + Sync, P: Places, G: Gate>(
    rt: &R,
    run: &Run,
    gate: &G,
    tables: &Tables<P>,
    marks: MarkJobs,
    aheads: AheadJobs,
) -> (MarkJobs, AheadJobs)
    requires marks { All (IsJobOf (placed P.places tables.now) false) marks }
    requires aheads { All (CanWork run.now.task) aheads }
    ensures marks { result.0 ≡ map (worked_job tables.now.homes) marks }
    ensures aheads { AreWorked run.now.task aheads result.1 }
{
    let mut marks = marks.into_vec();
    let mut aheads = aheads.into_vec();
    run_phase(
        rt,
        run,
        gate,
        tables,
        marks.as_mut_slice(),
        aheads.as_mut_slice(),
    );
    (MarkJobs::of_vec(marks), AheadJobs::of_vec(aheads))
}

/// Works the jobs of both kinds beside each other. Where there are none of one kind no thread is started for it.
fn run_phase<R: Threads + Sync, P: Places, G: Gate>(
    rt: &R,
    run: &Run,
    gate: &G,
    tables: &Tables<P>,
    marks: &mut [MarkJob],
    aheads: &mut [AheadJob],
)
    requires marks { All (IsJobOf (placed P.places tables.now) false) marks.old }
    requires aheads { All (CanWork run.now.task) aheads.old }
    ensures marks { marks.new ≡ map (worked_job tables.now.homes) marks.old }
    ensures aheads { AreWorked run.now.task aheads.old aheads.new }
{
    if is_some_empty(marks, aheads) {
        run_marks(rt, gate, tables, marks);
        run_aheads(rt, run, gate, aheads);
        return;
    }
    let mut one = ||
        requires { All (IsJobOf (placed P.places tables.now) false) marks.now }
        ensures { marks.exit.now ≡ map (worked_job tables.entry.now.homes) marks.entry.now }
    { run_marks(rt, gate, tables, marks) };
    let mut other = ||
        requires { All (CanWork run.now.task) aheads.now }
        ensures { AreWorked run.entry.now.task aheads.entry.now aheads.exit.now }
    { run_aheads(rt, run, gate, aheads) };
    join_mut(rt, &mut one, &mut other);
}

/// Whether there are jobs of one kind only, or none.
fn is_some_empty(marks: &[MarkJob], aheads: &[AheadJob]) -> bool {
    marks.is_empty() || aheads.is_empty()
}

/// Works each job that marks, beside each other where there are more than one; a single one runs here, and no thread is started.
fn run_marks<R: Threads + Sync, P: Places, G: Gate>(
    rt: &R,
    gate: &G,
    tables: &Tables<P>,
    jobs: &mut [MarkJob],
)
    requires ready { All (IsJobOf (placed P.places tables.now) false) jobs.old }
    ensures { jobs.new ≡ map (worked_job tables.now.homes) jobs.old }
{
    for_each_mut(
        rt,
        jobs,
        MOST_WORKERS,
        &|_: usize, job: &mut MarkJob|
            requires { IsJobOf (placed P.places tables.now) false job.now }
            ensures { job.exit.now ≡ worked_job tables.entry.now.homes job.entry.now }
        { tables.work(job, gate) },
    );
}

/// Works each job that makes a brood, in as many threads as there are workers. A job that is refused memory leaves no brood and ends
/// nothing.
fn run_aheads<R: Threads + Sync, G: Gate>(rt: &R, run: &Run, gate: &G, jobs: &mut [AheadJob])
    requires { All (CanWork run.now.task) jobs.old }
    ensures { AreWorked run.now.task jobs.old jobs.new }
{
    for_each_mut(
        rt,
        jobs,
        run.settings.workers as usize,
        &|_: usize, job: &mut AheadJob|
            requires { CanWork run.now.task job.now }
            ensures { IsWorked run.entry.now.task job.entry.now job.exit.now }
        { make_ahead(run, gate, job) },
    );
}

/// Works a job that makes a brood.
fn make_ahead<G: Gate>(run: &Run, gate: &G, job: &mut AheadJob)
    requires { CanWork run.now.task job.old }
    ensures { IsWorked run.now.task job.old job.new }
{
    work(run.alloc, job, run.task, &run.succ, gate);
}
