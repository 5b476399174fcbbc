//! Searches with workers, seen from the gate of their jobs: what no clause can say of threads.
ghost use Rattle.std.specs.Prelude.{◌≡◌, ◌≤◌, [], None, All};
ghost use Rattle.std.specs.Option.{ForSome};

use crate::check::{shelf_of, sink};
use crate::plan::words;
use std::alloc::{AllocError, Global};
use std::process::Abort;
use std::sync::Arc;
use std::sync::atomic::{AtomicU64, Ordering};
use std::test::Fail;
use std::thread::Threads;
use wp_app::run_words;
use wp_edge::{Gate, JobName, Text};
use wp_watch::{Event, Heed, Silent, Watch, WatchKind};

const DOMAIN: &str = "(define (domain trap) (:predicates (s) (t) (z) (m) (n) (o))
 (:action bad :precondition (s) :effect (and (t) (not (s))))
 (:action cut :precondition (and (s) (t)) :effect (z))
 (:action am :effect (m))
 (:action an :effect (n))
 (:action ao :effect (o))
 (:action long :precondition (and (m) (n) (o)) :effect (z)))
";

const PROBLEM: &str = "(define (problem p) (:domain trap) (:init (s)) (:goal (z)))
";

const PLANNED: &str = "(am)
(an)
(ao)
(long)
; found steps 4 expanded 15 numbered 17 kept 17 pruned 0 repeats 38 pairs 3
";

/// The plan of the trap is found and printed with these words besides, over this gate and with these watchers.
fn plan_the_trap<R: Abort + Threads + Sync, G: Gate>(
    rt: &R,
    alloc: Global,
    further: &[&str],
    gate: &G,
    watchers: Vec<Box<dyn Watch>>,
) -> Result<(), Fail>
    requires { All (λ watch. told watch ≡ []) watchers.items }
{
    let mut words = words(alloc, &["plan", "d", "p"])?;
    for word in further {
        words.push(String::from_str(alloc, word)?)?;
    }
    let mut shelf = shelf_of(alloc, DOMAIN, PROBLEM, "", &[])?;
    let mut sink = sink(alloc, 200, &[])?;
    let status = run_words(
        rt,
        alloc,
        words.as_slice(),
        &mut shelf,
        &mut sink,
        gate,
        watchers,
    );
    assert_eq!(rt; status.code(), 0);
    assert_eq!(rt; sink.held(), PLANNED.as_bytes());
    Ok(())
}

/// Whether so many have come by the time that a job is no longer held.
fn come(count: &AtomicU64, many: u64) -> bool {
    for _turn in 0..100_000_000u64 {
        if count.load(Ordering::SeqCst) >= many {
            return true;
        }
    }
    false
}

/// Lets the first mark job pass, and holds each one after it until a second of these has come.
#[derive(Drop)]
struct Meeting {
    came: AtomicU64,
    alone: AtomicU64,
}

impl Gate for Meeting {
    fn pass(&self, job: JobName) {
        if let JobName::Mark { place: _ } = job {
            if self.came.fetch_add(1, Ordering::SeqCst) > 0 && !come(&self.came, 3) {
                self.alone.fetch_add(1, Ordering::SeqCst);
            }
        }
    }
}

// One thread for both jobs would hold the first of them until all turns are spent.
#[test]
fn two_jobs_of_a_phase_run_beside_each_other(rt: HostRuntime) -> Result<(), Fail> {
    let alloc = rt.alloc();
    let gate = Meeting {
        came: AtomicU64::new(0),
        alone: AtomicU64::new(0),
    };
    plan_the_trap(&rt, alloc, &["--workers", "2"], &gate, Vec::new(alloc))?;
    assert!(rt; gate.came.load(Ordering::SeqCst) > 2);
    assert_eq!(rt; gate.alone.load(Ordering::SeqCst), 0);
    Ok(())
}

/// Lets the first three jobs pass, and holds each one after them until one of the other kind has come.
#[derive(Drop)]
struct Kinds {
    came: AtomicU64,
    marks: AtomicU64,
    broods: AtomicU64,
    alone: AtomicU64,
}

impl Gate for Kinds {
    fn pass(&self, job: JobName) {
        if self.came.fetch_add(1, Ordering::SeqCst) > 2 && !self.is_met(job) {
            self.alone.fetch_add(1, Ordering::SeqCst);
        }
    }
}

impl Kinds {
    /// Counts the job, and says whether one of the other kind came while it was held.
    fn is_met(&self, job: JobName) -> bool {
        match job {
            JobName::Mark { place: _ } => {
                self.marks.fetch_add(1, Ordering::SeqCst);
                come(&self.broods, 1)
            }
            JobName::Ahead { number: _ } => {
                self.broods.fetch_add(1, Ordering::SeqCst);
                come(&self.marks, 1)
            }
        }
    }
}

// The first three are the mark jobs of the root and of its children, beside which nothing waits. The next phase has two mark jobs and three that make
// broods, and if the jobs of one kind went first they would be held until all turns are spent.
#[test]
fn jobs_of_both_kinds_run_beside_each_other(rt: HostRuntime) -> Result<(), Fail> {
    let alloc = rt.alloc();
    let gate = Kinds {
        came: AtomicU64::new(0),
        marks: AtomicU64::new(0),
        broods: AtomicU64::new(0),
        alone: AtomicU64::new(0),
    };
    plan_the_trap(
        &rt,
        alloc,
        &["--workers", "2", "--ahead", "4"],
        &gate,
        Vec::new(alloc),
    )?;
    assert!(rt; gate.marks.load(Ordering::SeqCst) > 0);
    assert!(rt; gate.broods.load(Ordering::SeqCst) > 0);
    assert_eq!(rt; gate.alone.load(Ordering::SeqCst), 0);
    Ok(())
}

/// How many mark jobs passed the gate, and how many at the first and at the last event; how many events there were, how many
/// children were born in them, and at how many of them fewer or more jobs had passed than the root and these children.
#[derive(Drop)]
struct Noted {
    passed: AtomicU64,
    first: AtomicU64,
    last: AtomicU64,
    events: AtomicU64,
    born: AtomicU64,
    apart: AtomicU64,
}

impl Noted {
    fn note(&self, event: &Event) {
        let passed = self.passed.load(Ordering::SeqCst);
        let born = event.born.as_slice().len() as u64;
        let before = self.born.fetch_add(born, Ordering::SeqCst);
        if passed != before.wrapping_add(born).wrapping_add(1) {
            self.apart.fetch_add(1, Ordering::SeqCst);
        }
        if self.events.fetch_add(1, Ordering::SeqCst) == 0 {
            self.first.store(passed, Ordering::SeqCst);
        }
        self.last.store(passed, Ordering::SeqCst);
    }
}

fn none_noted(alloc: Global) -> Result<Arc<Noted, Global>, AllocError> {
    let noted = Noted {
        passed: AtomicU64::new(0),
        first: AtomicU64::new(0),
        last: AtomicU64::new(0),
        events: AtomicU64::new(0),
        born: AtomicU64::new(0),
        apart: AtomicU64::new(0),
    };
    Ok(Arc::new(alloc, noted)?)
}

/// A gate that counts the mark jobs.
#[derive(Drop)]
struct Counting {
    noted: Arc<Noted, Global>,
}

impl Gate for Counting {
    fn pass(&self, job: JobName) {
        if let JobName::Mark { place: _ } = job {
            self.noted.passed.fetch_add(1, Ordering::SeqCst);
        }
    }
}

/// A silent watcher that notes each event when it is told.
#[derive(Drop)]
struct Noting {
    silent: Silent,
    noted: Arc<Noted, Global>,
}

impl Watch for Noting {
    ghost kind = { λ watch. ⟦<Silent as Watch>⟧.kind watch.silent };

    ghost told = { λ watch. ⟦<Silent as Watch>⟧.told watch.silent };

    ghost until = { λ watch. ⟦<Silent as Watch>⟧.until watch.silent };

    fn kind(&self) -> WatchKind {
        self.silent.kind()
    }

    fn saw(&mut self, event: &Event) -> Result<Heed, AllocError> {
        self.noted.note(event);
        self.silent.saw(event)
    }

    fn say(&self, alloc: Global) -> Result<Text, AllocError> {
        self.silent.say(alloc)
    }
}

// With 64 workers each child has a job of its own.
#[test]
fn an_event_is_told_between_its_own_marks_and_the_next(rt: HostRuntime) -> Result<(), Fail> {
    let alloc = rt.alloc();
    let noted = none_noted(alloc)?;
    let gate = Counting {
        noted: Arc::try_clone(&noted)?,
    };
    let mut watchers: Vec<Box<dyn Watch>> = Vec::new(alloc);
    let noting = Noting {
        silent: Silent::new(alloc, None),
        noted: Arc::try_clone(&noted)?,
    };
    watchers.push(Box::new(alloc, noting)?)?;
    plan_the_trap(&rt, alloc, &["--workers", "64"], &gate, watchers)?;
    assert_eq!(rt; noted.apart.load(Ordering::SeqCst), 0);
    assert_eq!(rt; noted.events.load(Ordering::SeqCst), 15);
    assert_eq!(rt; noted.first.load(Ordering::SeqCst), 5);
    assert_eq!(rt; noted.last.load(Ordering::SeqCst), 17);
    Ok(())
}

#[test]
fn the_search_by_scanning_lists_passes_no_job(rt: HostRuntime) -> Result<(), Fail> {
    let alloc = rt.alloc();
    let gate = Counting {
        noted: none_noted(alloc)?,
    };
    plan_the_trap(
        &rt,
        alloc,
        &["--workers", "64", "--plain"],
        &gate,
        Vec::new(alloc),
    )?;
    assert_eq!(rt; gate.noted.passed.load(Ordering::SeqCst), 0);
    Ok(())
}
