//! Watchers of the caller's own: when their boxes are dropped, and one that is refused memory.
ghost use Rattle.std.specs.Prelude.{◌≡◌, IfOk};

use crate::check::{shelf, sink};
use crate::plan::answered;
use std::alloc::{AllocError, Global};
use std::process::Abort;
use std::sync::Arc;
use std::sync::atomic::{AtomicU64, Ordering};
use std::test::Fail;
use std::thread::Threads;
use wp_edge::Text;
use wp_watch::{Event, Heed, Silent, Trace, Watch, WatchKind};

/// How many watchers were dropped, and how many had been when a watcher heard its first event; of several the last one says so.
#[derive(Drop)]
struct Drops {
    now: AtomicU64,
    at_first: AtomicU64,
}

/// A watcher that counts when it is dropped, and has memory for so many events.
struct Counted<W: Watch> {
    inner: W,
    memory: u64,
    heard: u64,
    drops: Arc<Drops, Global>,
}

impl<W: Watch> Drop for Counted<W> {
    fn drop(self) {
        let Counted {
            inner: _,
            memory: _,
            heard: _,
            drops,
        } = self;
        drops.now.fetch_add(1, Ordering::SeqCst);
    }
}

impl<W: Watch> Watch for Counted<W> {
    ghost kind = { λ watch. W.kind watch.inner };

    ghost told = { λ watch. W.told watch.inner };

    ghost until = { λ watch. W.until watch.inner };

    fn kind(&self) -> WatchKind {
        self.inner.kind()
    }

    fn saw(&mut self, event: &Event) -> Result<Heed, AllocError> {
        if self.heard == self.memory {
            return Err(AllocError);
        }
        if self.heard == 0 {
            let dropped = self.drops.now.load(Ordering::SeqCst);
            self.drops.at_first.store(dropped, Ordering::SeqCst);
        }
        self.heard = self.heard.saturating_add(1);
        self.inner.saw(event)
    }

    fn say(&self, alloc: Global) -> Result<Text, AllocError> {
        self.inner.say(alloc)
    }
}

fn none_dropped(alloc: Global) -> Result<Arc<Drops, Global>, AllocError> {
    let drops = Drops {
        now: AtomicU64::new(0),
        at_first: AtomicU64::new(0),
    };
    Ok(Arc::new(alloc, drops)?)
}

fn counting<W: Watch>(inner: W, memory: u64, drops: &Arc<Drops, Global>) -> Result<Counted<W>, Fail>
    ensures { IfOk result (λ watch. W.told watch.inner ≡ W.told inner) }
{
    Ok(Counted {
        inner,
        memory,
        heard: 0,
        drops: Arc::try_clone(drops)?,
    })
}

/// Three watchers are handed in: a silent one that wants one event, one that tells all, and a silent one that has memory for so many
/// events. The words of the line are answered so, and all three are dropped, the first before the last one hears its first event.
fn watch_the_chain<R: Abort + Threads + Sync>(
    rt: &R,
    alloc: Global,
    line: &[&str],
    memory: u64,
    status: u8,
    held: &str,
    at_first: u64,
) -> Result<(), Fail> {
    let drops = none_dropped(alloc)?;
    let mut watchers: Vec<Box<dyn Watch>> = Vec::new(alloc);
    let once = counting(Silent::new(alloc, Some(1)), 1, &drops)?;
    watchers.push(Box::new(alloc, once)?)?;
    let trace = counting(Trace::new(alloc, None), u64::MAX, &drops)?;
    watchers.push(Box::new(alloc, trace)?)?;
    let last = counting(Silent::new(alloc, None), memory, &drops)?;
    watchers.push(Box::new(alloc, last)?)?;
    let mut shelf = shelf(alloc, "(s1)(s2)", &[])?;
    let mut sink = sink(alloc, 200, &[])?;
    let answer = answered(rt, alloc, line, &mut shelf, &mut sink, watchers)?;
    assert_eq!(rt; answer.code(), status);
    assert_eq!(rt; sink.held(), held.as_bytes());
    assert_eq!(rt; drops.now.load(Ordering::SeqCst), 3);
    assert_eq!(rt; drops.at_first.load(Ordering::SeqCst), at_first);
    Ok(())
}

const TRACED: &str = "(s1)
(s2)
; found steps 2 expanded 2 numbered 3 kept 3 pruned 0 repeats 1 pairs 3
; expand 0 w 1 g 1 r 0 repeats 0
; born 1 act 0 w 1 g 1 r 1 kept
; expand 1 w 1 g 1 r 1 repeats 1
; born 2 act 1 w 1 g 0 r 0 kept
";

#[test]
fn watchers_are_dropped_when_they_are_done_and_when_memory_is_refused(
    rt: HostRuntime,
) -> Result<(), Fail> {
    let alloc = rt.alloc();
    let plan = [
        "plan", "d", "p", "--search", "kbfws", "--width", "1", "--watch", "trace",
    ];
    let scan = ["plan", "d", "p", "--watch", "trace", "--plain"];
    watch_the_chain(&rt, alloc, &plan, 2, 0, TRACED, 1)?;
    watch_the_chain(&rt, alloc, &plan, 1, 30, "", 1)?;
    watch_the_chain(&rt, alloc, &scan, 1, 30, "", 1)?;
    // A check tells nobody anything.
    watch_the_chain(
        &rt,
        alloc,
        &["check", "d", "p", "plan"],
        0,
        0,
        "; valid steps 2\n",
        0,
    )
}
