//! The watcher that counts.
ghost use Rattle.std.specs.Prelude.{◌≡◌, ◌≤◌, ◌<◌, ◌^◌, [], IfOk, count_by};
ghost use Rattle.std.specs.Option.{ForSome};
ghost use Rattle.wp_watch.specs.Sums.{born_in, kept_in, repeats_in};
ghost use Rattle.wp_watch.specs.Texts.{tally_text};

use crate::event::{Born, Event};
use crate::heard::Heard;
use crate::pieces::put_counted;
use crate::watch::{Heed, Watch, WatchKind};
use std::alloc::{AllocError, Global};
use wp_edge::Text;

/// One line with the counts of all events.
#[derive(Drop)]
pub struct Tally {
    heard: Heard,
}

impl Tally {
    /// It heard nothing yet, and wants so many events, or all.
    pub fn new(alloc: Global, until: Option<u64>) -> Tally
        requires { ForSome until (λ count. 1 ≤ count) }
        ensures kind { ⟦<Tally as Watch>⟧.kind result ≡ WatchKind.Tally }
        ensures told { ⟦<Tally as Watch>⟧.told result ≡ [] }
        ensures until { ⟦<Tally as Watch>⟧.until result ≡ until }
    {
        Tally {
            heard: Heard::new(alloc, until),
        }
    }
}

impl Watch for Tally {
    ghost use Rattle.wp_watch.specs.declared.watch.WatchKind.TheVariants as kinds;

    ghost kind = { λ _. kinds.Tally };

    ghost told = { λ watch. watch.heard.events.items };

    ghost until = { λ watch. watch.heard.until };

    fn kind(&self) -> WatchKind {
        WatchKind::Tally
    }

    fn saw(&mut self, event: &Event) -> Result<Heed, AllocError> {
        self.heard.keep(event)
    }

    #[tactic(auto, unfolding(crate::specs::Texts::says))]
    fn say(&self, alloc: Global) -> Result<Text, AllocError> {
        tally_text(alloc, self.heard.events.as_slice())
    }
}

#[tactic(auto, using(crate::proofs::SumLemmas::kept_le_born), unfolding(crate::specs::Texts::tally_text))]
fn tally_text(alloc: Global, events: &[Event]) -> Result<Text, AllocError>
    requires { (born_in events.now < 2 ^ 63) × (repeats_in events.now < 2 ^ 63) }
    ensures { IfOk result (λ text. text ≡ tally_text events.now) }
{
    let born = born_in(events);
    let kept = kept_in(events);
    let mut out = Vec::new(alloc);
    put_counted(&mut out, b"; tally events ", events.len() as u64)?;
    put_counted(&mut out, b" born ", born)?;
    put_counted(&mut out, b" kept ", kept)?;
    put_counted(&mut out, b" pruned ", born - kept)?;
    put_counted(&mut out, b" repeats ", repeats_in(events))?;
    out.push(b'\n')?;
    Ok(Text::of_vec(out))
}

fn born_in(events: &[Event]) -> u64
    requires { born_in events.now < 2 ^ 63 }
    ensures { result ≡ born_in events.now }
{
    events.iter().map(|e| e.born.as_slice().len() as u64).sum()
}

fn repeats_in(events: &[Event]) -> u64
    requires { repeats_in events.now < 2 ^ 63 }
    ensures { result ≡ repeats_in events.now }
{
    events.iter().map(|e| e.repeats).sum()
}

fn kept_in(events: &[Event]) -> u64
    requires { kept_in events.now < 2 ^ 63 }
    ensures { result ≡ kept_in events.now }
{
    events.iter().map(|e| kept_of(e.born.as_slice())).sum()
}

fn kept_of(born: &[Born]) -> u64
    ensures { result ≡ count_by (λ b. b.kept) born.now }
{
    born.iter().filter(|b| b.kept).count() as u64
}
