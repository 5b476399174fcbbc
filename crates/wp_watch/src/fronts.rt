//! The watcher that tells where a search came closer to the goal than ever before.
ghost use Rattle.std.specs.Prelude.{◌≡◌, ◌<◌, ◌≤◌, ◌^◌, ◌++◌, [], min, nat_lt, if◌then◌else◌, IfOk, OnOk};
ghost use Rattle.std.specs.Option.{ForSome};
ghost use Rattle.wp_watch.specs.Texts.{front_line, fronts_text};

use crate::event::Event;
use crate::heard::Heard;
use crate::pieces::put_counted;
use crate::watch::{Heed, Watch, WatchKind};
use std::alloc::{AllocError, Global};
use wp_edge::Text;

/// A line for each expansion of a node that has fewer unmet goals than all that were expanded before.
#[derive(Drop)]
pub struct Fronts {
    heard: Heard,
}

impl Fronts {
    /// It heard nothing yet, and wants so many events, or all.
    pub fn new(alloc: Global, until: Option<u64>) -> Fronts
        requires { ForSome until (λ count. 1 ≤ count) }
        ensures kind { ⟦<Fronts as Watch>⟧.kind result ≡ WatchKind.Fronts }
        ensures told { ⟦<Fronts as Watch>⟧.told result ≡ [] }
        ensures until { ⟦<Fronts as Watch>⟧.until result ≡ until }
    {
        Fronts {
            heard: Heard::new(alloc, until),
        }
    }
}

impl Watch for Fronts {
    ghost use Rattle.wp_watch.specs.declared.watch.WatchKind.TheVariants as kinds;

    ghost kind = { λ _. kinds.Fronts };

    ghost told = { λ watch. watch.heard.events.items };

    ghost until = { λ watch. watch.heard.until };

    fn kind(&self) -> WatchKind {
        WatchKind::Fronts
    }

    fn saw(&mut self, event: &Event) -> Result<Heed, AllocError> {
        self.heard.keep(event)
    }

    #[tactic(auto, unfolding(crate::specs::Texts::says))]
    fn say(&self, alloc: Global) -> Result<Text, AllocError> {
        fronts_text(alloc, self.heard.events.as_slice())
    }
}

#[tactic(auto, unfolding(crate::specs::Texts::fronts_text))]
fn fronts_text(alloc: Global, events: &[Event]) -> Result<Text, AllocError>
    ensures { IfOk result (λ text. text ≡ fronts_text events.now) }
{
    let mut out = Vec::new(alloc);
    // Above every counter, so that the first event is a front.
    let mut least = 1 << 32;
    for event in events {
        least = put_front(&mut out, event, least)?;
    }
    Ok(Text::of_vec(out))
}

/// The line of an event with a lesser counter than before; answers the least counter so far.
fn put_front(out: &mut Vec<u8>, event: &Event, least: u64) -> Result<u64, AllocError>
    ensures line { OnOk result (out.new.items ≡ out.old.items ++ (if nat_lt event.now.g least then front_line event.now else [])) }
    ensures least { IfOk result (λ now. now ≡ min least event.now.g) }
    ensures fits { event.now.g < 2 ^ 32 }
{
    let g = u64::from(event.g);
    if g < least {
        put_line(out, event)?;
        return Ok(g);
    }
    Ok(least)
}

#[tactic(auto, unfolding(crate::specs::Texts::front_line))]
fn put_line(out: &mut Vec<u8>, event: &Event) -> Result<(), AllocError>
    ensures { OnOk result (out.new.items ≡ out.old.items ++ front_line event.now) }
{
    put_counted(out, b"; front g ", u64::from(event.g))?;
    put_counted(out, b" at ", event.number)?;
    out.push(b'\n')?;
    Ok(())
}
