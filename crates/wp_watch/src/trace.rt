//! The watcher that tells all.
ghost use Rattle.std.specs.Prelude.{◌≡◌, ◌≤◌, ◌++◌, [], IfOk, OnOk};
ghost use Rattle.std.specs.List.{flat_map};
ghost use Rattle.std.specs.Option.{ForSome};
ghost use Rattle.wp_watch.specs.Texts.{born_line, event_lines, expansion_line, fate_text, trace_text};

use crate::event::{Born, Event};
use crate::heard::Heard;
use crate::pieces::put_counted;
use crate::watch::{Heed, Watch, WatchKind};
use std::alloc::{AllocError, Global};
use wp_edge::Text;

/// A line for each expansion, and one for each node that was born in it.
#[derive(Drop)]
pub struct Trace {
    heard: Heard,
}

impl Trace {
    /// It heard nothing yet, and wants so many events, or all.
    pub fn new(alloc: Global, until: Option<u64>) -> Trace
        requires { ForSome until (λ count. 1 ≤ count) }
        ensures kind { ⟦<Trace as Watch>⟧.kind result ≡ WatchKind.Trace }
        ensures told { ⟦<Trace as Watch>⟧.told result ≡ [] }
        ensures until { ⟦<Trace as Watch>⟧.until result ≡ until }
    {
        Trace {
            heard: Heard::new(alloc, until),
        }
    }
}

impl Watch for Trace {
    ghost use Rattle.wp_watch.specs.declared.watch.WatchKind.TheVariants as kinds;

    ghost kind = { λ _. kinds.Trace };

    ghost told = { λ watch. watch.heard.events.items };

    ghost until = { λ watch. watch.heard.until };

    fn kind(&self) -> WatchKind {
        WatchKind::Trace
    }

    fn saw(&mut self, event: &Event) -> Result<Heed, AllocError> {
        self.heard.keep(event)
    }

    #[tactic(auto, unfolding(crate::specs::Texts::says))]
    fn say(&self, alloc: Global) -> Result<Text, AllocError> {
        trace_text(alloc, self.heard.events.as_slice())
    }
}

#[tactic(auto, unfolding(crate::specs::Texts::trace_text))]
fn trace_text(alloc: Global, events: &[Event]) -> Result<Text, AllocError>
    ensures { IfOk result (λ text. text ≡ trace_text events.now) }
{
    let mut out = Vec::new(alloc);
    for event in events {
        put_event(&mut out, event)?;
    }
    Ok(Text::of_vec(out))
}

fn put_event(out: &mut Vec<u8>, event: &Event) -> Result<(), AllocError>
    ensures { OnOk result (out.new.items ≡ out.old.items ++ event_lines event.now) }
{
    put_expansion(out, event)?;
    put_children(out, event.born.as_slice())
}

#[tactic(auto, unfolding(crate::specs::Texts::expansion_line))]
fn put_expansion(out: &mut Vec<u8>, event: &Event) -> Result<(), AllocError>
    ensures { OnOk result (out.new.items ≡ out.old.items ++ expansion_line event.now) }
{
    put_counted(out, b"; expand ", event.number)?;
    put_counted(out, b" w ", u64::from(event.w))?;
    put_counted(out, b" g ", u64::from(event.g))?;
    put_counted(out, b" r ", u64::from(event.r))?;
    put_counted(out, b" repeats ", event.repeats)?;
    out.push(b'\n')?;
    Ok(())
}

fn put_children(out: &mut Vec<u8>, children: &[Born]) -> Result<(), AllocError>
    ensures { OnOk result (out.new.items ≡ out.old.items ++ flat_map born_line children.now) }
{
    for born in children {
        put_born(out, born)?;
    }
    Ok(())
}

#[tactic(auto, unfolding(crate::specs::Texts::born_line))]
fn put_born(out: &mut Vec<u8>, born: &Born) -> Result<(), AllocError>
    ensures { OnOk result (out.new.items ≡ out.old.items ++ born_line born.now) }
{
    put_counted(out, b"; born ", born.number)?;
    put_counted(out, b" act ", u64::from(born.act))?;
    put_counted(out, b" w ", u64::from(born.w))?;
    put_counted(out, b" g ", u64::from(born.g))?;
    put_counted(out, b" r ", u64::from(born.r))?;
    out.extend_from_slice(fate(born.kept))?;
    out.push(b'\n')?;
    Ok(())
}

fn fate(kept: bool) -> &'static [u8]
    ensures { result.now ≡ fate_text kept }
{
    if kept { b" kept" } else { b" pruned" }
}
