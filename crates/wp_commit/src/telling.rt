//! What is told of an expansion.
ghost use Rattle.std.specs.Prelude.{◌≡◌, false, map, IfOk, MatchOption};
ghost use Rattle.wp_commit.specs.Newborns.{born_as, event_as};

use crate::births::Numbered;
use crate::newborn::Newborn;
use crate::run::Run;
use std::alloc::{AllocError, Global};
use wp_nodes::Kept;
use wp_plain::{Settings, keeps};
use wp_watch::{Born, Borns, Event};

/// What is told of the expansion of a node, with its newborns, where that is wanted.
pub(crate) fn told_of(
    run: &Run,
    node: &Kept,
    numbered: &Numbered,
    wanted: bool,
) -> Result<Option<Event>, AllocError>
    ensures { IfOk result (λ told. MatchOption told (wanted ≡ false)
        (λ event. event ≡ event_as run.now.settings node.now numbered.now.repeats numbered.now.newborns.items)) }
{
    if !wanted {
        return Ok(None);
    }
    let event = event_of(run.alloc, &run.settings, node, numbered)?;
    Ok(Some(event))
}

fn event_of(
    alloc: Global,
    settings: &Settings,
    node: &Kept,
    numbered: &Numbered,
) -> Result<Event, AllocError>
    ensures { IfOk result (λ event. event ≡ event_as settings.now node.now numbered.now.repeats numbered.now.newborns.items) }
{
    let born = borns_of(alloc, settings, &numbered.newborns)?;
    Ok(Event {
        number: node.number,
        w: node.w,
        g: node.mark.g,
        r: node.mark.r,
        repeats: numbered.repeats,
        born: Borns::of_vec(born),
    })
}

fn borns_of(
    alloc: Global,
    settings: &Settings,
    newborns: &[Newborn],
) -> Result<Vec<Born>, AllocError>
    ensures { IfOk result (λ born. born.items ≡ map (born_as settings.now) newborns.now) }
{
    let mut born = Vec::with_capacity(alloc, newborns.len())?;
    for newborn in newborns {
        born.push(born_of(settings, newborn))?;
    }
    Ok(born)
}

fn born_of(settings: &Settings, newborn: &Newborn) -> Born
    ensures { result ≡ born_as settings.now newborn.now }
{
    Born {
        number: newborn.number,
        act: newborn.child.act,
        w: newborn.w,
        g: newborn.child.g,
        r: newborn.child.r,
        kept: keeps(settings, newborn.w),
    }
}
