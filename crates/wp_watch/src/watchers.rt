//! Watchers in a list, told one after another.
ghost use Rattle.std.specs.Prelude.{◌≡◌, ◌≤◌, [], All, map, IfOk, OnErr, OnOk};
ghost use Rattle.std.specs.Option.{ForSome};
ghost use Rattle.wp_watch.specs.Places.{AreAfter, CanTellPlace, live, text_of, told_place};
ghost use Rattle.wp_watch.specs.Torn.{AreTorn};
ghost use Rattle.wp_watch.specs.Slots.{places_of};

use crate::event::Event;
use crate::slot::Slot;
use crate::watch::Watch;
use std::alloc::{AllocError, Global};
use wp_edge::Texts;

/// Watchers in their order. `specs/Slots.antt` sees the slots as places.
#[derive(Drop)]
pub struct Watchers {
    pub alloc: Global,
    pub slots: Vec<Slot>,
}

impl Watchers {
    /// Each watcher is live, in the order of the list.
    pub fn new(alloc: Global, list: Vec<Box<dyn Watch>>) -> Result<Watchers, AllocError>
        requires { All (λ watch. told watch ≡ []) list.items }
        ensures { IfOk result (λ watchers. AreAfter (map (λ watch. (kind watch, until watch)) list.items) [] (places_of kind until told watchers.slots.items)) }
    {
        let slots = slots_of(alloc, list)?;
        Ok(Watchers { alloc, slots })
    }

    /// Tells each live watcher, in order. One that is done is asked for its text at once; the text stays in its place and
    /// the box is dropped in this call. After want of memory the value is only good for being dropped.
    pub fn tell(&mut self, event: &Event) -> Result<(), AllocError>
        requires { All (CanTellPlace event.now) (places_of kind until told self.old.slots.items) }
        ensures ok { OnOk result (places_of kind until told self.new.slots.items ≡ map (told_place event.now) (places_of kind until told self.old.slots.items)) }
        ensures err { OnErr result (AreTorn event.now (places_of kind until told self.old.slots.items) (places_of kind until told self.new.slots.items)) }
    {
        tell_all(self.alloc, self.slots.as_mut_slice(), event)
    }

    /// A text for each place, in order: that of a watcher which is done, or of what a live one heard.
    pub fn texts(self, alloc: Global) -> Result<Texts, AllocError>
        ensures { IfOk result (λ texts. texts ≡ map text_of (places_of kind until told self.slots.items)) }
    {
        let Watchers { alloc: _, slots } = self;
        let mut texts = Vec::with_capacity(alloc, slots.len())?;
        for slot in slots {
            let text = slot.into_text(alloc)?;
            texts.push(text)?;
        }
        Ok(Texts::of_vec(texts))
    }
}

fn slots_of(alloc: Global, list: Vec<Box<dyn Watch>>) -> Result<Vec<Slot>, AllocError>
    ensures live { IfOk result (λ slots. places_of kind until told slots.items ≡ map (λ watch. live (kind watch) (until watch) (told watch)) list.items) }
    ensures wants { OnOk result (All (λ watch. ForSome (until watch) (λ count. 1 ≤ count)) list.items) }
{
    let mut slots = Vec::with_capacity(alloc, list.len())?;
    for watch in list {
        slots.push(Slot::of(alloc, watch))?;
    }
    Ok(slots)
}

fn tell_all(alloc: Global, slots: &mut [Slot], event: &Event) -> Result<(), AllocError>
    requires { All (CanTellPlace event.now) (places_of kind until told slots.old) }
    ensures ok { OnOk result (places_of kind until told slots.new ≡ map (told_place event.now) (places_of kind until told slots.old)) }
    ensures err { OnErr result (AreTorn event.now (places_of kind until told slots.old) (places_of kind until told slots.new)) }
{
    for slot in slots.iter_mut() {
        slot.tell(alloc, event)?;
    }
    Ok(())
}
