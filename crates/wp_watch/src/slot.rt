//! The place of a watcher among others.
ghost use Rattle.std.specs.Prelude.{◌≡◌, ◌≤◌, IfOk, OnErr, OnOk};
ghost use Rattle.std.specs.Option.{ForSome};
ghost use Rattle.wp_watch.specs.Places.{CanTell, CanTellPlace, live, text_of, told_place};
ghost use Rattle.wp_watch.specs.Slots.{place_of, place_told};
ghost use Rattle.wp_watch.specs.Torn.{IsTorn};

use crate::event::Event;
use crate::watch::{Heed, Watch};
use std::alloc::{AllocError, Global};
use wp_edge::Text;

/// A watcher that is live, or the text of one that is done and whose box is dropped. While the box is there the text is
/// empty and means nothing.
#[derive(Drop)]
pub struct Slot {
    pub watch: Option<Box<dyn Watch>>,
    pub text: Text,
}

impl Slot {
    /// The slot of a live watcher.
    pub(crate) fn of(alloc: Global, watch: Box<dyn Watch>) -> Slot
        ensures live { place_of kind until told result.watch result.text ≡ live (kind watch) (until watch) (told watch) }
        ensures wants { ForSome (until watch) (λ count. 1 ≤ count) }
    {
        // A watcher says with its kind that it wants at least one event.
        let _kind = watch.kind();
        Slot {
            watch: Some(watch),
            text: Text::of_vec(Vec::new(alloc)),
        }
    }

    /// Tells a live watcher. One that is done is asked for its text, and its box is dropped here.
    pub(crate) fn tell(&mut self, alloc: Global, event: &Event) -> Result<(), AllocError>
        requires { CanTellPlace event.now (place_of kind until told self.old.watch self.old.text) }
        ensures ok { OnOk result (place_of kind until told self.new.watch self.new.text ≡ told_place event.now (place_of kind until told self.old.watch self.old.text)) }
        ensures err { OnErr result (IsTorn event.now (place_of kind until told self.old.watch self.old.text) (place_of kind until told self.new.watch self.new.text)) }
    {
        let Some(mut watch) = self.watch.take() else {
            return Ok(());
        };
        match tell_watch(alloc, &mut watch, event) {
            Ok(None) => {
                self.watch = Some(watch);
                Ok(())
            }
            Ok(Some(text)) => {
                self.text = text;
                Ok(())
            }
            Err(error) => {
                self.watch = Some(watch);
                Err(error)
            }
        }
    }

    /// The text of a watcher that is done, or of what a live one heard.
    pub(crate) fn into_text(self, alloc: Global) -> Result<Text, AllocError>
        ensures { IfOk result (λ text. text ≡ text_of (place_of kind until told self.watch self.text)) }
    {
        let Slot { watch, text } = self;
        match watch {
            Some(watch) => watch.say(alloc),
            None => Ok(text),
        }
    }
}

/// Tells a watcher, and asks it for its text where it is done.
fn tell_watch(
    alloc: Global,
    watch: &mut Box<dyn Watch>,
    event: &Event,
) -> Result<Option<Text>, AllocError>
    requires { CanTell (until watch.old) (told watch.old) event.now }
    ensures ok { IfOk result (λ text. place_told (kind watch.new) (until watch.new) (told watch.new) text ≡ told_place event.now (live (kind watch.old) (until watch.old) (told watch.old))) }
    ensures err { OnErr result (IsTorn event.now (live (kind watch.old) (until watch.old) (told watch.old)) (live (kind watch.new) (until watch.new) (told watch.new))) }
{
    match watch.saw(event)? {
        Heed::Go => Ok(None),
        Heed::Done => Ok(Some(watch.say(alloc)?)),
    }
}
