//! Pieces of texts, each behind what was written so far.
ghost use Rattle.std.specs.Prelude.{◌≡◌, ◌<◌, ◌++◌, ◌-◌, ◌^◌, decimal, codes, OnOk};
ghost use Rattle.wp_gen.specs.Depot.{at_text, parcel_text, place_text, roads_text};

use itoa::Buffer;
use std::alloc::AllocError;

fn put_counted(out: &mut Vec<u8>, words: &[u8], number: u32) -> Result<(), AllocError>
    ensures { OnOk result (out.new.items ≡ out.old.items ++ (words.now ++ decimal number)) }
{
    let mut digits = Buffer::new();
    out.extend_from_slice(words)?;
    out.extend_from_slice(digits.format(number).as_bytes())
}

pub fn put_place(out: &mut Vec<u8>, place: u32) -> Result<(), AllocError>
    ensures { OnOk result (out.new.items ≡ out.old.items ++ place_text place) }
{
    put_counted(out, b" p", place)
}

pub fn put_parcel(out: &mut Vec<u8>, parcel: u32) -> Result<(), AllocError>
    ensures { OnOk result (out.new.items ≡ out.old.items ++ parcel_text parcel) }
{
    put_counted(out, b" b", parcel)
}

/// The roads between a place and the next.
#[tactic(auto, unfolding(crate::specs::Depot::roads_text))]
pub fn put_roads(out: &mut Vec<u8>, place: u32) -> Result<(), AllocError>
    requires { place < 2 ^ 32 - 1 }
    ensures { OnOk result (out.new.items ≡ out.old.items ++ roads_text place) }
{
    put_road(out, place, place + 1)?;
    put_road(out, place + 1, place)
}

fn put_road(out: &mut Vec<u8>, from: u32, to: u32) -> Result<(), AllocError>
    ensures { OnOk result (out.new.items ≡ out.old.items ++ (codes " (road" ++ place_text from ++ place_text to ++ codes ")")) }
{
    out.extend_from_slice(b" (road")?;
    put_place(out, from)?;
    put_place(out, to)?;
    out.extend_from_slice(b")")
}

/// A parcel at a place.
#[tactic(auto, unfolding(crate::specs::Depot::at_text))]
pub fn put_at(out: &mut Vec<u8>, parcel: u32, place: u32) -> Result<(), AllocError>
    ensures { OnOk result (out.new.items ≡ out.old.items ++ at_text parcel place) }
{
    out.extend_from_slice(b" (at")?;
    put_parcel(out, parcel)?;
    put_place(out, place)?;
    out.extend_from_slice(b")")
}
