//! The place of two atoms, whichever is the lesser.
ghost use Rattle.std.specs.Prelude.{◌≡◌, ◌<◌};
ghost use Rattle.wp_tuples.specs.Placing.{HasPlace, place_in};
ghost use Rattle.wp_novel.specs.MarkedTuples.{pair_of};

use wp_tuples::Places;

#[inline(always)]
pub(crate) fn place_of_pair<P: Places>(index: &P, p: u32, q: u32) -> u64
    requires pair { HasPlace (P.places index.now) (pair_of p q) }
    ensures place { result ≡ place_in (P.places index.now) (pair_of p q) }
    ensures within { result < (P.places index.now).len }
{
    if p < q {
        index.pair_place(p, q)
    } else {
        index.pair_place(q, p)
    }
}
