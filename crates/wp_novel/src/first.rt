//! First arrivals: whether a state has a tuple that no number below a given one was marked at.
ghost use Rattle.std.specs.Prelude.{◌≡◌, ℕ, ◌+◌, ◌^◌, ◌<◌, ◌≤◌, [], ◌∷◌, List, All, length, map, if◌then◌else◌};
ghost use Rattle.std.specs.List.{list_any};
ghost use Rattle.wp_tuples.specs.Placing.{HasPlace, AreApart};
ghost use Rattle.wp_novel.specs.MarkedTuples.{pair_of, pairs_after, tuples_with_new};
ghost use Rattle.wp_novel.specs.Marks.{is_late, late_size};

use crate::home::Shared;
use crate::places::place_of_pair;
use wp_tuples::Places;

/// The size of the smallest tuple of these atoms with a new one that no lesser number was marked at, or one more than the width.
// Single atoms go first: a pair is looked at only where no atom alone is new.
pub(crate) fn least_size<P: Places>(
    shared: &mut Shared,
    index: &P,
    old: &[u32],
    new: &[u32],
    number: u64,
) -> u8
    requires whole { shared.old.parts ≡ 2 ^ 32 }
    requires words { (P.places index.now).len ≤ shared.old.table.words }
    requires tuples { All (HasPlace (P.places index.now)) (tuples_with_new (P.places index.now).width old.now new.now) }
    ensures apart { AreApart (P.places index.now) }
    ensures size { result ≡ late_size (P.places index.now) shared.old.marks number old.now new.now }
    ensures same { shared.new ≡ shared.old }
{
    let width = index.width();
    if has_late_atom(shared, index, new, number) {
        return 1;
    }
    if width == 2 && has_late_pair(shared, index, old, new, number) {
        return 2;
    }
    width + 1
}

/// Whether one of the atoms is such a tuple.
fn has_late_atom<P: Places>(shared: &mut Shared, index: &P, atoms: &[u32], number: u64) -> bool
    requires whole { shared.old.parts ≡ 2 ^ 32 }
    requires words { (P.places index.now).len ≤ shared.old.table.words }
    requires tuples { All (HasPlace (P.places index.now)) (map (λ p. p ∷ []) atoms.now) }
    ensures late { result ≡ list_any (is_late (P.places index.now) shared.old.marks number) (map (λ p. p ∷ []) atoms.now) }
    ensures same { shared.new ≡ shared.old }
{
    for p in atoms {
        if shared.look(index.atom_place(*p)) >= number {
            return true;
        }
    }
    false
}

/// Whether two of the atoms, one of them new, are such a tuple.
fn has_late_pair<P: Places>(
    shared: &mut Shared,
    index: &P,
    old: &[u32],
    new: &[u32],
    number: u64,
) -> bool
    requires whole { shared.old.parts ≡ 2 ^ 32 }
    requires words { (P.places index.now).len ≤ shared.old.table.words }
    requires tuples { All (HasPlace (P.places index.now)) (pairs_after old.now new.now) }
    ensures late { result ≡ list_any (is_late (P.places index.now) shared.old.marks number) (pairs_after old.now new.now) }
    ensures same { shared.new ≡ shared.old }
{
    for place in 0..new.len() {
        if has_late_with(shared, index, old, new[place], number) {
            return true;
        }
        if has_late_with(shared, index, &new[..place], new[place], number) {
            return true;
        }
    }
    false
}

/// Whether q and one of the atoms are such a tuple.
fn has_late_with<P: Places>(
    shared: &mut Shared,
    index: &P,
    atoms: &[u32],
    q: u32,
    number: u64,
) -> bool
    requires whole { shared.old.parts ≡ 2 ^ 32 }
    requires words { (P.places index.now).len ≤ shared.old.table.words }
    requires tuples { All (HasPlace (P.places index.now)) (map (λ p. pair_of p q) atoms.now) }
    ensures late { result ≡ list_any (is_late (P.places index.now) shared.old.marks number) (map (λ p. pair_of p q) atoms.now) }
    ensures same { shared.new ≡ shared.old }
{
    for p in atoms {
        if shared.look(place_of_pair(index, *p, q)) >= number {
            return true;
        }
    }
    false
}
