//! How homes grow: the atoms of births that come true for the first time in a pair get ranks there, and words.
//!
//! All growths are made before the first home takes one, so where memory is refused each home is as it was.
ghost use Rattle.std.specs.Prelude.{◌≡◌, ℕ, List, ◌^◌, ◌<◌, ◌≤◌, true, All, length, IfOk, OnOk, IfSome, IfNone, IsSome};
ghost use Rattle.std.specs.List.{list_all};
ghost use Rattle.wp_tuples.specs.Ranking.{is_held, Extends};
ghost use Rattle.wp_novel.specs.NoveltyTables.{counters_of, is_among, pairs_of, home_of, EachHome};
ghost use Rattle.wp_novel.specs.Births.{BirthView};
ghost use Rattle.wp_novel.specs.Jobs.{AreHeld, IsHeldIn};
ghost use Rattle.wp_novel.specs.Dealing.{IsOfPair, AreOver, has_growth, AreGrowths, AreGrown, IsGrowth, Grew};

use crate::birth::{Birth, Pair};
use crate::home::{Home, Shared};
use indexmap::IndexMap;
use std::alloc::{AllocError, Global};
use wp_tuples::{Places, Ranks};

/// What a home of a pair is to take: ranks, and words where those that it has are too few.
#[derive(Drop)]
pub(crate) struct Growth {
    pub pair: Pair,
    pub ranks: Ranks,
    pub shared: Option<Shared>,
}

/// The growths of the pairs that do not hold the tuples of all their births. The homes stay as they are.
pub(crate) fn growths_for(
    alloc: Global,
    homes: &mut IndexMap<Pair, Home>,
    births: &[Birth],
) -> Result<Vec<Growth>, AllocError>
    requires open { All (λ b. is_among (pairs_of homes.old.entries) b.node.counters ≡ true) births.now }
    requires whole { EachHome (λ pair home. home.parts ≡ 2 ^ 32) homes.old.entries }
    requires over { (atoms : ℕ) × AreOver atoms homes.old.entries births.now }
    ensures same { homes.new.entries ≡ homes.old.entries }
    ensures growths { IfOk result (λ growths. (atoms : ℕ) → AreOver atoms homes.old.entries births.now →
        AreGrowths atoms births.now homes.old.entries births.now growths.items) }
{
    let mut growths = Vec::new(alloc);
    for birth in births {
        let pair = birth.pair();
        if !has_growth(&growths, pair) {
            if let Some(growth) = growth_of(alloc, homes, births, birth)? {
                growths.push(growth)?;
            }
        }
    }
    Ok(growths)
}

/// The growth of the birth's pair, if it does not hold the tuples of the birth.
fn growth_of(
    alloc: Global,
    homes: &mut IndexMap<Pair, Home>,
    births: &[Birth],
    birth: &Birth,
) -> Result<Option<Growth>, AllocError>
    requires open { is_among (pairs_of homes.old.entries) birth.now.node.counters ≡ true }
    requires whole { EachHome (λ pair home. home.parts ≡ 2 ^ 32) homes.old.entries }
    requires over { AreOver (length birth.now.node.state) homes.old.entries births.now }
    ensures same { homes.new.entries ≡ homes.old.entries }
    ensures none { IfOk result (λ growth. IfNone growth (IsHeldIn homes.old.entries birth.now)) }
    ensures some { IfOk result (λ growth. IfSome growth (λ g. (counters_of g.pair ≡ birth.now.node.counters) × IsGrowth (length birth.now.node.state) births.now homes.old.entries g)) }
{
    let pair = birth.pair();
    match homes.get_mut(&pair) {
        Some(home) => {
            if home.holds(birth) {
                return Ok(None);
            }
            Ok(Some(home.growth(alloc, births, pair, birth.size())?))
        }
        None => unreachable!(),
    }
}

fn has_growth(growths: &[Growth], pair: Pair) -> bool
    ensures { result ≡ has_growth growths.now (counters_of pair) }
{
    growths.iter().any(|g| g.pair == pair)
}

/// Whether the tuples of all the atoms are held.
pub(crate) fn all_held(ranks: &Ranks, atoms: &[u32]) -> bool
    ensures { result ≡ list_all (is_held ranks.now) atoms.now }
{
    atoms.iter().all(|p| ranks.has(*p))
}

/// Gives ranks to the atoms of those of the births that have the pair.
pub(crate) fn rank_births(ranks: &mut Ranks, births: &[Birth], pair: Pair) -> Result<(), AllocError>
    requires { All (λ b. length b.node.state ≡ length ranks.old.ranks) births.now }
    ensures extends { OnOk result (Extends ranks.old ranks.new) }
    ensures atoms { OnOk result (length ranks.new.ranks ≡ length ranks.old.ranks) }
    ensures held { OnOk result (All (IsOfPair pair (λ b. AreHeld ranks.new b.node.state)) births.now) }
{
    for birth in births {
        if birth.has_pair(pair) {
            rank_atoms(ranks, birth.new_atoms())?;
            rank_atoms(ranks, birth.old_atoms())?;
        }
    }
    Ok(())
}

/// Gives ranks to atoms, at width 2.
fn rank_atoms(ranks: &mut Ranks, atoms: &[u32]) -> Result<(), AllocError>
    requires { All (λ p. p < length ranks.old.ranks) atoms.now }
    ensures extends { OnOk result (Extends ranks.old ranks.new) }
    ensures atoms { OnOk result (length ranks.new.ranks ≡ length ranks.old.ranks) }
    ensures held { OnOk result (list_all (is_held ranks.new) atoms.now ≡ true) }
{
    if ranks.width() == 1 {
        return Ok(());
    }
    for p in atoms {
        if ranks.used() >= 65536 {
            return Err(AllocError);
        }
        ranks.give(*p);
    }
    Ok(())
}

/// Each home takes its growth. It takes no memory.
pub(crate) fn grow_all(homes: &mut IndexMap<Pair, Home>, growths: Vec<Growth>)
    requires { All (λ g. IsSome (home_of homes.old.entries g.pair)) growths.items }
    ensures { (atoms : ℕ) (births : List BirthView) → AreOver atoms homes.old.entries births →
        AreGrowths atoms births homes.old.entries births growths.items → AreGrown atoms births homes.old.entries homes.new.entries }
{
    for growth in growths {
        grow(homes, growth);
    }
}

/// The home of its pair takes the growth.
fn grow(homes: &mut IndexMap<Pair, Home>, growth: Growth)
    requires { IsSome (home_of homes.old.entries growth.pair) }
    ensures { Grew growth homes.old.entries homes.new.entries }
{
    let Growth {
        pair,
        ranks,
        shared,
    } = growth;
    match homes.get_mut(&pair) {
        Some(home) => home.grow(ranks, shared),
        None => unreachable!(),
    }
}
