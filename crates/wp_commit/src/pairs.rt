//! The pairs of counters of an expansion that are not open yet.
ghost use Rattle.std.specs.Prelude.{◌≡◌, ◌+◌, ◌*◌, ◌≤◌, [], ◌∷◌, ◌++◌, List, false, length, map, IfOk, OnOk};
ghost use Rattle.wp_task.specs.Novelty.{Generated};
ghost use Rattle.wp_novel.specs.NoveltyTables.{placed, counters_of, open_pairs, is_open, IsAtHome};
ghost use Rattle.wp_novel.specs.StandsFor.{StandsFor};
ghost use Rattle.wp_plain.specs.Pairs.{with_pair};
ghost use Rattle.wp_commit.specs.Newborns.{AreUnopened};
ghost use Rattle.wp_commit.specs.Expansions.{ArePairsToOpen};

use indexmap::IndexSet;
use std::alloc::{AllocError, Global};
use wp_count::Child;
use wp_novel::{Pair, PairError, Tables};
use wp_tuples::Places;

/// The pairs of the children that are not open, each once, in the order of the children.
pub(crate) fn new_pairs<P: Places>(
    alloc: Global,
    tables: &Tables<P>,
    children: &[Child],
) -> Result<Vec<Pair>, AllocError>
    ensures { IfOk result (λ pairs. ArePairsToOpen (placed P.places tables.now) children.now pairs.items) }
{
    let mut pairs = IndexSet::new(alloc);
    for child in children {
        add_pair(
            tables,
            &mut pairs,
            Pair {
                g: child.g,
                r: child.r,
            },
        )?;
    }
    pairs.into_iter().collect(alloc)
}

fn add_pair<P: Places>(
    tables: &Tables<P>,
    pairs: &mut IndexSet<Pair>,
    pair: Pair,
) -> Result<(), AllocError>
    requires { AreUnopened (open_pairs (placed P.places tables.now)) (map counters_of pairs.old.keys) }
    ensures pairs { OnOk result (open_pairs (placed P.places tables.now) ++ map counters_of pairs.new.keys ≡ with_pair (open_pairs (placed P.places tables.now) ++ map counters_of pairs.old.keys) (counters_of pair)) }
    ensures unopened { OnOk result (AreUnopened (open_pairs (placed P.places tables.now)) (map counters_of pairs.new.keys)) }
{
    if !tables.has(pair) {
        pairs.insert(pair)?;
    }
    Ok(())
}

/// Opens the pairs, which are within the limit of words. Where memory is refused some of them are open.
pub(crate) fn open_all<P: Places>(
    tables: &mut Tables<P>,
    pairs: Vec<Pair>,
) -> Result<(), AllocError>
    requires unopened { AreUnopened (open_pairs (placed P.places tables.old)) (map counters_of pairs.items) }
    requires within { (length (open_pairs (placed P.places tables.old)) + length pairs.items) * (P.places tables.old.index).len ≤ tables.old.limit }
    requires home { IsAtHome (placed P.places tables.old) }
    ensures pairs { OnOk result (open_pairs (placed P.places tables.new) ≡ open_pairs (placed P.places tables.old) ++ map counters_of pairs.items) }
    ensures home { OnOk result (IsAtHome (placed P.places tables.new)) }
    ensures index { OnOk result ((P.places tables.new.index) ≡ (P.places tables.old.index)) }
    ensures limit { OnOk result (tables.new.limit ≡ tables.old.limit) }
    ensures last { OnOk result (tables.new.last ≡ tables.old.last) }
    ensures stands { OnOk result ((births : List Generated) → StandsFor (placed P.places tables.old) births → StandsFor (placed P.places tables.new) births) }
{
    for pair in pairs {
        open(tables, pair)?;
    }
    Ok(())
}

/// Opens a pair that has room within the limit of words.
pub(crate) fn open<P: Places>(tables: &mut Tables<P>, pair: Pair) -> Result<(), AllocError>
    requires unopened { is_open (placed P.places tables.old) (counters_of pair) ≡ false }
    requires within { (length (open_pairs (placed P.places tables.old)) + 1) * (P.places tables.old.index).len ≤ tables.old.limit }
    requires home { IsAtHome (placed P.places tables.old) }
    ensures pairs { OnOk result (open_pairs (placed P.places tables.new) ≡ open_pairs (placed P.places tables.old) ++ counters_of pair ∷ []) }
    ensures home { OnOk result (IsAtHome (placed P.places tables.new)) }
    ensures index { OnOk result ((P.places tables.new.index) ≡ (P.places tables.old.index)) }
    ensures limit { OnOk result (tables.new.limit ≡ tables.old.limit) }
    ensures last { OnOk result (tables.new.last ≡ tables.old.last) }
    ensures stands { OnOk result ((births : List Generated) → StandsFor (placed P.places tables.old) births → StandsFor (placed P.places tables.new) births) }
{
    match tables.open_pair(pair) {
        Ok(()) => Ok(()),
        Err(PairError::Words { .. }) => unreachable!(),
        Err(PairError::Memory) => Err(AllocError),
    }
}
