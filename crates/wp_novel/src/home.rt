//! What is at home of an open pair: the ranks of the atoms that came true in it, its words, and the pass that has all that was marked in them.
ghost use Rattle.std.specs.Prelude.{◌≡◌, ◌⊎◌, ℕ, ◌+◌, ◌-◌, ◌^◌, ◌<◌, ◌≤◌, [], ◌++◌, All, length, IfOk, IfSome, IfNone};
ghost use Rattle.std.specs.List.{list_all};
ghost use Rattle.wp_task.specs.Set.{atoms_in};
ghost use Rattle.wp_tuples.specs.Placing.{Placing, AreApart};
ghost use Rattle.wp_tuples.specs.Ranking.{is_held, ranked, unranked, Extends, HoldsAtoms};
ghost use Rattle.wp_arrive.specs.FirstArrival.{first};
ghost use Rattle.wp_arrive.specs.Seen.{seen};
ghost use Rattle.wp_novel.specs.NoveltyTables.{counters_of, at_home, bare, first_at, IsFilled};
ghost use Rattle.wp_novel.specs.MarkedTuples.{AreCounted};
ghost use Rattle.wp_novel.specs.Marks.{marks_for, IsLeastSize};
ghost use Rattle.wp_novel.specs.Jobs.{AreHeld};
ghost use Rattle.wp_novel.specs.Dealing.{CanBeMarked, IsOfPair, IsEarlierAtOld, CanGrow, grown_home};

use crate::birth::{Birth, Pair};
use crate::first::least_size;
use crate::grow::{Growth, all_held, rank_births};
use crate::marks::mark_births;
use std::alloc::{AllocError, Global};
use std::marker::Model;
use wp_arrive::{Arrivals, Pass};
use wp_tuples::{Places, Ranks};

/// A table has no more words.
const MOST_WORDS: u64 = 2147483648;

/// Words, and their pass.
#[derive(Drop)]
pub(crate) struct Shared {
    arrivals: Arrivals,
    pass: Pass,
}

impl Model for Shared {
    ghost use Rattle.std.specs.Prelude.{◌≡◌, ◌≤◌};
    ghost use Rattle.wp_arrive.specs.Seen.{PassView};

    ghost Value = { PassView };

    ghost view = { λ s. s.pass };

    ghost invariant = { λ s. (s.pass.table ≡ s.arrivals) × (1 ≤ s.pass.table.words) };
}

impl Shared {
    /// The first arrival at a place.
    #[inline(always)]
    pub(crate) fn look(&mut self, place: u64) -> u64
        requires whole { self.old.parts ≡ 2 ^ 32 }
        requires place { place < self.old.table.words }
        ensures first { result ≡ first self.old.marks place }
        ensures same { self.new ≡ self.old }
    {
        self.arrivals.look(&mut self.pass, place)
    }

    /// So many words, if any, at which nothing was marked.
    fn of_words(alloc: Global, words: u64) -> Result<Option<Shared>, AllocError>
        requires { words ≤ 2 ^ 31 }
        ensures none { IfOk result (λ made. IfNone made (words ≡ 0)) }
        ensures some { IfOk result (λ made. IfSome made (λ pass. (pass.table.words ≡ words) × (pass.marks ≡ []) × (pass.parts ≡ 2 ^ 32))) }
    {
        if words == 0 {
            return Ok(None);
        }
        let (arrivals, pass) = Arrivals::new(alloc, words)?;
        Ok(Some(Shared { arrivals, pass }))
    }

    /// More words with the same marks, if there are fewer than are needed.
    fn grown(&mut self, alloc: Global, need: u64, words: u64) -> Result<Option<Shared>, AllocError>
        requires whole { self.old.parts ≡ 2 ^ 32 }
        requires within { (t : ℕ) → self.old.table.words ≤ t → first self.old.marks t ≡ 2 ^ 64 - 1 }
        requires words { (need ≤ words) × (words ≤ 2 ^ 31) }
        ensures same { self.new ≡ self.old }
        ensures none { IfOk result (λ made. IfNone made (need ≤ self.old.table.words)) }
        ensures some { IfOk result (λ made. IfSome made (λ pass. (pass.table.words ≡ words) × (pass.marks ≡ self.old.marks) × (pass.parts ≡ 2 ^ 32))) }
    {
        if need <= self.arrivals.len() {
            return Ok(None);
        }
        let (arrivals, pass) = self.arrivals.grown(alloc, &mut self.pass, words)?;
        Ok(Some(Shared { arrivals, pass }))
    }
}

/// The ranks of an open pair, and its words with their pass, once an atom came true in it.
#[derive(Drop)]
pub(crate) struct Home {
    ranks: Ranks,
    shared: Option<Shared>,
}

impl Model for Home {
    ghost use Rattle.wp_novel.specs.NoveltyTables.{HomeView};
    ghost use Rattle.wp_novel.specs.Homes.{home_with};

    ghost Value = { HomeView };

    ghost view = { λ h. home_with h.ranks h.shared };
}

impl Home {
    /// No tuple is held yet. It takes no memory.
    pub(crate) fn new(alloc: Global, width: u8) -> Home
        requires { (1 ≤ width) × (width ≤ 2) }
        ensures unmarked { result.marks ≡ [] }
        ensures whole { result.parts ≡ 2 ^ 32 }
        ensures filled { (atoms : ℕ) → IsFilled width atoms result }
    {
        let ranks = Ranks::of_none(alloc, width);
        // What holds of ranks is at hand by this look at them.
        let _ = ranks.atoms();
        Home {
            ranks,
            shared: None,
        }
    }

    /// Whether it holds the tuples of the birth's state.
    pub(crate) fn holds(&self, birth: &Birth) -> bool
        ensures { result ≡ list_all (is_held self.now.ranking) (atoms_in birth.now.node.state) }
    {
        all_held(&self.ranks, birth.new_atoms()) && all_held(&self.ranks, birth.old_atoms())
    }

    /// Its ranks, and those of the atoms of the births that have the pair, with more words where they need more.
    pub(crate) fn growth(
        &mut self,
        alloc: Global,
        births: &[Birth],
        pair: Pair,
        atoms: u32,
    ) -> Result<Growth, AllocError>
        requires whole { self.old.parts ≡ 2 ^ 32 }
        requires filled { IsFilled self.old.ranking.width atoms self.old }
        requires births { All (λ b. length b.node.state ≡ atoms) births.now }
        ensures same { self.new ≡ self.old }
        ensures pair { IfOk result (λ growth. growth.pair ≡ pair) }
        ensures can { IfOk result (λ growth. CanGrow atoms births.now pair self.old (grown_home self.old growth.ranks growth.shared)) }
    {
        let mut ranks = self.ranks_of(alloc, atoms)?;
        rank_births(&mut ranks, births, pair)?;
        // What holds of ranks is at hand by this look at them.
        let _ = ranks.atoms();
        let shared = self.words_for(alloc, ranks.len())?;
        Ok(Growth {
            pair,
            ranks,
            shared,
        })
    }

    /// Its ranks once more, for so many atoms.
    fn ranks_of(&self, alloc: Global, atoms: u32) -> Result<Ranks, AllocError>
        requires atoms { (self.now.ranking ≡ unranked self.now.ranking.width 0) ⊎ (length self.now.ranking.ranks ≡ atoms) }
        ensures extends { IfOk result (λ ranks. Extends self.now.ranking ranks) }
        ensures atoms { IfOk result (λ ranks. length ranks.ranks ≡ atoms) }
    {
        if self.ranks.atoms() == atoms as usize {
            return self.ranks.copy();
        }
        if u64::from(atoms) > MOST_WORDS {
            return Err(AllocError);
        }
        Ranks::new(alloc, atoms, self.ranks.width())
    }

    /// As many words, and half as many more, with its marks, where it has fewer.
    // So its words are made anew a few times, and not once for each atom.
    fn words_for(&mut self, alloc: Global, need: u64) -> Result<Option<Shared>, AllocError>
        requires whole { self.old.parts ≡ 2 ^ 32 }
        requires within { (t : ℕ) → self.old.table.words ≤ t → first self.old.marks t ≡ 2 ^ 64 - 1 }
        requires need { need ≤ 2 ^ 33 }
        ensures same { self.new ≡ self.old }
        ensures kept { IfOk result (λ more. IfNone more (need ≤ self.old.table.words)) }
        ensures more { IfOk result (λ more. IfSome more (λ pass. (need ≤ pass.table.words) × (pass.marks ≡ self.old.marks) × (pass.parts ≡ 2 ^ 32))) }
    {
        let room = need + need / 2;
        if room > MOST_WORDS {
            return Err(AllocError);
        }
        match &mut self.shared {
            Some(shared) => shared.grown(alloc, need, room),
            None => Shared::of_words(alloc, room),
        }
    }

    /// Takes ranks, and words where there are any.
    pub(crate) fn grow(&mut self, ranks: Ranks, shared: Option<Shared>)
        ensures { self.new ≡ grown_home self.old ranks shared }
    {
        self.ranks = ranks;
        if let Some(shared) = shared {
            self.shared = Some(shared);
        }
    }

    /// Gives a part of its pass away, where there are words.
    pub(crate) fn lend(&mut self) -> Option<Pass>
        requires { 2 ≤ self.old.parts }
        ensures lent { IfSome result (λ pass. (pass ≡ seen self.old.table [] 1) × (self.new ≡ at_home self.old.ranking self.old.table self.old.marks (self.old.parts - 1)) × (1 ≤ self.old.table.words)) }
        ensures none { IfNone result ((self.new ≡ self.old) × (self.old.table.words ≡ 0)) }
    {
        match &mut self.shared {
            Some(shared) => Some(shared.arrivals.split(&mut shared.pass)),
            None => None,
        }
    }

    /// Takes a pass of its table back.
    pub(crate) fn take(&mut self, pass: Pass)
        requires table { pass.table ≡ self.old.table }
        requires words { 0 < self.old.table.words }
        ensures { self.new ≡ at_home self.old.ranking self.old.table (self.old.marks ++ pass.marks) (self.old.parts + pass.parts) }
    {
        match &mut self.shared {
            Some(shared) => shared.arrivals.join(&mut shared.pass, pass),
            None => unreachable!(),
        }
    }

    /// Marks those of the births that have the pair, by a pass of its table.
    pub(crate) fn mark(&self, births: &[Birth], pair: Pair, pass: &mut Pass)
        requires table { pass.old.table ≡ self.now.table }
        requires words { (ranked self.now.ranking).len ≤ self.now.table.words }
        requires some { 0 < self.now.table.words }
        requires part { 0 < pass.old.parts }
        requires births { All (IsOfPair pair (CanBeMarked (ranked self.now.ranking))) births.now }
        ensures { pass.new ≡ seen pass.old.table (pass.old.marks ++ marks_for (ranked self.now.ranking) (counters_of pair) births.now) pass.old.parts }
    {
        match &self.shared {
            Some(shared) => mark_births(&shared.arrivals, &self.ranks, births, pair, pass),
            None => unreachable!(),
        }
    }

    /// The size of the smallest tuple of the birth that no lesser number was marked at, or one more than the width, where those of them
    /// that have no new atom were marked by lesser numbers.
    // An atom whose tuples are not held never came true here, so it is such a tuple.
    pub(crate) fn least_size(&mut self, birth: &Birth) -> u8
        requires whole { self.old.parts ≡ 2 ^ 32 }
        requires words { (ranked self.old.ranking).len ≤ self.old.table.words }
        ensures size { (index : Placing) → AreApart index → index.width ≡ self.old.ranking.width → length birth.now.node.state ≡ index.atoms →
            AreCounted index birth.now.node.state → IsEarlierAtOld index self.old birth.now → IsLeastSize index (first_at self.old) birth.now.node.state birth.now.node.number result }
        ensures word { birth.now.node.number < 2 ^ 64 }
        ensures same { self.new ≡ self.old }
    {
        let number = birth.number();
        if self.holds(birth) {
            return self.held_size(birth, number);
        }
        1
    }

    /// The same, where it holds the tuples of the birth.
    fn held_size(&mut self, birth: &Birth, number: u64) -> u8
        requires whole { self.old.parts ≡ 2 ^ 32 }
        requires words { (ranked self.old.ranking).len ≤ self.old.table.words }
        requires held { AreHeld self.old.ranking birth.now.node.state }
        requires number { number ≡ birth.now.node.number }
        ensures size { (index : Placing) → AreApart index → index.width ≡ self.old.ranking.width → length birth.now.node.state ≡ index.atoms →
            AreCounted index birth.now.node.state → IsEarlierAtOld index self.old birth.now → IsLeastSize index (first_at self.old) birth.now.node.state birth.now.node.number result }
        ensures same { self.new ≡ self.old }
    {
        // What holds of ranks is at hand by this look at them.
        let _ = self.ranks.atoms();
        match &mut self.shared {
            Some(shared) => least_size(
                shared,
                &self.ranks,
                birth.old_atoms(),
                birth.new_atoms(),
                number,
            ),
            None => self.ranks.width() + 1,
        }
    }
}
