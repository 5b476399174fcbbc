//! The words, and the passes that mark them.
//!
//! A table begins with one pass that has all 2^32 parts. A split gives one part to a new pass, and a join takes parts
//! and marks back. A pass that is dropped keeps its parts, and then nobody can look any more.
ghost use Rattle.std.specs.Prelude.{◌≡◌, ℕ, ◌+◌, ◌-◌, ◌^◌, ◌<◌, ◌≤◌, [], ◌∷◌, ◌++◌, IfOk};
ghost use base.Fml.{ftrue};
ghost use Rattle.wp_arrive.specs.FirstArrival.{mark, first};
ghost use Rattle.wp_arrive.specs.Rule.{latest, AreFirsts};
ghost use Rattle.wp_arrive.specs.Seen.{TableId, table_id_coded, PassView, seen};

use crate::rule::{FirstArrivals, Gives, Looks, Marks, MarksAgain, Origin};
use crate::view::View;
use atomic_table::{Seat, Table};
use std::alloc::{AllocError, Global};
use std::marker::Model;
use std::mem::replace;

/// A word for each place, the same to all who share it.
#[derive(Drop)]
pub struct Arrivals {
    table: Table<u8, View, Origin, FirstArrivals, Global>,
}

impl Model for Arrivals {
    ghost Value = { TableId };

    ghost coded = { table_id_coded };

    ghost view = { λ a. a.table.shared.table_id };

    ghost invariant = { λ a. (a.table.shared.key.words ≡ a.table.shared.table_id.words) × (1 ≤ a.table.shared.table_id.words) × (a.table.shared.table_id.words ≤ 2 ^ 31) };
}

/// The right to mark a table, with the marks that were made by it. It has no bytes.
#[derive(Drop)]
pub struct Pass {
    seat: Seat<u8, View>,
}

impl Model for Pass {
    ghost Value = { PassView };

    ghost view = { λ p. seen p.seat.table_id p.seat.me.0.marks p.seat.me.0.parts };

    ghost invariant = { λ p. p.seat.me.1 ≡ [] };

    ghost also_owns = { λ _. ftrue };
}

unsafe impl Send for Pass {}

unsafe impl Sync for Pass {}

impl Pass {
    // The one place where a pass is made, since its proof is by hand.
    fn of(seat: Seat<u8, View>) -> Pass
        requires { seat.me.1 ≡ [] }
        ensures { result ≡ seen seat.table_id seat.me.0.marks seat.me.0.parts }
    {
        Pass { seat }
    }
}

impl Arrivals {
    /// All words say "none yet". While they are made, they are held twice, so it takes 16 bytes a word.
    pub fn new(alloc: Global, words: u64) -> Result<(Arrivals, Pass), AllocError>
        requires { (1 ≤ words) × (words ≤ 2 ^ 31) }
        ensures { IfOk result (λ r. (r.0.words ≡ words) × (r.1 ≡ seen r.0 [] (2 ^ 32))) }
    {
        let first = vec![in alloc; u64::MAX; words as usize]?;
        let origin = Origin {
            words,
            marked: None,
        };
        let (table, seat) = Table::of_words(alloc, first.as_slice(), &origin)?;
        Ok((Arrivals { table }, Pass::of(seat)))
    }

    /// A table of more words with the same marks. It takes 16 bytes a word while it is made; the old one stays as it is.
    pub fn grown(
        &self,
        alloc: Global,
        pass: &mut Pass,
        words: u64,
    ) -> Result<(Arrivals, Pass), AllocError>
        requires table { pass.old.table ≡ self.now }
        requires all { pass.old.parts ≡ 2 ^ 32 }
        requires words { (self.now.words ≤ words) × (words ≤ 2 ^ 31) }
        requires within { (t : ℕ) → self.now.words ≤ t → first pass.old.marks t ≡ 2 ^ 64 - 1 }
        ensures grown { IfOk result (λ r. (r.0.words ≡ words) × (r.1 ≡ seen r.0 pass.old.marks (2 ^ 32))) }
        ensures same { pass.new ≡ pass.old }
    {
        let first = self.first_words(alloc, pass, words)?;
        // While the new table is told of the pass, a part of it stands in its place.
        let part = self.split(pass);
        let origin = Origin {
            words,
            marked: Some(replace(pass, part)),
        };
        let made = Table::of_words(alloc, first.as_slice(), &origin);
        if let Some(marked) = origin.marked {
            self.join(pass, marked);
        }
        let (table, seat) = made?;
        Ok((Arrivals { table }, Pass::of(seat)))
    }

    /// The first arrivals at so many places.
    fn first_words(
        &self,
        alloc: Global,
        pass: &mut Pass,
        words: u64,
    ) -> Result<Vec<u64>, AllocError>
        requires table { pass.old.table ≡ self.now }
        requires all { pass.old.parts ≡ 2 ^ 32 }
        requires words { (self.now.words ≤ words) × (words ≤ 2 ^ 31) }
        requires within { (t : ℕ) → self.now.words ≤ t → first pass.old.marks t ≡ 2 ^ 64 - 1 }
        ensures some { IfOk result (λ _. 1 ≤ self.now.words) }
        ensures firsts { IfOk result (λ made. AreFirsts pass.old.marks words made.items) }
        ensures same { pass.new ≡ pass.old }
    {
        let mut made = vec![in alloc; u64::MAX; words as usize]?;
        for t in 0..self.table.word_count() {
            made[t] = self.look(pass, t as u64);
        }
        Ok(made)
    }

    /// How many words there are.
    pub fn len(&self) -> u64
        ensures { result ≡ self.now.words }
    {
        self.table.word_count() as u64
    }

    /// One atomic minimum: it waits for no other thread, and in no order of marks is one lost.
    pub fn mark(&self, pass: &mut Pass, t: u64, n: u64)
        requires table { pass.old.table ≡ self.now }
        requires part { 0 < pass.old.parts }
        requires place { t < self.now.words }
        requires number { n < 2 ^ 64 - 1 }
        ensures { pass.new ≡ seen pass.old.table (pass.old.marks ++ mark t n ∷ []) pass.old.parts }
    {
        self.table
            .shared
            .fetch_min::<Marks>(&mut pass.seat, t as usize, n);
    }

    /// The same for the number that was marked last, at another place. The word is looked at first, and a minimum is made only where
    /// it lowers the word.
    // Most places have a lesser number already. A look costs a plain load, a minimum holds the processor up.
    pub fn mark_again(&self, pass: &mut Pass, t: u64, n: u64)
        requires table { pass.old.table ≡ self.now }
        requires part { 0 < pass.old.parts }
        requires place { t < self.now.words }
        requires number { n < 2 ^ 64 - 1 }
        requires latest { latest pass.old.marks ≡ n }
        ensures { pass.new ≡ seen pass.old.table (pass.old.marks ++ mark t n ∷ []) pass.old.parts }
    {
        let word = self
            .table
            .shared
            .load::<MarksAgain>(&mut pass.seat, t as usize);
        if word > n {
            self.mark(pass, t, n);
        }
    }

    /// `u64::MAX` where nothing was marked. Only who has all parts may ask: then no thread marks at the same time.
    pub fn look(&self, pass: &mut Pass, t: u64) -> u64
        requires table { pass.old.table ≡ self.now }
        requires all { pass.old.parts ≡ 2 ^ 32 }
        requires place { t < self.now.words }
        ensures first { result ≡ first pass.old.marks t }
        ensures same { pass.new ≡ pass.old }
    {
        self.table.shared.load::<Looks>(&mut pass.seat, t as usize)
    }

    /// One part goes to the new pass. No memory is taken.
    pub fn split(&self, pass: &mut Pass) -> Pass
        requires table { pass.old.table ≡ self.now }
        requires parts { 2 ≤ pass.old.parts }
        ensures given { result ≡ seen pass.old.table [] 1 }
        ensures left { pass.new ≡ seen pass.old.table pass.old.marks (pass.old.parts - 1) }
    {
        Pass::of(self.table.shared.split_seat::<Gives>(&mut pass.seat))
    }

    /// Marks and parts go over. No memory is taken.
    pub fn join(&self, pass: &mut Pass, other: Pass)
        requires table { pass.old.table ≡ self.now }
        requires other { other.table ≡ self.now }
        ensures { pass.new ≡ seen pass.old.table (pass.old.marks ++ other.marks) (pass.old.parts + other.parts) }
    {
        let Pass { seat } = other;
        self.table.shared.join_seat::<Gives>(&mut pass.seat, seat);
    }
}
