//! What an index of tuples promises.
ghost use Rattle.std.specs.Prelude.{◌≡◌, ◌<◌};
ghost use Rattle.wp_tuples.specs.Placing.{Placing, IsCounted, AreApart};

/// An index: a place below `len` for each single atom and, at width 2, for each pair of atoms that is counted. Different tuples have
/// different places.
pub trait Places: Sync {
    ghost places: { Self → Placing };

    /// How many atoms a tuple may have.
    fn width(&self) -> u8
        ensures value { result ≡ (places self.now).width }
        ensures apart { AreApart (places self.now) };

    /// How many places there are.
    fn len(&self) -> u64
        ensures value { result ≡ (places self.now).len }
        ensures apart { AreApart (places self.now) };

    /// The place of a single atom.
    fn atom_place(&self, p: u32) -> u64
        requires { p < (places self.now).atoms }
        ensures place { result ≡ (places self.now).atom_place p }
        ensures within { result < (places self.now).len };

    /// The place of a pair of atoms, the lesser one first.
    fn pair_place(&self, p: u32, q: u32) -> u64
        requires width { (places self.now).width ≡ 2 }
        requires counted { IsCounted (places self.now) p q }
        ensures place { result ≡ (places self.now).pair_place p q }
        ensures within { result < (places self.now).len };
}
