//! States: sets of atoms.
ghost use Rattle.std.specs.Prelude.{◌≡◌, ◌==◌, ◌&&◌, ◌||◌, not, ℕ, ◌+◌, ◌*◌, ◌/◌, ◌%◌, ◌^◌, ◌<◌, ◌≤◌, true, false, length, replicate, count_by, IfOk, IfSome, IfNone, All};
ghost use Rattle.std.specs.List.{list_all, range_with_len};
ghost use Rattle.wp_task.specs.Set.{has, lists, atoms_in, set_of, IsNext};

use crate::atoms::Atoms;
use crate::{bits, lanes};
use std::alloc::{AllocError, Global};
use std::hash::{Hash, Hasher};
use std::marker::Model;

/// A set of the atoms below a size, one bit for each.
#[derive(Drop)]
pub struct State {
    words: Vec<u64>,
    size: u32,
}

impl Model for State {
    ghost use Rattle.std.specs.Prelude.{List, Bool};
    ghost use Rattle.wp_task.specs.Packing.{flags_in, IsPacked};

    ghost Value = { List Bool };

    ghost view = { λ s. flags_in s.words.items s.size };

    ghost invariant = { λ s. IsPacked s.words.items s.size };
}

impl State {
    /// The set of the listed atoms.
    pub fn of(alloc: Global, atoms: &Atoms, size: u32) -> Result<State, AllocError>
        requires { All (λ p. p < size) atoms.now }
        ensures { IfOk result (λ state. state ≡ set_of atoms.now size) }
    {
        let mut state = State::empty(alloc, size)?;
        state.insert_all(atoms);
        Ok(state)
    }

    /// The set of no atom.
    pub fn empty(alloc: Global, size: u32) -> Result<State, AllocError>
        ensures { IfOk result (λ state. state ≡ replicate size false) }
    {
        let words = vec![in alloc; 0u64; (size as usize + 63) / 64]?;
        Ok(State { words, size })
    }

    /// Whether the atom is in the set; none from the size on is.
    pub fn has(&self, p: u32) -> bool
        ensures { result ≡ has self.now p }
    {
        bits::is_set(self.words.as_slice(), p)
    }

    /// How many atoms the set is chosen from.
    pub fn size(&self) -> u32
        ensures { result ≡ length self.now }
    {
        self.size
    }

    /// How many atoms of the set are below p, of those from the last multiple of 64 up to p.
    pub fn count_in_word(&self, p: u32) -> u32
        ensures value { result ≡ count_by (λ i. has self.now (64 * (p / 64) + i)) (range_with_len 0 (p % 64)) }
        ensures few { result < 64 }
    {
        bits::count_in_word(self.words.as_slice(), p)
    }

    /// The least atom of the set that is at least `from`.
    pub fn next(&self, from: u32) -> Option<u32>
        ensures found { IfSome result (λ p. IsNext self.now from p) }
        ensures none { IfNone result ((q : ℕ) → from ≤ q → has self.now q ≡ false) }
    {
        if from >= self.size {
            return None;
        }
        bits::next_set(self.words.as_slice(), from)
    }

    /// Puts an atom in.
    pub fn insert(&mut self, p: u32)
        requires { p < length self.old }
        ensures size { length self.new ≡ length self.old }
        ensures set { (q : ℕ) → has self.new q ≡ (has self.old q || (p == q)) }
    {
        bits::set_bit(&mut self.words, p);
    }

    /// Takes an atom out.
    fn remove(&mut self, p: u32)
        requires { p < length self.old }
        ensures size { length self.new ≡ length self.old }
        ensures set { (q : ℕ) → has self.new q ≡ (has self.old q && not (p == q)) }
    {
        bits::clear_bit(&mut self.words, p);
    }

    /// Puts in those of the listed atoms that the other set has. From how many atoms the set had, answers how many it
    /// has then.
    pub fn insert_common(&mut self, atoms: &Atoms, other: &State, had: u32) -> u32
        requires size { length other.now ≡ length self.old }
        requires count { had ≡ length (atoms_in self.old) }
        ensures size { length self.new ≡ length self.old }
        ensures set { (q : ℕ) → has self.new q ≡ (has self.old q || (lists atoms.now q && has other.now q)) }
        ensures count { result ≡ length (atoms_in self.new) }
    {
        let mut count = had;
        for p in atoms.as_slice() {
            count += self.insert_if(*p, other.has(*p));
        }
        count
    }

    /// Puts an atom in where that is wished; answers 1 where it is new, else 0.
    fn insert_if(&mut self, p: u32, wished: bool) -> u32
        requires { wished ≡ true → p < length self.old }
        ensures size { length self.new ≡ length self.old }
        ensures set { (q : ℕ) → has self.new q ≡ (has self.old q || ((p == q) && wished)) }
        ensures count { length (atoms_in self.new) ≡ length (atoms_in self.old) + result }
        ensures few { length (atoms_in self.new) < 2 ^ 32 }
    {
        if bits::is_set(self.words.as_slice(), p) || !wished {
            return 0;
        }
        self.insert(p);
        1
    }

    pub(crate) fn insert_all(&mut self, atoms: &Atoms)
        requires { All (λ p. p < length self.old) atoms.now }
        ensures size { length self.new ≡ length self.old }
        ensures set { (q : ℕ) → has self.new q ≡ (has self.old q || lists atoms.now q) }
    {
        for p in atoms.as_slice() {
            self.insert(*p);
        }
    }

    pub(crate) fn remove_all(&mut self, atoms: &Atoms)
        requires { All (λ p. p < length self.old) atoms.now }
        ensures size { length self.new ≡ length self.old }
        ensures set { (q : ℕ) → has self.new q ≡ (has self.old q && not (lists atoms.now q)) }
    {
        for p in atoms.as_slice() {
            self.remove(*p);
        }
    }

    /// Whether the set has all atoms of another one.
    pub(crate) fn has_all(&self, atoms: &State) -> bool
        requires { length atoms.now ≡ length self.now }
        ensures { result ≡ list_all (has self.now) (atoms_in atoms.now) }
    {
        let words = self.words.as_slice();
        let wanted = atoms.words.as_slice();
        lanes::covers(words, wanted)
    }

    /// How many atoms of another set are not in this one.
    pub(crate) fn count_missing(&self, atoms: &State) -> u64
        requires { length atoms.now ≡ length self.now }
        ensures { result ≡ count_by (λ p. not (has self.now p)) (atoms_in atoms.now) }
    {
        let _size = self.size;
        let words = self.words.as_slice();
        let wanted = atoms.words.as_slice();
        lanes::count_missing(words, wanted)
    }

    /// Becomes equal to another set of as many atoms, in the memory that it has.
    pub fn copy_from(&mut self, other: &State)
        requires { length other.now ≡ length self.old }
        ensures { self.new ≡ other.now }
    {
        let words = other.words.as_slice();
        let _size = other.size;
        self.words.as_mut_slice().copy_from_slice(words);
    }

    /// An equal state.
    pub fn copy(&self, alloc: Global) -> Result<State, AllocError>
        ensures { IfOk result (λ copy. copy ≡ self.now) }
    {
        let words = Vec::from_slice(alloc, self.words.as_slice())?;
        Ok(State {
            words,
            size: self.size,
        })
    }
}

/// States are equal where their sizes and their atoms are.
impl PartialEq for State {
    ghost use Rattle.std.specs.Cmp.Lexicographic.{pointwise};
    ghost use Rattle.std.specs.Cmp.{bool_eq_equiv, partial_equiv_from_equiv};
    ghost use Rattle.std.specs.Bool.{beq};
    ghost use Rattle.std.proofs.lemmas.Cmp.{lists_equiv};

    ghost eq = { pointwise beq };

    ghost laws = { partial_equiv_from_equiv (lists_equiv bool_eq_equiv) };

    fn eq(&self, other: &State) -> bool {
        let words = self.words.as_slice();
        let others = other.words.as_slice();
        self.size == other.size && lanes::equal(words, others)
    }
}

impl Eq for State {
    ghost use Rattle.std.specs.Cmp.{bool_eq_equiv};
    ghost use Rattle.std.proofs.lemmas.Cmp.{lists_equiv};

    ghost laws = { lists_equiv bool_eq_equiv };
}

impl Hash for State {
    ghost use Rattle.std.specs.Prelude.{refl};
    ghost use Rattle.std.specs.Cmp.Lexicographic.{pointwise};
    ghost use Rattle.std.specs.Cmp.{booleans_Decides};
    ghost use Rattle.std.specs.Bool.{beq};
    ghost use Rattle.std.proofs.Common.{ap};
    ghost use Rattle.std.proofs.lemmas.Slice.Eq.{slice_eq-Decides};
    ghost use Rattle.wp_task.specs.Packing.{hashed_words};

    ghost hash_input = { hashed_words };

    ghost respects_eq = { λ s t h. ap hashed_words ((slice_eq-Decides booleans_Decides s t (pointwise beq s t) refl).0 h) };

    fn hash<H: Hasher>(&self, state: &mut H) {
        let words = self.words.as_slice();
        words.hash(state);
    }
}
