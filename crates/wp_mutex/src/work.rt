//! The work list of new pairs.
//!
//! A pair waits from its entry into the set until the actions that wait for it were looked at. Such an action needs one of the two
//! atoms; where the pair is that of an atom with itself, it is any action. So no action is looked at again but for a pair that became
//! possible, where rounds over all actions would look at each of them as often as there are rounds.
ghost use Rattle.std.specs.Prelude.{◌≡◌, ◌==◌, ◌&&◌, ◌+◌, ◌<◌, ◌≤◌, ◌++◌, [], ℕ, true, false, nat_lt, length, All, IfOk, IfSome, IfNone, OnOk};
ghost use Rattle.std.specs.Option.{option_to_list};
ghost use Rattle.wp_task.specs.Set.{has, lists};
ghost use Rattle.wp_task.specs.Task.{act_at};
ghost use Rattle.wp_mutex.specs.PossiblePairs.{joins, may_apply, may_follow, possible_pairs, HasRows};
ghost use Rattle.wp_mutex.specs.WorkList.{Grows, IsWithin, IsSound, HasMade, IsSettling, concerns};

use crate::triangle::{are_joined, has_both, joins, lists_both, may_follow, no_pairs};
use std::alloc::{AllocError, Global};
use std::marker::Model;
use wp_task::{State, Task};

/// The set of pairs so far, and the pairs that wait.
#[derive(Drop)]
pub(crate) struct WorkList {
    rows: Vec<State>,
    waiting: Vec<(u32, u32)>,
}

impl Model for WorkList {
    ghost use Rattle.std.specs.Prelude.{length};
    ghost use Rattle.wp_mutex.specs.PossiblePairs.{HasRows};
    ghost use Rattle.wp_mutex.specs.WorkList.{Work, AreBelow};

    ghost Value = { Work };

    ghost view = { λ w. record { pairs = w.rows.items; waiting = w.waiting.items } };

    ghost invariant = { λ w. HasRows (length w.rows.items) w.rows.items × AreBelow (length w.rows.items) w.waiting.items };
}

impl WorkList {
    /// No pair.
    fn empty(alloc: Global, atoms: u32) -> Result<WorkList, AllocError>
        ensures rows { IfOk result (λ work. HasRows atoms work.pairs) }
        ensures none { IfOk result (λ work. (p q : ℕ) → joins work.pairs p q ≡ false) }
    {
        let rows = no_pairs(alloc, atoms)?;
        Ok(WorkList {
            rows,
            waiting: Vec::new(alloc),
        })
    }

    /// Puts a pair in, which then waits where it was not there.
    fn join(&mut self, p: u32, q: u32) -> Result<(), AllocError>
        requires left { p < length self.old.pairs }
        requires right { q < length self.old.pairs }
        ensures grows { OnOk result (Grows self.old self.new) }
        ensures there { OnOk result (joins self.new.pairs p q ≡ true) }
        ensures within { OnOk result (IsWithin (λ x y. (x == p) && (y == q)) self.old.pairs self.new.pairs) }
    {
        if joins(self.rows.as_slice(), p, q) {
            return Ok(());
        }
        self.waiting.push((p, q))?;
        self.rows[p.max(q) as usize].insert(p.min(q));
        Ok(())
    }

    /// Puts in each of the listed atoms with q.
    fn join_all(&mut self, atoms: &[u32], q: u32) -> Result<(), AllocError>
        requires left { All (λ p. p < length self.old.pairs) atoms.now }
        requires right { q < length self.old.pairs }
        ensures grows { OnOk result (Grows self.old self.new) }
        ensures there { OnOk result ((p : ℕ) → lists atoms.now p ≡ true → joins self.new.pairs p q ≡ true) }
        ensures within { OnOk result (IsWithin (λ x y. lists atoms.now x && (y == q)) self.old.pairs self.new.pairs) }
    {
        for p in atoms {
            self.join(*p, q)?;
        }
        Ok(())
    }

    /// Puts a pair in where that is wished.
    fn join_if(&mut self, p: u32, q: u32, wished: bool) -> Result<(), AllocError>
        requires left { p < length self.old.pairs }
        requires right { q < length self.old.pairs }
        ensures grows { OnOk result (Grows self.old self.new) }
        ensures there { OnOk result (wished ≡ true → joins self.new.pairs p q ≡ true) }
        ensures within { OnOk result (IsWithin (λ x y. wished && ((x == p) && (y == q))) self.old.pairs self.new.pairs) }
    {
        if wished {
            self.join(p, q)?;
        }
        Ok(())
    }

    /// Puts in the pairs of a state whose greater atom is q.
    fn join_row(&mut self, s: &State, q: u32) -> Result<(), AllocError>
        requires right { q < length self.old.pairs }
        requires few { q < 65536 }
        ensures grows { OnOk result (Grows self.old self.new) }
        ensures there { OnOk result ((p : ℕ) → p < q + 1 → has s.now p && has s.now q ≡ true → joins self.new.pairs p q ≡ true) }
        ensures within { OnOk result (IsWithin (λ x y. has s.now x && has s.now y) self.old.pairs self.new.pairs) }
    {
        for p in 0..q + 1 {
            let both = has_both(s, p, q);
            self.join_if(p, q, both)?;
        }
        Ok(())
    }

    /// Puts in the pairs of a state.
    fn join_state(&mut self, s: &State) -> Result<(), AllocError>
        requires size { length s.now ≡ length self.old.pairs }
        requires few { length s.now ≤ 65536 }
        ensures grows { OnOk result (Grows self.old self.new) }
        ensures there { OnOk result ((p q : ℕ) → has s.now p ≡ true → has s.now q ≡ true → joins self.new.pairs p q ≡ true) }
        ensures within { OnOk result (IsWithin (λ x y. has s.now x && has s.now y) self.old.pairs self.new.pairs) }
    {
        for q in 0..s.size() {
            self.join_row(s, q)?;
        }
        Ok(())
    }

    /// Puts in the pairs with q that an action makes possible.
    fn fire(&mut self, task: &Task, a: u32, q: u32) -> Result<(), AllocError>
        requires number { a < length task.now.acts }
        requires size { length self.old.pairs ≡ task.now.atoms }
        requires atom { q < length self.old.pairs }
        requires may { may_apply (joins self.old.pairs) (act_at task.now.acts a) ≡ true }
        ensures grows { OnOk result (Grows self.old self.new) }
        ensures sound { OnOk result (IsSound task.now.acts self.old.pairs self.new.pairs) }
        ensures made { OnOk result (HasMade (act_at task.now.acts a) (λ k. k == q) self.old.pairs self.new.pairs) }
    {
        if may_follow(self.rows.as_slice(), task, a, q) {
            self.join_all(task.add(a), q)?;
        }
        Ok(())
    }

    /// Puts in all pairs that an action makes possible.
    fn fire_all(&mut self, task: &Task, a: u32) -> Result<(), AllocError>
        requires number { a < length task.now.acts }
        requires size { length self.old.pairs ≡ task.now.atoms }
        requires may { may_apply (joins self.old.pairs) (act_at task.now.acts a) ≡ true }
        ensures grows { OnOk result (Grows self.old self.new) }
        ensures sound { OnOk result (IsSound task.now.acts self.old.pairs self.new.pairs) }
        ensures made { OnOk result (HasMade (act_at task.now.acts a) (λ k. true) self.old.pairs self.new.pairs) }
    {
        for q in 0..task.atoms() {
            self.fire(task, a, q)?;
        }
        Ok(())
    }

    /// Puts in what an action that may apply makes possible now that a pair is known.
    fn wake(&mut self, task: &Task, a: u32, p: u32, q: u32) -> Result<(), AllocError>
        requires number { a < length task.now.acts }
        requires size { length self.old.pairs ≡ task.now.atoms }
        requires left { p < length self.old.pairs }
        requires right { q < length self.old.pairs }
        requires may { may_apply (joins self.old.pairs) (act_at task.now.acts a) ≡ true }
        ensures grows { OnOk result (Grows self.old self.new) }
        ensures sound { OnOk result (IsSound task.now.acts self.old.pairs self.new.pairs) }
        ensures made { OnOk result (HasMade (act_at task.now.acts a) (concerns (act_at task.now.acts a) p q) self.old.pairs self.new.pairs) }
    {
        if lists_both(task.pre(a), p, q) {
            self.fire_all(task, a)?;
            return Ok(());
        }
        self.fire(task, a, p)?;
        self.fire(task, a, q)?;
        Ok(())
    }

    /// Puts in what an action makes possible now that a pair is known.
    fn look_at(&mut self, task: &Task, a: u32, p: u32, q: u32) -> Result<(), AllocError>
        requires number { a < length task.now.acts }
        requires size { length self.old.pairs ≡ task.now.atoms }
        requires left { p < length self.old.pairs }
        requires right { q < length self.old.pairs }
        ensures grows { OnOk result (Grows self.old self.new) }
        ensures sound { OnOk result (IsSound task.now.acts self.old.pairs self.new.pairs) }
        ensures made { OnOk result (HasMade (act_at task.now.acts a) (concerns (act_at task.now.acts a) p q) self.old.pairs self.new.pairs) }
    {
        if are_joined(self.rows.as_slice(), task.pre(a)) {
            self.wake(task, a, p, q)?;
        }
        Ok(())
    }

    /// Looks at the listed actions.
    fn look_at_all(&mut self, task: &Task, acts: &[u32], p: u32, q: u32) -> Result<(), AllocError>
        requires numbers { All (λ a. a < length task.now.acts) acts.now }
        requires size { length self.old.pairs ≡ task.now.atoms }
        requires left { p < length self.old.pairs }
        requires right { q < length self.old.pairs }
        ensures grows { OnOk result (Grows self.old self.new) }
        ensures sound { OnOk result (IsSound task.now.acts self.old.pairs self.new.pairs) }
        ensures made { OnOk result ((a : ℕ) → lists acts.now a ≡ true →
            HasMade (act_at task.now.acts a) (concerns (act_at task.now.acts a) p q) self.old.pairs self.new.pairs) }
    {
        for a in acts {
            self.look_at(task, *a, p, q)?;
        }
        Ok(())
    }

    /// Looks at every action, now that an atom is possible.
    fn look_at_each(&mut self, task: &Task, p: u32) -> Result<(), AllocError>
        requires size { length self.old.pairs ≡ task.now.atoms }
        requires atom { p < length self.old.pairs }
        ensures grows { OnOk result (Grows self.old self.new) }
        ensures sound { OnOk result (IsSound task.now.acts self.old.pairs self.new.pairs) }
        ensures made { OnOk result ((a : ℕ) → a < length task.now.acts →
            HasMade (act_at task.now.acts a) (concerns (act_at task.now.acts a) p p) self.old.pairs self.new.pairs) }
    {
        for a in 0..task.act_count() {
            self.look_at(task, a, p, p)?;
        }
        Ok(())
    }

    /// Looks at the actions that wait for a pair.
    fn look(&mut self, task: &Task, p: u32, q: u32) -> Result<(), AllocError>
        requires size { length self.old.pairs ≡ task.now.atoms }
        requires left { p < length self.old.pairs }
        requires right { q < length self.old.pairs }
        ensures grows { OnOk result (Grows self.old self.new) }
        ensures sound { OnOk result (IsSound task.now.acts self.old.pairs self.new.pairs) }
        ensures made { OnOk result ((a : ℕ) → a < length task.now.acts →
            HasMade (act_at task.now.acts a) (concerns (act_at task.now.acts a) p q) self.old.pairs self.new.pairs) }
    {
        // An atom that became possible may stay true through any action.
        if p == q {
            self.look_at_each(task, p)?;
            return Ok(());
        }
        self.look_at_all(task, task.needers(p), p, q)?;
        self.look_at_all(task, task.needers(q), p, q)?;
        Ok(())
    }

    /// Puts in what an action makes possible where it has no precondition, since it then waits for no pair.
    fn fire_if_free(&mut self, task: &Task, a: u32) -> Result<(), AllocError>
        requires number { a < length task.now.acts }
        requires size { length self.old.pairs ≡ task.now.atoms }
        ensures grows { OnOk result (Grows self.old self.new) }
        ensures sound { OnOk result (IsSound task.now.acts self.old.pairs self.new.pairs) }
        ensures made { OnOk result ((act_at task.now.acts a).pre ≡ [] →
            HasMade (act_at task.now.acts a) (λ k. true) self.old.pairs self.new.pairs) }
    {
        if task.pre(a).is_empty() {
            self.fire_all(task, a)?;
        }
        Ok(())
    }

    /// Puts in what the actions without preconditions make possible.
    fn fire_free(&mut self, task: &Task) -> Result<(), AllocError>
        requires { length self.old.pairs ≡ task.now.atoms }
        ensures grows { OnOk result (Grows self.old self.new) }
        ensures sound { OnOk result (IsSound task.now.acts self.old.pairs self.new.pairs) }
        ensures made { OnOk result ((a : ℕ) → a < length task.now.acts → (act_at task.now.acts a).pre ≡ [] →
            HasMade (act_at task.now.acts a) (λ k. true) self.old.pairs self.new.pairs) }
    {
        for a in 0..task.act_count() {
            self.fire_if_free(task, a)?;
        }
        Ok(())
    }

    /// What is there before a pair was looked at.
    fn start(alloc: Global, task: &Task) -> Result<WorkList, AllocError>
        requires { length task.now.init ≡ task.now.atoms }
        ensures { IfOk result (λ work. IsSettling task.now.acts task.now.init work) }
    {
        let mut work = WorkList::empty(alloc, task.atoms())?;
        work.join_state(task.init())?;
        work.fire_free(task)?;
        Ok(work)
    }

    /// Takes a pair that waits.
    fn take(&mut self) -> Option<(u32, u32)>
        ensures pairs { self.new.pairs ≡ self.old.pairs }
        ensures waiting { self.old.waiting ≡ self.new.waiting ++ option_to_list result }
        ensures left { IfSome result (λ pair. pair.0 < length self.old.pairs) }
        ensures right { IfSome result (λ pair. pair.1 < length self.old.pairs) }
        ensures last { IfNone result (length self.old.waiting ≡ 0) }
    {
        self.waiting.pop()
    }

    /// Looks at the pairs that wait, one after another.
    fn settle(&mut self, task: &Task) -> Result<(), AllocError>
        requires size { length task.now.init ≡ task.now.atoms }
        requires settling { IsSettling task.now.acts task.now.init self.old }
        ensures { OnOk result (self.new.pairs ≡ possible_pairs task.now.acts task.now.init) }
    {
        while let Some(pair) = self.take() {
            self.look(task, pair.0, pair.1)?;
        }
        Ok(())
    }
}

/// The rows of the possible pairs of a task.
pub(crate) fn possible_rows(alloc: Global, task: &Task) -> Result<Vec<State>, AllocError>
    requires { length task.now.init ≡ task.now.atoms }
    ensures { IfOk result (λ rows. rows.items ≡ possible_pairs task.now.acts task.now.init) }
{
    let mut work = WorkList::start(alloc, task)?;
    work.settle(task)?;
    let WorkList { rows, waiting: _ } = work;
    Ok(rows)
}
