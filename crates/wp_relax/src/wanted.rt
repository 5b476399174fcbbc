//! The atoms that a relaxed plan has to reach, and sets of numbers as flags.
ghost use Rattle.std.specs.Prelude.{◌≡◌, ◌==◌, ◌+◌, ◌&&◌, ◌||◌, not, ℕ, ◌<◌, true, false, length, replicate, count_by, slice_index_or, None, IfOk, IfSome, OnOk, All};
ghost use Rattle.wp_task.specs.Set.{has, lists};
ghost use Rattle.wp_relax.specs.RelaxedPlan.{needs, adds, wanted_of, is_wanted_added, AreActs};

use std::alloc::{AllocError, Global};
use wp_task::{State, Task};

/// The wanted atoms of a state, one flag for each atom.
pub(crate) fn wanted_of(
    alloc: Global,
    task: &Task,
    s: &State,
    supporters: &[Option<u32>],
) -> Result<Vec<bool>, AllocError>
    requires state { length s.now ≡ task.now.atoms }
    requires size { length supporters.now ≡ task.now.atoms }
    requires numbers { AreActs (length task.now.acts) supporters.now }
    ensures { IfOk result (λ wanted. wanted.items ≡ wanted_of task.now.acts task.now.goals s.now supporters.now) }
{
    let mut wanted = no_flags(alloc, s.size())?;
    let mut todo = Vec::new(alloc);
    want_all(&mut wanted, &mut todo, task, s, supporters)?;
    Ok(wanted)
}

/// Sets the flags of the wanted atoms, whatever was there before.
// Each wanted atom is looked at once: it is still to do from when its flag is set until it is taken.
pub(crate) fn want_all(
    wanted: &mut Vec<bool>,
    todo: &mut Vec<u32>,
    task: &Task,
    s: &State,
    supporters: &[Option<u32>],
) -> Result<(), AllocError>
    requires state { length s.now ≡ task.now.atoms }
    requires size { length supporters.now ≡ task.now.atoms }
    requires numbers { AreActs (length task.now.acts) supporters.now }
    requires flags { length wanted.old.items ≡ task.now.atoms }
    ensures value { OnOk result (wanted.new.items ≡ wanted_of task.now.acts task.now.goals s.now supporters.now) }
    ensures size { length wanted.new.items ≡ length wanted.old.items }
{
    unset_all(wanted);
    todo.clear();
    want(wanted, todo, s, task.goals().as_slice())?;
    while let Some(p) = todo.pop() {
        want_needs(wanted, todo, task, s, supporter_at(supporters, p))?;
    }
    Ok(())
}

/// What a supporter needs and the state lacks is wanted.
fn want_needs(
    wanted: &mut Vec<bool>,
    todo: &mut Vec<u32>,
    task: &Task,
    s: &State,
    supporter: Option<u32>,
) -> Result<(), AllocError>
    requires size { length wanted.old.items ≡ task.now.atoms }
    requires number { IfSome supporter (λ a. a < length task.now.acts) }
    requires below { All (λ p. p < length wanted.old.items) todo.old.items }
    ensures size { length wanted.new.items ≡ length wanted.old.items }
    ensures set { OnOk result ((q : ℕ) → has wanted.new.items q ≡ (has wanted.old.items q || (needs task.now.acts supporter q && not (has s.now q)))) }
    ensures todo { OnOk result ((q : ℕ) → lists todo.new.items q ≡ (lists todo.old.items q || (has wanted.new.items q && not (has wanted.old.items q)))) }
    ensures below { OnOk result (All (λ p. p < length wanted.old.items) todo.new.items) }
    ensures left { OnOk result (length todo.new.items + count_by not wanted.new.items ≡ length todo.old.items + count_by not wanted.old.items) }
{
    if let Some(a) = supporter {
        want(wanted, todo, s, task.pre(a))?;
    }
    Ok(())
}

/// Those of the listed atoms that the state lacks are wanted, and still to do where they were not wanted before.
fn want(
    wanted: &mut Vec<bool>,
    todo: &mut Vec<u32>,
    s: &State,
    atoms: &[u32],
) -> Result<(), AllocError>
    requires atoms { All (λ p. p < length wanted.old.items) atoms.now }
    requires below { All (λ p. p < length wanted.old.items) todo.old.items }
    ensures size { length wanted.new.items ≡ length wanted.old.items }
    ensures set { OnOk result ((q : ℕ) → has wanted.new.items q ≡ (has wanted.old.items q || (lists atoms.now q && not (has s.now q)))) }
    ensures todo { OnOk result ((q : ℕ) → lists todo.new.items q ≡ (lists todo.old.items q || (has wanted.new.items q && not (has wanted.old.items q)))) }
    ensures below { OnOk result (All (λ p. p < length wanted.old.items) todo.new.items) }
    ensures left { OnOk result (length todo.new.items + count_by not wanted.new.items ≡ length todo.old.items + count_by not wanted.old.items) }
{
    for p in atoms {
        want_if(wanted, todo, *p, !s.has(*p))?;
    }
    Ok(())
}

fn want_if(
    wanted: &mut Vec<bool>,
    todo: &mut Vec<u32>,
    p: u32,
    lacking: bool,
) -> Result<(), AllocError>
    requires atom { p < length wanted.old.items }
    requires below { All (λ q. q < length wanted.old.items) todo.old.items }
    ensures size { length wanted.new.items ≡ length wanted.old.items }
    ensures set { OnOk result ((q : ℕ) → has wanted.new.items q ≡ (has wanted.old.items q || ((p == q) && lacking))) }
    ensures todo { OnOk result ((q : ℕ) → lists todo.new.items q ≡ (lists todo.old.items q || (has wanted.new.items q && not (has wanted.old.items q)))) }
    ensures below { OnOk result (All (λ q. q < length wanted.old.items) todo.new.items) }
    ensures left { OnOk result (length todo.new.items + count_by not wanted.new.items ≡ length todo.old.items + count_by not wanted.old.items) }
{
    if lacking && !wanted[p as usize] {
        todo.push(p)?;
        wanted[p as usize] = true;
    }
    Ok(())
}

/// Sets the flags of the atoms that the supporters of the wanted atoms add and that the state lacks, whatever was there
/// before.
pub(crate) fn add_all(
    added: &mut Vec<bool>,
    task: &Task,
    s: &State,
    supporters: &[Option<u32>],
    wanted: &[bool],
)
    requires size { length supporters.now ≡ task.now.atoms }
    requires numbers { AreActs (length task.now.acts) supporters.now }
    requires wanted { length wanted.now ≡ task.now.atoms }
    requires flags { length added.old.items ≡ task.now.atoms }
    ensures size { length added.new.items ≡ length added.old.items }
    ensures set { (q : ℕ) → has added.new.items q ≡ (is_wanted_added task.now.acts supporters.now wanted.now q && not (has s.now q)) }
{
    unset_all(added);
    for p in 0..task.atoms() {
        add_if(
            added,
            task,
            s,
            supporter_at(supporters, p),
            wanted[p as usize],
        );
    }
}

/// Sets the flags of what a supporter adds and the state lacks, where its atom is wanted.
fn add_if(added: &mut Vec<bool>, task: &Task, s: &State, supporter: Option<u32>, wanted: bool)
    requires size { length added.old.items ≡ task.now.atoms }
    requires number { IfSome supporter (λ a. a < length task.now.acts) }
    ensures size { length added.new.items ≡ length added.old.items }
    ensures set { (q : ℕ) → has added.new.items q ≡ (has added.old.items q || ((wanted && adds task.now.acts supporter q) && not (has s.now q))) }
{
    if !wanted {
        return;
    }
    if let Some(a) = supporter {
        mark_missing(added, s, task.add(a));
    }
}

/// Sets the flags of the listed atoms that the state lacks.
pub(crate) fn mark_missing(flags: &mut Vec<bool>, s: &State, atoms: &[u32])
    requires { All (λ p. p < length flags.old.items) atoms.now }
    ensures size { length flags.new.items ≡ length flags.old.items }
    ensures set { (q : ℕ) → has flags.new.items q ≡ (has flags.old.items q || (lists atoms.now q && not (has s.now q))) }
{
    for p in atoms {
        mark_if(flags, *p, !s.has(*p));
    }
}

/// Sets a flag where that is wished.
pub(crate) fn mark_if(flags: &mut Vec<bool>, p: u32, wished: bool)
    requires { p < length flags.old.items }
    ensures size { length flags.new.items ≡ length flags.old.items }
    ensures set { (q : ℕ) → has flags.new.items q ≡ (has flags.old.items q || ((p == q) && wished)) }
{
    flags[p as usize] |= wished;
}

/// Sets no flag any more.
fn unset_all(flags: &mut Vec<bool>)
    ensures { flags.new.items ≡ replicate (length flags.old.items) false }
{
    flags.fill(false);
}

fn supporter_at(supporters: &[Option<u32>], p: u32) -> Option<u32>
    requires { p < length supporters.now }
    ensures { result ≡ slice_index_or supporters.now p None }
{
    supporters[p as usize]
}

pub(crate) fn no_flags(alloc: Global, count: u32) -> Result<Vec<bool>, AllocError>
    ensures { IfOk result (λ flags. flags.items ≡ replicate count false) }
{
    vec![in alloc; false; count as usize]
}
