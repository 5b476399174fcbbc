//! Relaxed plans, and the atoms that they add.
ghost use Rattle.std.specs.Prelude.{◌≡◌, ◌++◌, ◌∷◌, [], ◌&&◌, ◌||◌, not, ℕ, ◌<◌, ◌≤◌, ◌^◌, length, map, filter, IfOk, IfSome, OnOk, All, Some, if◌then◌else◌};
ghost use Rattle.std.specs.List.{range_with_len};
ghost use Rattle.wp_task.specs.Set.{has, lists, atoms_in};
ghost use Rattle.wp_task.specs.Task.{act_at};
ghost use Rattle.wp_relax.specs.AdditiveCost.{infinite, price_of};
ghost use Rattle.wp_relax.specs.RelaxedPlan.{is_for, supports, in_order, in_reach, relaxed_plan_of, relaxed_atoms_of, AreActs};
ghost use Rattle.wp_relax.specs.Workspace.{room_for};

use crate::costs::Costs;
use crate::frontier::INFINITE;
use crate::wanted;
use crate::workspace::Workspace;
use std::alloc::{AllocError, Global};
use wp_task::{Atoms, State, Task, Track};

/// The relaxed plan at a state; None where the cost of a goal is infinite.
pub fn relaxed_plan(alloc: Global, task: &Task, s: &State) -> Result<Option<Atoms>, AllocError>
    requires { length s.now ≡ task.now.atoms }
    ensures value { IfOk result (λ plan. plan ≡ relaxed_plan_of task.now.acts task.now.goals s.now) }
    ensures numbers { IfOk result (λ plan. IfSome plan (All (λ a. a < length task.now.acts))) }
{
    let costs = Costs::of(alloc, task, s)?;
    if !in_reach(task.goals(), costs.costs()) {
        return Ok(None);
    }
    let wanted = wanted::wanted_of(alloc, task, s, costs.supporters())?;
    let plan = supporters_in_order(alloc, task, &costs, &wanted)?;
    Ok(Some(plan))
}

/// The atoms that the relaxed plan at a state adds and that are not in the state; none where there is no plan.
pub fn relaxed_atoms(alloc: Global, task: &Task, s: &State) -> Result<Track, AllocError>
    requires { length s.now ≡ task.now.atoms }
    ensures value { IfOk result (λ track. track ≡ relaxed_atoms_of task.now.acts task.now.goals s.now) }
    ensures below { IfOk result (λ track. All (λ p. p < task.now.atoms) track) }
{
    let mut work = Workspace::of(alloc, task)?;
    relaxed_atoms_in(alloc, &mut work, task, s)
}

/// The same, made in a workspace that serves the task.
pub fn relaxed_atoms_in(
    alloc: Global,
    work: &mut Workspace,
    task: &Task,
    s: &State,
) -> Result<Track, AllocError>
    requires serves { work.old ≡ room_for task.now }
    requires size { length s.now ≡ task.now.atoms }
    ensures value { IfOk result (λ track. track ≡ relaxed_atoms_of task.now.acts task.now.goals s.now) }
    ensures below { IfOk result (λ track. All (λ p. p < task.now.atoms) track) }
    ensures room { work.new ≡ work.old }
{
    work.relaxed_atoms(alloc, task, s)
}

pub(crate) fn in_reach(goals: &Atoms, costs: &[u64]) -> bool
    requires { All (λ p. p < length costs.now) goals.now }
    ensures { result ≡ in_reach goals.now costs.now }
{
    for p in goals.as_slice() {
        if costs[*p as usize] >= INFINITE {
            return false;
        }
    }
    true
}

/// The supporters of the wanted atoms, by price and then by number.
fn supporters_in_order(
    alloc: Global,
    task: &Task,
    costs: &Costs,
    wanted: &[bool],
) -> Result<Atoms, AllocError>
    requires size { length costs.now.costs ≡ task.now.atoms }
    requires bounded { All (λ cost. cost ≤ infinite) costs.now.costs }
    requires numbers { AreActs (length task.now.acts) costs.now.supporters }
    requires flags { length wanted.now ≡ task.now.atoms }
    ensures value { IfOk result (λ plan. plan ≡ in_order (λ a. price_of costs.now.costs (act_at task.now.acts a)) (filter (supports costs.now.supporters wanted.now) (range_with_len 0 (length task.now.acts)))) }
    ensures numbers { IfOk result (λ plan. All (λ a. a < length task.now.acts) plan) }
{
    let supporting = supporting(alloc, task, costs, wanted)?;
    let mut priced = with_prices(alloc, task, costs, &supporting)?;
    priced.sort_unstable();
    without_prices(alloc, &priced)
}

/// The actions of a set in number order, each after its price.
fn with_prices(
    alloc: Global,
    task: &Task,
    costs: &Costs,
    set: &[bool],
) -> Result<Vec<(u64, u32)>, AllocError>
    requires size { length costs.now.costs ≡ task.now.atoms }
    requires bounded { All (λ cost. cost ≤ infinite) costs.now.costs }
    requires flags { length set.now ≡ length task.now.acts }
    ensures { IfOk result (λ priced. priced.items ≡ map (λ a. (price_of costs.now.costs (act_at task.now.acts a), a)) (filter (has set.now) (range_with_len 0 (length task.now.acts)))) }
{
    let mut priced = Vec::new(alloc);
    for a in 0..task.act_count() {
        push_price_if(&mut priced, task, costs, a, set[a as usize])?;
    }
    Ok(priced)
}

fn push_price_if(
    priced: &mut Vec<(u64, u32)>,
    task: &Task,
    costs: &Costs,
    a: u32,
    wished: bool,
) -> Result<(), AllocError>
    requires size { length costs.now.costs ≡ task.now.atoms }
    requires bounded { All (λ cost. cost ≤ infinite) costs.now.costs }
    requires number { a < length task.now.acts }
    ensures { OnOk result (priced.new.items ≡ priced.old.items ++ (if wished then (price_of costs.now.costs (act_at task.now.acts a), a) ∷ [] else [])) }
{
    if wished {
        priced.push((costs.price(task.act(a)), a))?;
    }
    Ok(())
}

fn without_prices(alloc: Global, priced: &[(u64, u32)]) -> Result<Atoms, AllocError>
    ensures { IfOk result (λ numbers. numbers ≡ map (λ k. k.1) priced.now) }
{
    let mut numbers = Vec::with_capacity(alloc, priced.len())?;
    for (_, a) in priced {
        numbers.push(*a)?;
    }
    Ok(Atoms::of_vec(numbers))
}

/// The supporters of the wanted atoms, one flag for each action.
fn supporting(
    alloc: Global,
    task: &Task,
    costs: &Costs,
    wanted: &[bool],
) -> Result<Vec<bool>, AllocError>
    requires size { length costs.now.costs ≡ task.now.atoms }
    requires numbers { AreActs (length task.now.acts) costs.now.supporters }
    requires flags { length wanted.now ≡ task.now.atoms }
    ensures size { IfOk result (λ flags. length flags.items ≡ length task.now.acts) }
    ensures set { IfOk result (λ flags. (a : ℕ) → has flags.items a ≡ supports costs.now.supporters wanted.now a) }
{
    let mut flags = wanted::no_flags(alloc, task.act_count())?;
    for p in 0..task.atoms() {
        mark_supporter(&mut flags, costs.supporter(p), wanted[p as usize]);
    }
    Ok(flags)
}

fn mark_supporter(flags: &mut Vec<bool>, supporter: Option<u32>, wanted: bool)
    requires { IfSome supporter (λ a. a < length flags.old.items) }
    ensures size { length flags.new.items ≡ length flags.old.items }
    ensures set { (a : ℕ) → has flags.new.items a ≡ (has flags.old.items a || (is_for supporter a && wanted)) }
{
    if let Some(a) = supporter {
        wanted::mark_if(flags, a, wanted);
    }
}

/// The numbers whose flags are set, in order.
pub(crate) fn numbers_of(alloc: Global, flags: &[bool], count: u32) -> Result<Atoms, AllocError>
    requires { length flags.now ≡ count }
    ensures { IfOk result (λ numbers. numbers ≡ atoms_in flags.now) }
{
    let mut numbers = Vec::new(alloc);
    for p in 0..count {
        push_if(&mut numbers, p, flags[p as usize])?;
    }
    Ok(Atoms::of_vec(numbers))
}

fn push_if(numbers: &mut Vec<u32>, number: u32, wished: bool) -> Result<(), AllocError>
    ensures { OnOk result (numbers.new.items ≡ numbers.old.items ++ (if wished then number ∷ [] else [])) }
{
    if wished {
        numbers.push(number)?;
    }
    Ok(())
}
