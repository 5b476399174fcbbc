//! Tasks: what is given, and what an action and a plan do in it.
ghost use Rattle.std.specs.Prelude.{◌≡◌, ℕ, ◌<◌, ◌≤◌, length, map, IfOk, All};
ghost use Rattle.wp_task.specs.Set.{AreAtoms};
ghost use Rattle.wp_task.specs.Task.{act_at, applies, result_of, goal_counter, adders_of, needers_of, is_plan, IsAct, IsTask};

use crate::acts::{Act, Acts};
use crate::atoms::Atoms;
use crate::flat::Flat;
use crate::places::places_by_number;
use crate::state::State;
use crate::{many, tables};
use std::alloc::{AllocError, Global};
use std::marker::Model;

/// A planning task, with the lists of the actions that add it and of those that need it for each atom, with what is
/// asked most of its actions in flat arrays, and with sets of preconditions and goals where these are many.
#[derive(Drop)]
pub struct Task {
    atoms: u32,
    init: State,
    goals: Atoms,
    acts: Acts,
    adders: Vec<Atoms>,
    needers: Flat,
    pre: Flat,
    add: Flat,
    need_counts: Vec<u32>,
    need_sets: Vec<Option<Box<State>>>,
    goal_set: Option<Box<State>>,
}

impl Model for Task {
    ghost use Rattle.wp_task.specs.Task.{PlanningTask};

    ghost Value = { PlanningTask };

    ghost use Rattle.wp_task.specs.Keeping.{given_by, IsKept};

    ghost view = { given_by };

    ghost invariant = { IsKept };
}

impl Task {
    /// The task of these parts: atoms are numbered below `atoms`, actions by their places.
    pub fn new(
        alloc: Global,
        atoms: u32,
        init: State,
        goals: Atoms,
        acts: Acts,
    ) -> Result<Task, AllocError>
        requires { IsTask (record { atoms = atoms; init = init; goals = goals; acts = acts }) }
        ensures { IfOk result (λ task. task ≡ record { atoms = atoms; init = init; goals = goals; acts = acts }) }
    {
        let pre = tables::preconditions(alloc, &acts)?;
        let add = tables::add_effects(alloc, &acts)?;
        let need_counts = tables::need_counts(alloc, &acts)?;
        let need_sets = tables::need_sets(alloc, &acts, atoms)?;
        let goal_set = many::set_of_many(alloc, &goals, atoms)?;
        let adders = places_by_number(alloc, atoms, &add)?;
        let needers = tables::flattened(alloc, &places_by_number(alloc, atoms, &pre)?)?;
        Ok(Task {
            atoms,
            init,
            goals,
            acts,
            adders,
            needers,
            pre,
            add,
            need_counts,
            need_sets,
            goal_set,
        })
    }

    /// How many atoms there are.
    pub fn atoms(&self) -> u32
        ensures value { result ≡ self.now.atoms }
        ensures fits { IsTask self.now }
    {
        self.atoms
    }

    /// How many actions there are.
    pub fn act_count(&self) -> u32
        ensures value { result ≡ length self.now.acts }
        ensures few { result ≤ 1048576 }
    {
        self.acts.as_slice().len() as u32
    }

    /// The action of a number.
    pub fn act(&self, a: u32) -> &Act
        requires { a < length self.now.acts }
        ensures value { result.now ≡ act_at self.now.acts a }
        ensures fits { IsAct self.now.atoms result.now }
    {
        &self.acts.as_slice()[a as usize]
    }

    /// The opening state.
    pub fn init(&self) -> &State
        ensures value { result.now ≡ self.now.init }
        ensures size { length result.now ≡ self.now.atoms }
    {
        &self.init
    }

    /// The atoms that a plan makes true, in order.
    pub fn goals(&self) -> &Atoms
        ensures value { result.now ≡ self.now.goals }
        ensures fits { AreAtoms self.now.atoms result.now }
    {
        &self.goals
    }

    /// The actions that add an atom, in number order.
    pub fn adders(&self, p: u32) -> &Atoms
        requires { p < self.now.atoms }
        ensures value { result.now ≡ adders_of self.now.acts p }
        ensures numbers { All (λ a. a < length self.now.acts) result.now }
    {
        &self.adders[p as usize]
    }

    /// The actions that need an atom, in number order.
    pub fn needers(&self, p: u32) -> &[u32]
        requires { p < self.now.atoms }
        ensures value { result.now ≡ needers_of self.now.acts p }
        ensures numbers { All (λ a. a < length self.now.acts) result.now }
    {
        self.needers.at(p)
    }

    /// The preconditions of an action.
    pub fn pre(&self, a: u32) -> &[u32]
        requires { a < length self.now.acts }
        ensures value { result.now ≡ (act_at self.now.acts a).pre }
        ensures fits { AreAtoms self.now.atoms result.now }
    {
        self.pre.at(a)
    }

    /// The add effects of an action.
    pub fn add(&self, a: u32) -> &[u32]
        requires { a < length self.now.acts }
        ensures value { result.now ≡ (act_at self.now.acts a).add }
        ensures fits { AreAtoms self.now.atoms result.now }
    {
        self.add.at(a)
    }

    /// How many preconditions each action has, by number.
    pub fn need_counts(&self) -> &[u32]
        ensures { result.now ≡ map (λ act. length act.pre) self.now.acts }
    {
        self.need_counts.as_slice()
    }

    /// Whether the action applies: its preconditions are in the state.
    pub fn applies(&self, s: &State, a: u32) -> bool
        requires { a < length self.now.acts }
        ensures { result ≡ applies (act_at self.now.acts a) s.now }
    {
        many::has_all(s, self.pre(a), &self.need_sets[a as usize])
    }

    /// The state that the action leads to.
    pub fn apply(&self, alloc: Global, s: &State, a: u32) -> Result<State, AllocError>
        requires number { a < length self.now.acts }
        requires size { length s.now ≡ self.now.atoms }
        ensures { IfOk result (λ next. next ≡ result_of (act_at self.now.acts a) s.now) }
    {
        let mut next = s.copy(alloc)?;
        self.advance(&mut next, a);
        Ok(next)
    }

    /// Makes of the state the one that the action leads to, in the memory that it has.
    // Deletes first: an action that deletes and adds an atom leaves it true.
    pub fn advance(&self, s: &mut State, a: u32)
        requires number { a < length self.now.acts }
        requires size { length s.old ≡ self.now.atoms }
        ensures { s.new ≡ result_of (act_at self.now.acts a) s.old }
    {
        let act = self.act(a);
        s.remove_all(&act.del);
        s.insert_all(&act.add);
    }

    /// #g of a state: how many goals are not in it.
    pub fn unmet_goals(&self, s: &State) -> u32
        ensures { result ≡ goal_counter self.now.goals s.now }
    {
        many::count_missing(s, self.goals.as_slice(), &self.goal_set) as u32
    }

    /// Whether the actions are a plan: each is one of the task and applies in its turn from the opening state, and
    /// all goals are true in the end.
    pub fn plan_ok(&self, alloc: Global, plan: &Atoms) -> Result<bool, AllocError>
        ensures { IfOk result (λ ok. ok ≡ is_plan self.now plan.now) }
    {
        let mut state = self.init.copy(alloc)?;
        for a in plan.as_slice() {
            if *a >= self.act_count() || !self.applies(&state, *a) {
                return Ok(false);
            }
            state = self.apply(alloc, &state, *a)?;
        }
        Ok(many::has_all(&state, self.goals.as_slice(), &self.goal_set))
    }
}
