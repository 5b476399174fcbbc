//! How a tree of successors is made: actions come with their preconditions in order, and one way is kept open.
ghost use Rattle.std.specs.Prelude.{◌≡◌, ℕ, ◌+◌, ◌-◌, ◌<◌, ◌≤◌, ◌++◌, ◌∷◌, [], Bool, List, map, take, length, slice_index_or, IfOk, OnOk, if◌then◌else◌};
ghost use Rattle.std.specs.List.{list_all, range_with_len};
ghost use Rattle.std.specs.List.Sorted.{IsPermutation};
ghost use Rattle.wp_task.specs.Set.{has};
ghost use Rattle.wp_succ.specs.Tree.{times, AreApplicable};
ghost use Rattle.wp_succ.specs.Growing.{atoms_on, reached_so_far, IsGrowing};

use crate::tree::Node;
use std::alloc::{AllocError, Global};
use std::mem;
use wp_task::Task;

/// A place on the open way, with the atom by which the way goes on.
#[derive(Drop)]
pub(crate) struct Step {
    pub(crate) acts: Vec<u32>,
    /// How many nodes there were when the way went on.
    pub(crate) before: usize,
    pub(crate) atom: u32,
}

/// The nodes so far, the open way, and the actions at its end.
#[derive(Drop)]
pub(crate) struct Growing {
    pub(crate) nodes: Vec<Node>,
    pub(crate) way: Vec<Step>,
    pub(crate) acts: Vec<u32>,
}

impl Growing {
    /// A root, and nothing more.
    fn new(alloc: Global) -> Growing
        ensures growing { IsGrowing result }
        ensures way { result.way.items ≡ [] }
        ensures none { (s : List Bool) → reached_so_far s result ≡ [] }
    {
        Growing {
            nodes: Vec::new(alloc),
            way: Vec::new(alloc),
            acts: Vec::new(alloc),
        }
    }

    /// Makes the end of the way a node, where there is one.
    fn close(&mut self) -> Result<(), AllocError>
        requires { IsGrowing self.old }
        ensures growing { OnOk result (IsGrowing self.new) }
        ensures len { OnOk result (length self.new.way.items ≡ length self.old.way.items - 1) }
        ensures way { OnOk result (atoms_on self.new.way.items ≡ take (length self.old.way.items - 1) (atoms_on self.old.way.items)) }
        ensures same { OnOk result ((s : List Bool) → reached_so_far s self.new ≡ reached_so_far s self.old) }
    {
        let Some(step) = self.way.pop() else {
            return Ok(());
        };
        let Step { acts, before, atom } = step;
        let acts = mem::replace(&mut self.acts, acts);
        self.nodes.push(Node { atom, before, acts })?;
        Ok(())
    }

    /// Closes the way up to its first atoms.
    fn close_to(&mut self, count: usize) -> Result<(), AllocError>
        requires { IsGrowing self.old }
        ensures growing { OnOk result (IsGrowing self.new) }
        ensures way { OnOk result (atoms_on self.new.way.items ≡ take count (atoms_on self.old.way.items)) }
        ensures same { OnOk result ((s : List Bool) → reached_so_far s self.new ≡ reached_so_far s self.old) }
    {
        while self.way.len() > count {
            self.close()?;
        }
        Ok(())
    }

    /// Goes on by an atom.
    fn open(&mut self, alloc: Global, atom: u32) -> Result<(), AllocError>
        requires { IsGrowing self.old }
        ensures growing { OnOk result (IsGrowing self.new) }
        ensures way { OnOk result (atoms_on self.new.way.items ≡ atoms_on self.old.way.items ++ atom ∷ []) }
        ensures same { OnOk result ((s : List Bool) → reached_so_far s self.new ≡ reached_so_far s self.old) }
    {
        let acts = mem::replace(&mut self.acts, Vec::new(alloc));
        let before = self.nodes.len();
        self.way.push(Step { acts, before, atom })?;
        Ok(())
    }

    /// Goes on by the atoms.
    fn open_all(&mut self, alloc: Global, atoms: &[u32]) -> Result<(), AllocError>
        requires { IsGrowing self.old }
        ensures growing { OnOk result (IsGrowing self.new) }
        ensures way { OnOk result (atoms_on self.new.way.items ≡ atoms_on self.old.way.items ++ atoms.now) }
        ensures same { OnOk result ((s : List Bool) → reached_so_far s self.new ≡ reached_so_far s self.old) }
    {
        for p in atoms {
            self.open(alloc, *p)?;
        }
        Ok(())
    }

    /// How many first atoms of the way are those of the list.
    fn shared(&self, atoms: &[u32]) -> usize
        ensures within { result ≤ length atoms.now }
        ensures same { take result (atoms_on self.now.way.items) ≡ take result atoms.now }
    {
        let most = self.way.len().min(atoms.len());
        for count in 0..most {
            if self.way[count].atom != atoms[count] {
                return count;
            }
        }
        most
    }

    /// One action more, with its preconditions. Few nodes come where they begin as those of the action before.
    fn add(&mut self, alloc: Global, act: u32, needs: &[u32]) -> Result<(), AllocError>
        requires { IsGrowing self.old }
        ensures growing { OnOk result (IsGrowing self.new) }
        ensures more { OnOk result ((s : List Bool) (a : ℕ) → times (reached_so_far s self.new) a ≡ times (reached_so_far s self.old) a + (if list_all (has s) needs.now then times (act ∷ []) a else 0)) }
    {
        let shared = self.shared(needs);
        self.close_to(shared)?;
        self.open_all(alloc, &needs[shared..])?;
        self.put(act)?;
        Ok(())
    }

    /// One action more at the end of the way.
    fn put(&mut self, act: u32) -> Result<(), AllocError>
        requires { IsGrowing self.old }
        ensures growing { OnOk result (IsGrowing self.new) }
        ensures more { OnOk result ((s : List Bool) (a : ℕ) → times (reached_so_far s self.new) a ≡ times (reached_so_far s self.old) a + (if list_all (has s) (atoms_on self.old.way.items) then times (act ∷ []) a else 0)) }
    {
        self.acts.push(act)?;
        Ok(())
    }
}

impl Growing {
    /// The actions, in this order.
    fn add_all(&mut self, alloc: Global, task: &Task, acts: &[u32]) -> Result<(), AllocError>
        requires growing { IsGrowing self.old }
        requires none { (s : List Bool) → reached_so_far s self.old ≡ [] }
        ensures growing { OnOk result (IsGrowing self.new) }
        ensures whole { OnOk result ((s : List Bool) (a : ℕ) → times (reached_so_far s self.new) a ≡ (if list_all (has s) (slice_index_or (map (λ act. act.pre) task.now.acts) a []) then times acts.now a else 0)) }
    {
        for a in acts {
            self.add(alloc, *a, needs_of(task, *a))?;
        }
        Ok(())
    }
}

/// The preconditions of an action, and none past the last.
fn needs_of<'a>(task: &'a Task, a: u32) -> &'a [u32]
    ensures { result.now ≡ slice_index_or (map (λ act. act.pre) task.now.acts) a [] }
{
    if a < task.act_count() {
        task.pre(a)
    } else {
        &[]
    }
}

/// The numbers below a count.
fn numbers(alloc: Global, count: u32) -> Result<Vec<u32>, AllocError>
    ensures { IfOk result (λ numbers. numbers.items ≡ range_with_len 0 count) }
{
    let mut numbers = Vec::with_capacity(alloc, count as usize)?;
    for n in 0..count {
        numbers.push(n)?;
    }
    Ok(numbers)
}

/// The actions by their preconditions, so that those which begin alike are neighbours.
fn by_needs(alloc: Global, task: &Task) -> Result<Vec<u32>, AllocError>
    ensures { IfOk result (λ order. IsPermutation (range_with_len 0 (length task.now.acts)) order.items) }
{
    let mut order = numbers(alloc, task.act_count())?;
    order.sort_by(|a, b| needs_of(task, *a).cmp(needs_of(task, *b)))?;
    Ok(order)
}

/// The tree of all actions of a task, with its way closed.
pub(crate) fn grown(alloc: Global, task: &Task) -> Result<Growing, AllocError>
    ensures growing { IfOk result (λ growing. IsGrowing growing) }
    ensures closed { IfOk result (λ growing. growing.way.items ≡ []) }
    ensures whole { IfOk result (λ growing. (s : List Bool) → AreApplicable (map (λ act. act.pre) task.now.acts) s (reached_so_far s growing)) }
{
    let order = by_needs(alloc, task)?;
    let mut growing = Growing::new(alloc);
    growing.add_all(alloc, task, order.as_slice())?;
    growing.close_to(0)?;
    Ok(growing)
}
