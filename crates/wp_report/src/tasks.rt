//! The text of a numbered task, and the line that says why there is none.

ghost use Rattle.std.specs.Prelude.{◌≡◌, ◌≢◌, ◌<◌, ◌++◌, ◌∷◌, [], length, cond, codes, IfOk, OnOk};
ghost use Rattle.wp_task.specs.Set.{atoms_in, has};
ghost use Rattle.wp_report.specs.Tasks.{IsNamed, act_line, act_lines, atom_line, atom_lines, count_line, ground_error_text, ground_text, name_at, numbers_line, numbers_text};

use crate::pieces::{put_counted, put_number, put_two};
use std::alloc::{AllocError, Global};
use wp_edge::{Text, Texts};
use wp_ground::{GroundError, Grounded};
use wp_task::{Act, State, Task};

/// The text of a task with its names: how many atoms and actions it has, a line for each, the opening state and the goals.
#[tactic(auto, unfolding(crate::specs::Tasks::ground_text))]
pub fn ground_text(alloc: Global, grounded: &Grounded) -> Result<Text, AllocError>
    requires { IsNamed grounded.now }
    ensures { IfOk result (λ text. text ≡ ground_text grounded.now) }
{
    let task = &grounded.task;
    let mut out = Vec::new(alloc);
    put_count(&mut out, b"atoms ", task.atoms())?;
    put_count(&mut out, b"acts ", task.act_count())?;
    put_atoms(&mut out, task, &grounded.atom_names)?;
    put_acts(&mut out, task, &grounded.act_names)?;
    put_init(&mut out, task.init())?;
    put_line_of(&mut out, b"goal", task.goals().as_slice())?;
    Ok(Text::of_vec(out))
}

fn put_count(out: &mut Vec<u8>, word: &[u8], count: u32) -> Result<(), AllocError>
    ensures { OnOk result (out.new.items ≡ out.old.items ++ count_line word.now count) }
{
    put_counted(out, word, u64::from(count))?;
    out.push(b'\n')?;
    Ok(())
}

fn put_atoms(out: &mut Vec<u8>, task: &Task, names: &Texts) -> Result<(), AllocError>
    requires { length names.now ≡ task.now.atoms }
    ensures { OnOk result (out.new.items ≡ out.old.items ++ atom_lines task.now names.now) }
{
    for p in 0..task.atoms() {
        put_atom_line(out, names, p)?;
    }
    Ok(())
}

#[tactic(auto, unfolding(crate::specs::Tasks::atom_line))]
fn put_atom_line(out: &mut Vec<u8>, names: &Texts, p: u32) -> Result<(), AllocError>
    requires { p < length names.now }
    ensures { OnOk result (out.new.items ≡ out.old.items ++ atom_line names.now p) }
{
    put_counted(out, b"atom ", u64::from(p))?;
    out.push(b' ')?;
    put_name(out, names, p)?;
    out.push(b'\n')?;
    Ok(())
}

/// The name of an atom or of an action.
pub fn put_name(out: &mut Vec<u8>, names: &Texts, number: u32) -> Result<(), AllocError>
    requires { number < length names.now }
    ensures { OnOk result (out.new.items ≡ out.old.items ++ name_at names.now number) }
{
    out.extend_from_slice(names.as_slice()[number as usize].as_slice())
}

fn put_acts(out: &mut Vec<u8>, task: &Task, names: &Texts) -> Result<(), AllocError>
    requires { length names.now ≡ length task.now.acts }
    ensures { OnOk result (out.new.items ≡ out.old.items ++ act_lines task.now names.now) }
{
    for a in 0..task.act_count() {
        put_act_line(out, names, a, task.act(a))?;
    }
    Ok(())
}

#[tactic(auto, unfolding(crate::specs::Tasks::act_line))]
fn put_act_line(out: &mut Vec<u8>, names: &Texts, a: u32, act: &Act) -> Result<(), AllocError>
    requires { a < length names.now }
    ensures { OnOk result (out.new.items ≡ out.old.items ++ act_line names.now a act.now) }
{
    put_counted(out, b"act ", u64::from(a))?;
    out.push(b' ')?;
    put_name(out, names, a)?;
    put_numbers(out, b" pre", act.pre.as_slice())?;
    put_numbers(out, b" add", act.add.as_slice())?;
    put_numbers(out, b" del", act.del.as_slice())?;
    out.push(b'\n')?;
    Ok(())
}

// Some words and then numbers, each after one space.
fn put_numbers(out: &mut Vec<u8>, words: &[u8], numbers: &[u32]) -> Result<(), AllocError>
    ensures { OnOk result (out.new.items ≡ out.old.items ++ (words.now ++ numbers_text numbers.now)) }
{
    out.extend_from_slice(words)?;
    put_spaced(out, numbers)
}

fn put_spaced(out: &mut Vec<u8>, numbers: &[u32]) -> Result<(), AllocError>
    ensures { OnOk result (out.new.items ≡ out.old.items ++ numbers_text numbers.now) }
{
    for number in numbers {
        out.push(b' ')?;
        put_number(out, u64::from(*number))?;
    }
    Ok(())
}

fn put_line_of(out: &mut Vec<u8>, word: &[u8], numbers: &[u32]) -> Result<(), AllocError>
    ensures { OnOk result (out.new.items ≡ out.old.items ++ numbers_line word.now numbers.now) }
{
    put_numbers(out, word, numbers)?;
    out.push(b'\n')?;
    Ok(())
}

fn put_init(out: &mut Vec<u8>, init: &State) -> Result<(), AllocError>
    ensures { OnOk result (out.new.items ≡ out.old.items ++ numbers_line (codes "init") (atoms_in init.now)) }
{
    out.extend_from_slice(b"init")?;
    put_set(out, init)?;
    out.push(b'\n')?;
    Ok(())
}

// The atoms of a set, each after one space.
fn put_set(out: &mut Vec<u8>, set: &State) -> Result<(), AllocError>
    ensures { OnOk result (out.new.items ≡ out.old.items ++ numbers_text (atoms_in set.now)) }
{
    for p in 0..set.size() {
        put_member(out, set, p)?;
    }
    Ok(())
}

// The atom, where the set has it.
fn put_member(out: &mut Vec<u8>, set: &State, p: u32) -> Result<(), AllocError>
    ensures { OnOk result (out.new.items ≡ out.old.items ++ numbers_text (cond (has set.now p) (p ∷ []) [])) }
{
    if set.has(p) {
        out.push(b' ')?;
        put_number(out, u64::from(p))?;
    }
    Ok(())
}

/// The line of a problem that has no task.
pub fn ground_error_text(alloc: Global, error: &GroundError) -> Result<Text, AllocError>
    requires { error.now ≢ GroundError.Memory }
    ensures { IfOk result (λ text. text ≡ ground_error_text error.now) }
{
    let mut line = Vec::new(alloc);
    put_ground_error(&mut line, error)?;
    Ok(Text::of_vec(line))
}

#[tactic(auto, unfolding(crate::specs::Tasks::ground_error_text))]
fn put_ground_error(out: &mut Vec<u8>, error: &GroundError) -> Result<(), AllocError>
    requires { error.now ≢ GroundError.Memory }
    ensures { OnOk result (out.new.items ≡ out.old.items ++ ground_error_text error.now) }
{
    match error {
        GroundError::TooManyActs => out.extend_from_slice(b"; limit: more than 1048576 actions\n"),
        GroundError::TooManyAtoms => out.extend_from_slice(b"; limit: more than 65536 atoms\n"),
        GroundError::GoalOutOfReach { goal: _, atom } => {
            put_two(out, b"; goal out of reach ", atom.as_slice())?;
            out.extend_from_slice(b"\n")
        }
        GroundError::Memory => unreachable!(),
    }
}
