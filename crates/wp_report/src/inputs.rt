//! The lines of words that have no command, of a file that is not read, and of a task that is made.

ghost use Rattle.std.specs.Prelude.{◌≡◌, ◌++◌, IfOk};
ghost use Rattle.wp_report.specs.Inputs.{gen_text, too_long_text, read_fault_text, usage_text};

use crate::pieces::{part_word, put_number};
use std::alloc::{AllocError, Global};
use wp_edge::Text;
use wp_syntax::Part;

/// The line of a file that is longer than its limit, in bytes.
#[tactic(auto, unfolding(crate::specs::Inputs::too_long_text))]
pub fn too_long_text(alloc: Global, part: Part, limit: u64) -> Result<Text, AllocError>
    ensures { IfOk result (λ text. text ≡ too_long_text part limit) }
{
    let mut line = Vec::from_slice(alloc, b"; limit: ")?;
    line.extend_from_slice(part_word(part).as_bytes())?;
    line.extend_from_slice(b" longer than ")?;
    put_number(&mut line, limit)?;
    line.extend_from_slice(b" bytes")?;
    line.push(b'\n')?;
    Ok(Text::of_vec(line))
}

/// The line of a file that could not be read.
#[tactic(auto, unfolding(crate::specs::Inputs::read_fault_text))]
pub fn read_fault_text(alloc: Global, part: Part) -> Result<Text, AllocError>
    ensures { IfOk result (λ text. text ≡ read_fault_text part) }
{
    let mut line = Vec::from_slice(alloc, b"; read fault: ")?;
    line.extend_from_slice(part_word(part).as_bytes())?;
    line.push(b'\n')?;
    Ok(Text::of_vec(line))
}

/// The line of a task that is made from a number and a size.
#[tactic(auto, unfolding(crate::specs::Inputs::gen_text))]
pub fn gen_text(alloc: Global, number: u64, size: u32) -> Result<Text, AllocError>
    ensures { IfOk result (λ text. text ≡ gen_text number size) }
{
    let mut line = Vec::from_slice(alloc, b"; gen number ")?;
    put_number(&mut line, number)?;
    line.extend_from_slice(b" size ")?;
    put_number(&mut line, u64::from(size))?;
    line.push(b'\n')?;
    Ok(Text::of_vec(line))
}

/// What words may be given.
#[tactic(auto, unfolding(crate::specs::Inputs::usage_text))]
pub fn usage_text(alloc: Global) -> Result<Text, AllocError>
    ensures { IfOk result (λ text. text ≡ usage_text) }
{
    Ok(Text::of_vec(Vec::from_slice(alloc, USAGE.as_bytes())?))
}

const USAGE: &str = "; usage: plan DOMAIN PROBLEM [options]
;        check DOMAIN PROBLEM PLAN
;        ground DOMAIN PROBLEM
;        gen NUMBER SIZE [options]
; options: --search kbfws|f5 --width 1|2 --budget N --words N
;          --workers N --ahead N --watch tally,trace,fronts --plain
";
