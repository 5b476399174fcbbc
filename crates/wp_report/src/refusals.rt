//! The lines of texts that are refused.

ghost use Rattle.std.specs.Prelude.{◌≡◌, ◌≢◌, ◌++◌, IfOk, OnOk};
ghost use Rattle.wp_syntax.specs.declared.error.Part.TheVariants.{Plan};
ghost use Rattle.wp_report.specs.Refusals.{fault_text, kind_text, lex_text, lexical_text, limit_text, pddl_text, plan_error_text, refusal_text};

use crate::pieces::{part_word, put_counted, put_two};
use std::alloc::{AllocError, Global};
use wp_check::PlanError;
use wp_edge::Text;
use wp_lex::LexError;
use wp_syntax::{Part, PddlError, PddlKind};

/// The line of a fault in the bytes of a part.
pub fn lex_text(alloc: Global, part: Part, error: &LexError) -> Result<Text, AllocError>
    requires { error.now ≢ LexError.Memory }
    ensures { IfOk result (λ text. text ≡ lex_text part error.now) }
{
    let mut fault = Vec::new(alloc);
    put_lexical(&mut fault, error)?;
    refusal_line(alloc, part, fault.as_slice())
}

/// The line of a fault in the lists or in the names of a domain or a problem.
pub fn pddl_text(alloc: Global, error: &PddlError) -> Result<Text, AllocError>
    requires { error.now ≢ PddlError.Memory }
    ensures { IfOk result (λ text. text ≡ pddl_text error.now) }
{
    match error {
        PddlError::Bad { part, kind, at } => placed_text(alloc, *part, kind, *at),
        PddlError::Memory => unreachable!(),
    }
}

/// The line of a fault of a plan file.
pub fn plan_error_text(alloc: Global, error: &PlanError) -> Result<Text, AllocError>
    requires { error.now ≢ PlanError.Memory }
    ensures { IfOk result (λ text. text ≡ plan_error_text error.now) }
{
    match error {
        PlanError::Lex { fault } => lexical_plan_text(alloc, fault),
        PlanError::Shape { at } => placed_text(alloc, Part::Plan, &PddlKind::Shape, *at),
        PlanError::Memory => unreachable!(),
    }
}

// A plan error never holds want of memory as a fault of the bytes; it would be handed on.
fn lexical_plan_text(alloc: Global, fault: &LexError) -> Result<Text, AllocError>
    ensures { IfOk result (λ text. text ≡ lex_text Plan fault.now) }
{
    match fault {
        LexError::Memory => Err(AllocError),
        _ => lex_text(alloc, Part::Plan, fault),
    }
}

// The line of a fault at a place of a part.
fn placed_text(alloc: Global, part: Part, kind: &PddlKind, at: u64) -> Result<Text, AllocError>
    ensures { IfOk result (λ text. text ≡ refusal_text part (fault_text kind.now at)) }
{
    let mut fault = Vec::new(alloc);
    put_fault(&mut fault, kind, at)?;
    refusal_line(alloc, part, fault.as_slice())
}

#[tactic(auto, unfolding(crate::specs::Refusals::refusal_text))]
fn refusal_line(alloc: Global, part: Part, fault: &[u8]) -> Result<Text, AllocError>
    ensures { IfOk result (λ text. text ≡ refusal_text part fault.now) }
{
    let mut line = Vec::from_slice(alloc, b"; refused: ")?;
    line.extend_from_slice(part_word(part).as_bytes())?;
    line.extend_from_slice(b": ")?;
    line.extend_from_slice(fault)?;
    line.push(b'\n')?;
    Ok(Text::of_vec(line))
}

#[tactic(auto, unfolding(crate::specs::Refusals::lexical_text))]
fn put_lexical(out: &mut Vec<u8>, error: &LexError) -> Result<(), AllocError>
    requires { error.now ≢ LexError.Memory }
    ensures { OnOk result (out.new.items ≡ out.old.items ++ lexical_text error.now) }
{
    match error {
        LexError::BadByte { at } => put_counted(out, b"bad byte at ", *at),
        LexError::Unopened { at } => put_counted(out, b"unopened at ", *at),
        LexError::Unclosed => out.extend_from_slice(b"unclosed"),
        LexError::Trailing { at } => put_counted(out, b"trailing at ", *at),
        LexError::TooDeep { at } => put_counted(out, b"too deep at ", *at),
        LexError::Empty => out.extend_from_slice(b"empty"),
        LexError::Memory => unreachable!(),
    }
}

#[tactic(auto, unfolding(crate::specs::Refusals::fault_text))]
fn put_fault(out: &mut Vec<u8>, kind: &PddlKind, at: u64) -> Result<(), AllocError>
    ensures { OnOk result (out.new.items ≡ out.old.items ++ fault_text kind.now at) }
{
    put_kind(out, kind)?;
    put_counted(out, b" at ", at)?;
    put_limit(out, kind)
}

#[tactic(auto, unfolding(crate::specs::Refusals::kind_text))]
fn put_kind(out: &mut Vec<u8>, kind: &PddlKind) -> Result<(), AllocError>
    ensures { OnOk result (out.new.items ≡ out.old.items ++ kind_text kind.now) }
{
    match kind {
        PddlKind::Shape => out.extend_from_slice(b"shape"),
        PddlKind::Unsupported { word } => put_two(out, b"unsupported ", word.as_slice()),
        PddlKind::Reserved => out.extend_from_slice(b"reserved"),
        PddlKind::Duplicate => out.extend_from_slice(b"duplicate"),
        PddlKind::UnknownType => out.extend_from_slice(b"unknown type"),
        PddlKind::UnknownPredicate => out.extend_from_slice(b"unknown predicate"),
        PddlKind::UnknownObject => out.extend_from_slice(b"unknown object"),
        PddlKind::UnknownVariable => out.extend_from_slice(b"unknown variable"),
        PddlKind::Arity => out.extend_from_slice(b"arity"),
        PddlKind::TooMany { limit: _ } => out.extend_from_slice(b"too many"),
    }
}

#[tactic(auto, unfolding(crate::specs::Refusals::limit_text))]
fn put_limit(out: &mut Vec<u8>, kind: &PddlKind) -> Result<(), AllocError>
    ensures { OnOk result (out.new.items ≡ out.old.items ++ limit_text kind.now) }
{
    match kind {
        PddlKind::TooMany { limit } => put_counted(out, b" limit ", u64::from(*limit)),
        _ => Ok(()),
    }
}
