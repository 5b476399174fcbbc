//! The commands as `clap` knows them.
//!
//! No argument has a default, a short name, a group or a parser of its own: such a command is a simple one, for which the
//! clauses of `clap` say exactly which words it takes and what it makes of them.
ghost use Rattle.std.specs.Prelude.{◌≡◌, IfOk, false};
ghost use Rattle.clap.specs.Words.{app_of, rule_of, with_rule};
ghost use Rattle.wp_words.specs.CommandLines.{audit_line, check_line, flag, gen_line, ground_line, option, plan_line, positional};
ghost use Rattle.wp_words.specs.CommandLines.{with_files, with_flag, with_numbers, with_option, with_options, with_positional};

use clap::{Arg, ArgAction, Command};
use std::alloc::{AllocError, Global};

/// `plan DOMAIN PROBLEM [options]`, with an option of its own.
#[tactic(auto, unfolding(crate::specs::CommandLines::plan_line))]
pub fn plan_line<'a>(alloc: Global) -> Result<Command<'a>, AllocError>
    ensures { IfOk result (λ line. app_of line ≡ plan_line) }
{
    let line = with_options(alloc, with_files(alloc, Command::new(alloc, "plan"))?)?;
    with_flag(alloc, line, "closed")
}

/// `check DOMAIN PROBLEM PLAN`.
#[tactic(auto, unfolding(crate::specs::CommandLines::check_line))]
pub fn check_line<'a>(alloc: Global) -> Result<Command<'a>, AllocError>
    ensures { IfOk result (λ line. app_of line ≡ check_line) }
{
    with_positional(
        alloc,
        with_files(alloc, Command::new(alloc, "check"))?,
        "plan",
    )
}

/// `ground DOMAIN PROBLEM`.
#[tactic(auto, unfolding(crate::specs::CommandLines::ground_line))]
pub fn ground_line<'a>(alloc: Global) -> Result<Command<'a>, AllocError>
    ensures { IfOk result (λ line. app_of line ≡ ground_line) }
{
    with_files(alloc, Command::new(alloc, "ground"))
}

/// `gen NUMBER SIZE [options]`.
#[tactic(auto, unfolding(crate::specs::CommandLines::gen_line))]
pub fn gen_line<'a>(alloc: Global) -> Result<Command<'a>, AllocError>
    ensures { IfOk result (λ line. app_of line ≡ gen_line) }
{
    let line = with_positional(alloc, Command::new(alloc, "gen"), "number")?;
    with_options(alloc, with_positional(alloc, line, "size")?)
}

/// `audit DOMAIN PROBLEM CERTIFICATE`.
#[tactic(auto, unfolding(crate::specs::CommandLines::audit_line))]
pub fn audit_line<'a>(alloc: Global) -> Result<Command<'a>, AllocError>
    ensures { IfOk result (λ line. app_of line ≡ audit_line) }
{
    with_positional(
        alloc,
        with_files(alloc, Command::new(alloc, "audit"))?,
        "certificate",
    )
}

fn with_files<'a>(alloc: Global, line: Command<'a>) -> Result<Command<'a>, AllocError>
    ensures { IfOk result (λ more. app_of more ≡ with_files (app_of line.entry)) }
{
    let line = with_positional(alloc, line, "domain")?;
    with_positional(alloc, line, "problem")
}

/// The command with the options of a search.
fn with_options<'a>(alloc: Global, line: Command<'a>) -> Result<Command<'a>, AllocError>
    ensures { IfOk result (λ more. app_of more ≡ with_options (app_of line.entry)) }
{
    let line = with_option(alloc, line, "search")?;
    let line = with_numbers(alloc, line)?;
    let line = with_option(alloc, line, "watch")?;
    with_flag(alloc, line, "plain")
}

fn with_numbers<'a>(alloc: Global, line: Command<'a>) -> Result<Command<'a>, AllocError>
    ensures { IfOk result (λ more. app_of more ≡ with_numbers (app_of line.entry)) }
{
    let line = with_option(alloc, line, "width")?;
    let line = with_option(alloc, line, "budget")?;
    let line = with_option(alloc, line, "words")?;
    let line = with_option(alloc, line, "workers")?;
    with_option(alloc, line, "ahead")
}

fn with_positional<'a>(
    alloc: Global,
    line: Command<'a>,
    id: &'a str,
) -> Result<Command<'a>, AllocError>
    ensures { IfOk result (λ more. app_of more ≡ with_positional (app_of line.entry) id.entry.now) }
{
    with_arg(line, positional_arg(alloc, id))
}

fn with_option<'a>(alloc: Global, line: Command<'a>, id: &'a str) -> Result<Command<'a>, AllocError>
    ensures { IfOk result (λ more. app_of more ≡ with_option (app_of line.entry) id.entry.now) }
{
    with_arg(line, option_arg(alloc, id))
}

fn with_flag<'a>(alloc: Global, line: Command<'a>, id: &'a str) -> Result<Command<'a>, AllocError>
    ensures { IfOk result (λ more. app_of more ≡ with_flag (app_of line.entry) id.entry.now) }
{
    with_arg(line, flag_arg(alloc, id))
}

fn with_arg<'a>(line: Command<'a>, arg: Arg<'a>) -> Result<Command<'a>, AllocError>
    requires { arg.global ≡ false }
    ensures { IfOk result (λ more. app_of more ≡ with_rule (app_of line.entry) (rule_of arg.entry)) }
{
    line.arg(arg)
}

fn positional_arg<'a>(alloc: Global, id: &'a str) -> Arg<'a>
    ensures rule { rule_of result ≡ positional id.entry.now }
    ensures local { result.global ≡ false }
{
    Arg::new(alloc, id).required(true).action(ArgAction::Set)
}

fn option_arg<'a>(alloc: Global, id: &'a str) -> Arg<'a>
    ensures rule { rule_of result ≡ option id.entry.now }
    ensures local { result.global ≡ false }
{
    Arg::new(alloc, id).long(id).action(ArgAction::Set)
}

fn flag_arg<'a>(alloc: Global, id: &'a str) -> Arg<'a>
    ensures rule { rule_of result ≡ flag id.entry.now }
    ensures local { result.global ≡ false }
{
    Arg::new(alloc, id).long(id).action(ArgAction::SetTrue)
}
