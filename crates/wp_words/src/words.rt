//! The command of words.
ghost use Rattle.std.specs.Prelude.{◌≡◌, IfOk, None, Some, map, string_bytes};
ghost use Rattle.wp_words.specs.CommandLines.{entries_in};
ghost use Rattle.wp_words.specs.Names.{HasNames, IsInRange};
ghost use Rattle.wp_words.specs.Words.{audit_in, audit_of, check_in, check_of, command_named, command_of, gen_in, gen_of, ground_in, ground_of, plan_in, plan_of};

use crate::commands::Command;
use crate::entries::{name_of, read_entries};
use crate::error::WordsError;
use crate::lines::{audit_line, check_line, gen_line, ground_line, plan_line};
use crate::options::{Options, is_set, number_of, read_options};
use clap::ArgMatches;
use std::alloc::Global;

/// The command of the words after the program's name.
pub fn command(alloc: Global, words: &[String]) -> Result<Command, WordsError>
    ensures ok { IfOk result (λ command. command_of (map string_bytes words.now) ≡ Some command) }
    ensures usage { result ≡ Err WordsError.Usage → command_of (map string_bytes words.now) ≡ None }
    ensures names { IfOk result HasNames }
    ensures range { IfOk result IsInRange }
{
    match words.first() {
        Some(name) => command_named(alloc, name.as_str(), words),
        None => Err(WordsError::Usage),
    }
}

fn command_named(alloc: Global, name: &str, words: &[String]) -> Result<Command, WordsError>
    ensures ok { IfOk result (λ command. command_named name.now (map string_bytes words.now) ≡ Some command) }
    ensures usage { result ≡ Err WordsError.Usage → command_named name.now (map string_bytes words.now) ≡ None }
    ensures names { IfOk result HasNames }
    ensures range { IfOk result IsInRange }
{
    match name {
        "plan" => plan_of(alloc, words),
        "check" => check_of(alloc, words),
        "ground" => ground_of(alloc, words),
        "gen" => gen_of(alloc, words),
        "audit" => audit_of(alloc, words),
        _ => Err(WordsError::Usage),
    }
}

fn plan_of(alloc: Global, words: &[String]) -> Result<Command, WordsError>
    ensures ok { IfOk result (λ command. plan_of (map string_bytes words.now) ≡ Some command) }
    ensures usage { result ≡ Err WordsError.Usage → plan_of (map string_bytes words.now) ≡ None }
    ensures names { IfOk result HasNames }
    ensures range { IfOk result IsInRange }
{
    let matches = read_entries(plan_line(alloc)?, words)?;
    plan_in(alloc, &matches)
}

fn check_of(alloc: Global, words: &[String]) -> Result<Command, WordsError>
    ensures ok { IfOk result (λ command. check_of (map string_bytes words.now) ≡ Some command) }
    ensures usage { result ≡ Err WordsError.Usage → check_of (map string_bytes words.now) ≡ None }
    ensures names { IfOk result HasNames }
    ensures range { IfOk result IsInRange }
{
    let matches = read_entries(check_line(alloc)?, words)?;
    check_in(alloc, &matches)
}

fn ground_of(alloc: Global, words: &[String]) -> Result<Command, WordsError>
    ensures ok { IfOk result (λ command. ground_of (map string_bytes words.now) ≡ Some command) }
    ensures usage { result ≡ Err WordsError.Usage → ground_of (map string_bytes words.now) ≡ None }
    ensures names { IfOk result HasNames }
    ensures range { IfOk result IsInRange }
{
    let matches = read_entries(ground_line(alloc)?, words)?;
    ground_in(alloc, &matches)
}

fn gen_of(alloc: Global, words: &[String]) -> Result<Command, WordsError>
    ensures ok { IfOk result (λ command. gen_of (map string_bytes words.now) ≡ Some command) }
    ensures usage { result ≡ Err WordsError.Usage → gen_of (map string_bytes words.now) ≡ None }
    ensures names { IfOk result HasNames }
    ensures range { IfOk result IsInRange }
{
    let matches = read_entries(gen_line(alloc)?, words)?;
    gen_in(alloc, &matches)
}

fn audit_of(alloc: Global, words: &[String]) -> Result<Command, WordsError>
    ensures ok { IfOk result (λ command. audit_of (map string_bytes words.now) ≡ Some command) }
    ensures usage { result ≡ Err WordsError.Usage → audit_of (map string_bytes words.now) ≡ None }
    ensures names { IfOk result HasNames }
    ensures range { IfOk result IsInRange }
{
    let matches = read_entries(audit_line(alloc)?, words)?;
    audit_in(alloc, &matches)
}

fn plan_in(alloc: Global, matches: &ArgMatches<'_>) -> Result<Command, WordsError>
    ensures ok { IfOk result (λ command. plan_in (entries_in matches.now) ≡ Some command) }
    ensures usage { result ≡ Err WordsError.Usage → plan_in (entries_in matches.now) ≡ None }
    ensures names { IfOk result HasNames }
    ensures range { IfOk result IsInRange }
{
    let domain = name_of(alloc, matches, "domain")?;
    let problem = name_of(alloc, matches, "problem")?;
    let Options {
        settings,
        watch,
        plain,
    } = read_options(alloc, matches)?;
    Ok(Command::Plan {
        domain,
        problem,
        settings,
        watch,
        plain,
        closed: is_set(matches, "closed"),
    })
}

fn check_in(alloc: Global, matches: &ArgMatches<'_>) -> Result<Command, WordsError>
    ensures ok { IfOk result (λ command. check_in (entries_in matches.now) ≡ Some command) }
    ensures usage { result ≡ Err WordsError.Usage → check_in (entries_in matches.now) ≡ None }
    ensures names { IfOk result HasNames }
    ensures range { IfOk result IsInRange }
{
    Ok(Command::Check {
        domain: name_of(alloc, matches, "domain")?,
        problem: name_of(alloc, matches, "problem")?,
        plan: name_of(alloc, matches, "plan")?,
    })
}

fn ground_in(alloc: Global, matches: &ArgMatches<'_>) -> Result<Command, WordsError>
    ensures ok { IfOk result (λ command. ground_in (entries_in matches.now) ≡ Some command) }
    ensures usage { result ≡ Err WordsError.Usage → ground_in (entries_in matches.now) ≡ None }
    ensures names { IfOk result HasNames }
    ensures range { IfOk result IsInRange }
{
    Ok(Command::Ground {
        domain: name_of(alloc, matches, "domain")?,
        problem: name_of(alloc, matches, "problem")?,
    })
}

fn audit_in(alloc: Global, matches: &ArgMatches<'_>) -> Result<Command, WordsError>
    ensures ok { IfOk result (λ command. audit_in (entries_in matches.now) ≡ Some command) }
    ensures usage { result ≡ Err WordsError.Usage → audit_in (entries_in matches.now) ≡ None }
    ensures names { IfOk result HasNames }
    ensures range { IfOk result IsInRange }
{
    Ok(Command::Audit {
        domain: name_of(alloc, matches, "domain")?,
        problem: name_of(alloc, matches, "problem")?,
        certificate: name_of(alloc, matches, "certificate")?,
    })
}

fn gen_in(alloc: Global, matches: &ArgMatches<'_>) -> Result<Command, WordsError>
    ensures ok { IfOk result (λ command. gen_in (entries_in matches.now) ≡ Some command) }
    ensures usage { result ≡ Err WordsError.Usage → gen_in (entries_in matches.now) ≡ None }
    ensures names { IfOk result HasNames }
    ensures range { IfOk result IsInRange }
{
    let Some(number) = number_of(matches, "number", 0, 4_294_967_295) else {
        return Err(WordsError::Usage);
    };
    let Some(size) = number_of(matches, "size", 1, 64) else {
        return Err(WordsError::Usage);
    };
    let Options {
        settings,
        watch,
        plain,
    } = read_options(alloc, matches)?;
    Ok(Command::Gen {
        number,
        size: size as u32,
        settings,
        watch,
        plain,
    })
}
