//! The options of a search, which all commands that search share.
ghost use Rattle.std.specs.Prelude.{◌≡◌, ◌≤◌, IfOk, IfSome, None, Some, codes};
ghost use Rattle.clap.specs.Words.{first_of};
ghost use Rattle.wp_plain.specs.Ranges.{AreInRange};
ghost use Rattle.wp_plain.specs.declared.settings.Search.TheVariants.{F5};
ghost use Rattle.wp_words.specs.CommandLines.{entries_in};
ghost use Rattle.wp_words.specs.Options.{is_set, kinds_or_none, number_of, number_or, options_in, search_of, search_or, settings_in};

use crate::entries::value_of;
use crate::error::WordsError;
use crate::kinds::kinds_in;
use crate::numbers::read_number;
use clap::ArgMatches;
use std::alloc::Global;
use wp_plain::{Search, Settings};
use wp_watch::WatchKinds;

/// What the options ask for: a search, watchers of its events, each kind once, and whether it is to be the search that
/// scans lists.
#[derive(Drop)]
pub struct Options {
    pub settings: Settings,
    pub watch: WatchKinds,
    pub plain: bool,
}

/// The options of these entries.
#[tactic(auto, unfolding(crate::specs::Options::options_in))]
pub fn read_options(alloc: Global, matches: &ArgMatches<'_>) -> Result<Options, WordsError>
    ensures ok { IfOk result (λ options. options_in (entries_in matches.now) ≡ Some options) }
    ensures usage { result ≡ Err WordsError.Usage → options_in (entries_in matches.now) ≡ None }
    ensures range { IfOk result (λ options. AreInRange options.settings) }
{
    let Some(settings) = settings_in(matches) else {
        return Err(WordsError::Usage);
    };
    let watch = kinds_or_none(alloc, matches)?;
    Ok(Options {
        settings,
        watch,
        plain: is_set(matches, "plain"),
    })
}

fn settings_in(matches: &ArgMatches<'_>) -> Option<Settings>
    ensures value { result ≡ settings_in (entries_in matches.now) }
    ensures range { IfSome result AreInRange }
{
    Some(Settings {
        search: search_or_f5(matches)?,
        width: number_or(matches, "width", 2, 1, 2)? as u8,
        budget: number_or(matches, "budget", 1_000_000, 1, 100_000_000)?,
        words: number_or(matches, "words", 134_217_728, 1, 536_870_912)?,
        workers: number_or(matches, "workers", 1, 1, 64)? as u32,
        ahead: number_or(matches, "ahead", 0, 0, 1_024)? as u32,
    })
}

fn search_or_f5(matches: &ArgMatches<'_>) -> Option<Search>
    ensures { result ≡ search_or F5 (first_of (codes "search") (entries_in matches.now)) }
{
    match value_of(matches, "search") {
        Some(word) => search_of(word),
        None => Some(Search::F5),
    }
}

fn search_of(word: &str) -> Option<Search>
    ensures { result ≡ search_of word.now }
{
    match word {
        "kbfws" => Some(Search::KBfws),
        "f5" => Some(Search::F5),
        _ => None,
    }
}

/// The number from `low` to `high` that the option has, or its default.
fn number_or(matches: &ArgMatches<'_>, id: &str, default: u64, low: u64, high: u64) -> Option<u64>
    requires { (low ≤ default) × (default ≤ high) }
    ensures value { result ≡ number_or default low high (first_of id.now (entries_in matches.now)) }
    ensures within { IfSome result (λ number. (low ≤ number) × (number ≤ high)) }
{
    match value_of(matches, id) {
        Some(word) => read_number(word, low, high),
        None => Some(default),
    }
}

/// The number from `low` to `high` that an entry has.
pub fn number_of(matches: &ArgMatches<'_>, id: &str, low: u64, high: u64) -> Option<u64>
    ensures value { result ≡ number_of low high (first_of id.now (entries_in matches.now)) }
    ensures within { IfSome result (λ number. (low ≤ number) × (number ≤ high)) }
{
    read_number(value_of(matches, id)?, low, high)
}

fn kinds_or_none(alloc: Global, matches: &ArgMatches<'_>) -> Result<WatchKinds, WordsError>
    ensures ok { IfOk result (λ kinds.
        kinds_or_none (first_of (codes "watch") (entries_in matches.now)) ≡ Some kinds) }
    ensures usage { result ≡ Err WordsError.Usage →
        kinds_or_none (first_of (codes "watch") (entries_in matches.now)) ≡ None }
{
    match value_of(matches, "watch") {
        Some(text) => kinds_in(alloc, text),
        None => Ok(WatchKinds::of_vec(Vec::new(alloc))),
    }
}

/// Whether the flag of that name is given.
pub fn is_set(matches: &ArgMatches<'_>, id: &str) -> bool
    ensures { result ≡ is_set (first_of id.now (entries_in matches.now)) }
{
    match value_of(matches, id) {
        Some(value) => value == "true",
        None => false,
    }
}
