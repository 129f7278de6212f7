ghost use Rattle.std.specs.Prelude.{◌≡◌, ◌≢◌, IfOk, OnErr, map, List, []};
ghost use Rattle.std.specs.String.{string_bytes};
ghost use Rattle.std.specs.Prelude.{option_map};
ghost use Rattle.clap.specs.Words.{app_of, found_of, rows_of, with_rule};
ghost use Rattle.words_line.specs.Command.{bare_command, option_rule, the_command};
ghost use Rattle.words_line.specs.Said.{given, matches, refusals};

use crate::options::WordsFault;
use clap::error::ErrorKind;
use clap::{Arg, ArgAction, ArgMatches, Command};
use std::alloc::Global;
use value_lists::NoMemory;

/// The command with one more option, which takes a text.
fn with_option<'a>(
    alloc: Global,
    command: Command<'a>,
    name: &'a str,
) -> Result<Command<'a>, NoMemory>
    ensures { IfOk result (λ r. app_of r ≡ with_rule (app_of command.entry) (option_rule name.entry.now)) }
{
    let option = Arg::new(alloc, name).long(name).action(ArgAction::Set);
    Ok(command.arg(option)?)
}

/// A command without options.
fn bare_command<'a>(alloc: Global) -> Command<'a>
    ensures { app_of result ≡ bare_command }
{
    Command::new(alloc, "vespa_cell")
        .disable_help_flag(true)
        .disable_version_flag(true)
}

/// The command with two more options.
fn with_two<'a>(
    alloc: Global,
    command: Command<'a>,
    one: &'a str,
    two: &'a str,
) -> Result<Command<'a>, NoMemory>
    ensures { IfOk result (λ r. app_of r
        ≡ with_rule (with_rule (app_of command.entry) (option_rule one.entry.now)) (option_rule two.entry.now)) }
{
    let command = with_option(alloc, command, one)?;
    with_option(alloc, command, two)
}

/// The command: its options and nothing else.
fn command<'a>(alloc: Global) -> Result<Command<'a>, NoMemory>
    ensures { IfOk result (λ r. app_of r ≡ the_command) }
{
    let lanes = with_two(alloc, bare_command(alloc), "feeders", "bits")?;
    let copies = with_two(alloc, lanes, "redundancy", "acks")?;
    let limits = with_two(alloc, copies, "searchable", "split-at")?;
    let texts = with_two(alloc, limits, "schema", "state")?;
    with_two(alloc, texts, "generate", "count")
}

/// What stands with each option, by `clap`.
pub fn parsed<'a>(alloc: Global, words: &'a [String]) -> Result<ArgMatches<'a>, WordsFault>
    ensures taken { IfOk result (λ m. refusals (map string_bytes words.entry.now) ≡ []) }
    ensures rows { IfOk result (λ m. rows_of (found_of m) ≡ matches (map string_bytes words.entry.now)) }
    ensures usage { (result ≡ Err WordsFault.Usage) → refusals (map string_bytes words.entry.now) ≢ [] }
{
    match command(alloc)?.try_get_matches_from(words) {
        Ok(matches) => Ok(matches),
        Err(error) => match error.kind() {
            ErrorKind::OutOfMemory => Err(WordsFault::NoMemory),
            _ => Err(WordsFault::Usage),
        },
    }
}

/// The text that stands with an option, where the option is there.
#[tactic(auto, using(crate::proofs::Reading::first_text))]
pub fn given<'a>(matches: &ArgMatches<'a>, name: &str) -> Option<&'a str>
    ensures { option_map (λ s. s.now) result ≡ given (rows_of (found_of matches.now)) name.now }
{
    matches.get_str(name)
}
