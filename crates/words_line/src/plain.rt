ghost use Rattle.std.specs.Prelude.{◌≡◌, IfOk, MatchResult, None, codes};
ghost use Rattle.clap.specs.Words.{found_of, rows_of};
ghost use Rattle.words_line.specs.Said.{SaysCopies, SaysPlain, given, said};

use crate::command::given;
use crate::numbers::number;
use crate::options::{Options, WordsFault};
use crate::texts::text_value;
use clap::ArgMatches;
use doc_types::DEFAULT_SCHEMA;
use std::alloc::Global;
use value_lists::{NoMemory, TextValue};

/// The first state of a session that reads its lines.
const DEFAULT_STATE: &str = "version:1 distributor:1 storage:1";

/// The text of an option, or its default.
fn text(
    alloc: Global,
    matches: &ArgMatches,
    name: &str,
    default: &str,
) -> Result<TextValue, NoMemory>
    ensures { IfOk result (λ text. text ≡ said (rows_of (found_of matches.now)) name.now default.now) }
{
    text_value(alloc, given(matches, name).unwrap_or(default))
}

/// How many nodes are to hold a document, to have taken a write, and to keep it searchable.
#[derive(Clone, Copy)]
pub struct Copies {
    pub redundancy: u32,
    pub acks: u32,
    pub searchable: u32,
}

/// How many copies the options ask for.
fn copies_said(matches: &ArgMatches) -> Result<Copies, WordsFault>
    ensures { MatchResult result (SaysCopies (rows_of (found_of matches.now)))
        (λ _. (c : Copies) → SaysCopies (rows_of (found_of matches.now)) c → ⊥) }
{
    let redundancy = number(matches, "redundancy", "1", 1, 8)?;
    let acks = number(matches, "acks", "1", 1, redundancy)?;
    let searchable = number(matches, "searchable", "1", 1, redundancy)?;
    Ok(Copies {
        redundancy,
        acks,
        searchable,
    })
}

/// The options of a session that reads its lines.
pub fn plain_options(alloc: Global, matches: &ArgMatches) -> Result<Options, WordsFault>
    requires no_seed { given (rows_of (found_of matches.now)) (codes "generate") ≡ None }
    requires no_count { given (rows_of (found_of matches.now)) (codes "count") ≡ None }
    ensures said { IfOk result (SaysPlain (rows_of (found_of matches.now))) }
    ensures usage { (result ≡ Err WordsFault.Usage) → (options : Options)
        → SaysPlain (rows_of (found_of matches.now)) options → ⊥ }
{
    let feeders = number(matches, "feeders", "0", 0, 8)?;
    let bits = number(matches, "bits", "4", 1, 6)?;
    let copies = copies_said(matches)?;
    let split_at = number(matches, "split-at", "64", 1, 1_000_000)?;
    Ok(Options {
        feeders: feeders as u8,
        bits: bits as u8,
        redundancy: copies.redundancy as u8,
        acks: copies.acks as u8,
        searchable: copies.searchable as u8,
        split_at,
        schema: text(alloc, matches, "schema", DEFAULT_SCHEMA)?,
        initial: text(alloc, matches, "state", DEFAULT_STATE)?,
        generate: None,
    })
}
