ghost use Rattle.std.specs.Prelude.{◌≡◌, IfOk, IsTrue, ◌↔◌, Some, None, codes};
ghost use Rattle.clap.specs.Words.{found_of, rows_of};
ghost use Rattle.words_line.specs.Said.{SaysGenerated, StandsAlone, given};

use crate::command::given;
use crate::numbers::{number, number_in};
use crate::options::{Generate, Options, WordsFault};
use crate::texts::text_value;
use clap::ArgMatches;
use doc_types::DEFAULT_SCHEMA;
use std::alloc::Global;

/// The first state of a session that makes its lines.
const GENERATED_STATE: &str = "version:1 distributor:2 storage:4";

/// Whether this option isn't there.
fn is_absent(matches: &ArgMatches, name: &str) -> bool
    ensures { IsTrue result ↔ (given (rows_of (found_of matches.now)) name.now ≡ None) }
{
    given(matches, name).is_none()
}

/// Whether no option is there that a generated session hasn't.
fn stands_alone(matches: &ArgMatches) -> bool
    ensures { IsTrue result ↔ StandsAlone (rows_of (found_of matches.now)) }
{
    is_absent(matches, "redundancy")
        && is_absent(matches, "acks")
        && is_absent(matches, "searchable")
        && is_absent(matches, "split-at")
        && is_absent(matches, "schema")
        && is_absent(matches, "state")
}

/// The options of a session that makes its lines.
pub fn generated_options(
    alloc: Global,
    matches: &ArgMatches,
    seed: &str,
    count: &str,
) -> Result<Options, WordsFault>
    requires seed { given (rows_of (found_of matches.now)) (codes "generate") ≡ Some seed.now }
    requires count { given (rows_of (found_of matches.now)) (codes "count") ≡ Some count.now }
    ensures said { IfOk result (SaysGenerated (rows_of (found_of matches.now))) }
    ensures usage { (result ≡ Err WordsFault.Usage) → (options : Options)
        → SaysGenerated (rows_of (found_of matches.now)) options → ⊥ }
{
    if !stands_alone(matches) {
        return Err(WordsFault::Usage);
    }
    let seed = number_in(seed, 0, u32::MAX)?;
    let count = number_in(count, 1, 30_000)?;
    let feeders = number(matches, "feeders", "0", 0, 8)?;
    let bits = number(matches, "bits", "4", 1, 6)?;
    Ok(Options {
        feeders: feeders as u8,
        bits: bits as u8,
        redundancy: 3,
        acks: 2,
        searchable: 2,
        split_at: 32,
        schema: text_value(alloc, DEFAULT_SCHEMA)?,
        initial: text_value(alloc, GENERATED_STATE)?,
        generate: Some(Generate { seed, count }),
    })
}
