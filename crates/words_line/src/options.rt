ghost use Rattle.std.specs.Prelude.{◌≡◌, IfOk, map};
ghost use Rattle.std.specs.String.{string_bytes};
ghost use Rattle.clap.specs.Words.{found_of, rows_of};
ghost use Rattle.words_line.specs.Said.{MatchesSay, Says};
ghost use Rattle.words_line.specs.declared.options.WordsFault.TheVariants as words_fault;

use crate::command::{given, parsed};
use crate::generated::generated_options;
use crate::plain::plain_options;
use clap::ArgMatches;
use std::alloc::Global;
use thiserror::Error;
use value_lists::{NoMemory, TextValue};

/// What the words ask for.
#[derive(Debug, Drop)]
pub struct Options {
    /// How many feeding threads, 0 to 8; none where lines are dealt with one after the other.
    pub feeders: u8,
    /// How many low bits of a key name its lane, 1 to 6.
    pub bits: u8,
    /// How many nodes are to hold a document, 1 to 8.
    pub redundancy: u8,
    /// How many nodes must have taken a write before it is acknowledged.
    pub acks: u8,
    /// How many nodes keep a document searchable.
    pub searchable: u8,
    /// More documents than this split a bucket, 1 to 1,000,000.
    pub split_at: u32,
    /// The text of the schema.
    pub schema: TextValue,
    /// The text of the first cluster state.
    pub initial: TextValue,
    /// A session that makes its own lines.
    pub generate: Option<Generate>,
}

/// The seed of a generated session, and how many documents it has, 1 to 30,000.
#[derive(Clone, Copy, Debug, PartialEq, Eq)]
pub struct Generate {
    pub seed: u32,
    pub count: u32,
}

/// Why words give no options.
#[derive(Clone, Copy, Debug, PartialEq, Eq, Error)]
pub enum WordsFault {
    /// The words say no options.
    #[error("wrong words")]
    Usage,
    /// Want of memory.
    #[error("out of memory")]
    NoMemory,
}

impl From<NoMemory> for WordsFault {
    ghost from_gives = { λ _ e. e ≡ words_fault.NoMemory };

    fn from(_error: NoMemory) -> WordsFault {
        WordsFault::NoMemory
    }
}

/// The options of these matches.
fn options_said(alloc: Global, matches: &ArgMatches) -> Result<Options, WordsFault>
    ensures said { IfOk result (MatchesSay (rows_of (found_of matches.now))) }
    ensures usage { (result ≡ Err WordsFault.Usage) → (options : Options)
        → MatchesSay (rows_of (found_of matches.now)) options → ⊥ }
{
    match (given(matches, "generate"), given(matches, "count")) {
        (None, None) => plain_options(alloc, matches),
        (Some(seed), Some(count)) => generated_options(alloc, matches, seed, count),
        _ => Err(WordsFault::Usage),
    }
}

/// Reads the words, the first of which is the program's name. Whether the schema and the state are
/// right is not judged here.
pub fn read_words(alloc: Global, words: &[String]) -> Result<Options, WordsFault>
    ensures said { IfOk result (λ options. Says (map string_bytes words.now) options) }
    ensures usage { (result ≡ Err WordsFault.Usage) → (options : Options)
        → Says (map string_bytes words.now) options → ⊥ }
{
    let matches = parsed(alloc, words)?;
    options_said(alloc, &matches)
}
