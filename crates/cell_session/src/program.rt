//! What a process makes of a session: the words that it was called with, the carriers of its lanes, and the number that
//! it ends with.

ghost use Rattle.std.specs.Prelude.{◌≡◌, ◌≢◌, IsTrue, IfOk, IfErr, MatchResult, map};
ghost use Rattle.std.specs.IoError.{error_kind};
ghost use Rattle.std.specs.Process.{exit_status};
ghost use Rattle.std.specs.String.{string_bytes};
ghost use Rattle.std.specs.Vec.Iter.{into_iter_items};
ghost use Rattle.session_cluster.specs.Cells.{is_empty};
ghost use Rattle.cell_session.specs.Ends.{UsageEnd};
ghost use Rattle.cell_session.specs.Programs.{IsSession, EndsWith};
ghost use Rattle.cell_session.specs.StatusNumbers.{status_number};

use crate::feeding::run_many;
use crate::running::{refuse_words, run_one};
use crate::status::Status;
use carriers::{PlanCarrier, PlanCarriers};
use io_ends::{Sink, Source};
use line_feeders::FreeGate;
use session_cluster::cluster::Cluster;
use session_settings::read_choice;
use std::alloc::Global;
use std::env::Args;
use std::io;
use std::io::ErrorKind;
use std::process::ExitCode;
use std::sync::Wait;
use std::thread::Threads;
use value_lists::NoMemory;
use words_line::WordsFault;

/// The words that a process was called with. Where one of them is no text, they are wrong.
pub fn words_of(alloc: Global, read: io::Result<Args>) -> Result<Vec<String>, WordsFault>
    ensures texts { IfOk read (λ args. MatchResult result (λ words. words.items ≡ into_iter_items args)
        (λ why. why ≡ WordsFault.NoMemory)) }
    ensures no_text { IfErr read (λ error. error_kind error ≡ ErrorKind.InvalidData → result ≡ Err WordsFault.Usage) }
    ensures no_memory { IfErr read (λ error. error_kind error ≢ ErrorKind.InvalidData
        → result ≡ Err WordsFault.NoMemory) }
{
    match read {
        Ok(words) => match all_of(alloc, words) {
            Ok(texts) => Ok(texts),
            Err(_) => Err(WordsFault::NoMemory),
        },
        Err(error) if error.kind() == ErrorKind::InvalidData => Err(WordsFault::Usage),
        Err(_) => Err(WordsFault::NoMemory),
    }
}

/// All of them, in their order.
fn all_of(alloc: Global, words: Args) -> Result<Vec<String>, NoMemory>
    ensures { IfOk result (λ texts. texts.items ≡ into_iter_items words) }
{
    let mut texts = Vec::new(alloc);
    for word in words {
        texts.push(word)?;
    }
    Ok(texts)
}

/// The number that a process ends with after a session: 0 to 5, by its status.
pub fn exit_code(status: Status) -> ExitCode
    ensures { exit_status result ≡ status_number status }
{
    ExitCode::from(status.number())
}

/// Runs a session of these words, over lanes of whose messages no fate is planned until lines plan some: with feeders, where
/// they choose some.
fn run_words<R: Threads + Wait + Sync, S: Source, K: Sink>(
    rt: &R,
    alloc: Global,
    words: &[String],
    source: &mut S,
    sink: &mut K,
    cluster: &mut Cluster<PlanCarrier>,
) -> Status
    requires { IsTrue (is_empty cluster.old) }
    ensures { IsSession result (map string_bytes words.now) (S.left source.old) (S.left source.new) cluster.new
        (K.written sink.old) (K.written sink.new) }
{
    let feeders = match read_choice(alloc, words) {
        Ok(choice) => choice.feeders,
        Err(WordsFault::Usage) => return refuse_words(alloc, sink),
        Err(WordsFault::NoMemory) => return Status::NoMemory,
    };
    if feeders == 0 {
        run_one(alloc, words, source, sink, &mut PlanCarriers, cluster)
    } else {
        run_many(
            rt,
            alloc,
            words,
            source,
            sink,
            &mut PlanCarriers,
            cluster,
            &FreeGate,
        )
    }
}

/// Runs a session of the words that a process was called with, and answers the number that the process ends with. Where a
/// word was no text that is the number of wrong words, and the usage line is written.
pub fn run_program<R: Threads + Wait + Sync, S: Source, K: Sink>(
    rt: &R,
    alloc: Global,
    words: Result<Vec<String>, WordsFault>,
    source: &mut S,
    sink: &mut K,
    cluster: &mut Cluster<PlanCarrier>,
) -> ExitCode
    requires { IsTrue (is_empty cluster.old) }
    ensures session { IfOk words (λ texts. EndsWith (exit_status result) (λ end.
        IsSession end (map string_bytes texts.items) (S.left source.old) (S.left source.new) cluster.new
        (K.written sink.old) (K.written sink.new))) }
    ensures no_text { IfErr words (λ why. why ≡ WordsFault.Usage → EndsWith (exit_status result) (λ end.
        UsageEnd end (K.written sink.old) (K.written sink.new))) }
    ensures no_memory { IfErr words (λ why. why ≡ WordsFault.NoMemory
        → (exit_status result ≡ status_number Status.NoMemory) × (sink.new ≡ sink.old)) }
    ensures nothing_read { IfErr words (λ why. (source.new ≡ source.old) × (cluster.new ≡ cluster.old)) }
{
    match words {
        Ok(words) => exit_code(run_words(rt, alloc, &words, source, sink, cluster)),
        Err(WordsFault::Usage) => exit_code(refuse_words(alloc, sink)),
        Err(WordsFault::NoMemory) => exit_code(Status::NoMemory),
    }
}
