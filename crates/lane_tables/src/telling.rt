//! How the answers of calls are printed.

use bucket_db::Row;
use cluster_states::{ClusterState, PublishFault};
use doc_types::FieldValue;
use document_ids::DocId;
use documents::Entry;
use lane_calls::answers::{Advance, Begin, Hear};
use messages::Outcome;
use service_layer::NodePart;
use stamps::Stamp;
use std::alloc::Global;
use std::io;
use upkeep_spans::Upkeep;
use value_lists::NoMemory;

/// What is printed for a call that may not be made.
const LEFT_OUT: &str = "left out";

pub fn print_begin(rt: &HostRuntime, answer: &Option<Begin>) -> io::Result<()> {
    match answer {
        Some(Begin::Begun) => println!(rt; "begun"),
        Some(Begin::Refused { outcome }) => print_end(rt, outcome),
        Some(Begin::Held { by }) => println!(rt; "held by {by}"),
        Some(Begin::NoMemory) => println!(rt; "no memory"),
        None => println!(rt; "{LEFT_OUT}"),
    }
}

pub fn print_advance(rt: &HostRuntime, answer: Option<Advance>) -> io::Result<()> {
    match answer {
        Some(Advance::More) => println!(rt; "more"),
        Some(Advance::Waits { by }) => println!(rt; "waits for {by}"),
        Some(Advance::Done) => println!(rt; "done"),
        Some(Advance::NoMemory) => println!(rt; "no memory"),
        None => println!(rt; "{LEFT_OUT}"),
    }
}

pub fn print_hear(rt: &HostRuntime, answer: Option<Hear>) -> io::Result<()> {
    match answer {
        Some(Hear::Heard { version }) => println!(rt; "heard {version}"),
        Some(Hear::Held { by }) => println!(rt; "held by {by}"),
        Some(Hear::NoMemory) => println!(rt; "no memory"),
        None => println!(rt; "{LEFT_OUT}"),
    }
}

pub fn print_upkeep(rt: &HostRuntime, answer: Option<Upkeep>) -> io::Result<()> {
    match answer {
        Some(Upkeep::Rested) => println!(rt; "rested"),
        Some(Upkeep::Blocked { absent }) => println!(rt; "blocked by {absent}"),
        Some(Upkeep::Disturbed { message }) => println!(rt; "disturbed by {message}"),
        Some(Upkeep::Held { by }) => println!(rt; "held by {by}"),
        Some(Upkeep::NoMemory) => println!(rt; "no memory"),
        None => println!(rt; "{LEFT_OUT}"),
    }
}

pub fn print_published(
    rt: &HostRuntime,
    state: &ClusterState,
    answer: Option<Result<(), PublishFault>>,
) -> io::Result<()> {
    match answer {
        Some(Ok(())) => println!(rt; "published {}", state.version()),
        Some(Err(fault)) => println!(rt; "{fault}"),
        None => println!(rt; "{LEFT_OUT}"),
    }
}

pub fn print_outcome(rt: &HostRuntime, outcome: &Option<Outcome>) -> io::Result<()> {
    match outcome {
        Some(outcome) => print_end(rt, outcome),
        None => println!(rt; "{LEFT_OUT}"),
    }
}

/// Prints how an operation ended.
fn print_end(rt: &HostRuntime, outcome: &Outcome) -> io::Result<()> {
    match outcome {
        Outcome::Acked { stamp } => println!(rt; "acked {}:{}", stamp.version, stamp.count),
        Outcome::Found { stamp } => println!(rt; "found {}:{}", stamp.version, stamp.count),
        Outcome::Nothing { seen } => print_seen(rt, "nothing", seen),
        Outcome::Missing { seen } => print_seen(rt, "missing", seen),
        Outcome::ConditionFailed { seen } => print_seen(rt, "condition failed", seen),
        Outcome::BadUpdate { .. } => println!(rt; "bad update"),
        Outcome::TooFew {
            answered,
            needed,
            absent,
        } => { println!(rt; "{answered} of {needed}, absent {absent}") }
        Outcome::OwnedElsewhere { owner, version } => {
            println!(rt; "owned by {owner} under {version}")
        }
        Outcome::NoMemory => println!(rt; "no memory"),
    }
}

/// Prints a word, and the stamp of what was seen.
fn print_seen(rt: &HostRuntime, word: &str, seen: &Option<Stamp>) -> io::Result<()> {
    match seen {
        Some(stamp) => println!(rt; "{word}, seen {}:{}", stamp.version, stamp.count),
        None => println!(rt; "{word}"),
    }
}

/// Prints a row: its bucket, its complete members as bits of a number, and its active node.
pub fn print_row(rt: &HostRuntime, row: &Row) -> io::Result<()> {
    let (bits, low, members) = (row.bucket.bits(), row.bucket.low(), row.complete.bits());
    match row.active {
        Some(node) => println!(rt; "row {bits}/{low} members {members} active {node}"),
        None => println!(rt; "row {bits}/{low} members {members}"),
    }
}

/// Prints the version of a node, and what it has of each of the documents.
pub fn print_node(
    rt: &HostRuntime,
    number: u8,
    node: Option<&NodePart>,
    ids: &str,
) -> io::Result<()> {
    let version = match node {
        Some(node) => node.version(),
        None => 0,
    };
    match entries_of(rt.alloc(), node, ids) {
        Ok(text) => println!(rt; "node {number} at {version}{text}"),
        Err(NoMemory) => println!(rt; "no memory"),
    }
}

/// What a node has of each of the documents.
fn entries_of(alloc: Global, node: Option<&NodePart>, ids: &str) -> Result<String, NoMemory> {
    let mut text = String::new(alloc);
    for word in ids.split(' ') {
        let Ok(id) = DocId::parse(alloc, word) else {
            continue;
        };
        match node.and_then(|node| node.entry(&id)) {
            Some(entry) => put_entry(&mut text, entry)?,
            None => text.push_str(" -")?,
        }
    }
    Ok(text)
}

/// Adds the stamp of an entry, and the year of its document.
fn put_entry(text: &mut String, entry: &Entry) -> Result<(), NoMemory> {
    write!(text, " {}:{}", entry.stamp.version, entry.stamp.count)?;
    match &entry.body {
        Some(document) => match document.get("year") {
            Some(FieldValue::Int(year)) => write!(text, "={year}")?,
            _ => text.push_str("=")?,
        },
        None => text.push_str(" removed")?,
    }
    Ok(())
}
