//! What takes answer and leave on a node's disk, and what files give, whole, cut, changed, and after a crash.

ghost use Rattle.std.specs.Prelude.{◌≡◌, IfOk};
ghost use Rattle.message_texts.specs.Fitting.{Fits};

use crate::texts::{byte, number, shown};
use disks::{Disk, MemoryDisk};
use doc_types::Schema;
use message_texts::read_message;
use messages::{Message, Reply};
use node_journal::{JournalFault, JournaledNode, OpenCause};
use std::alloc::Global;

/// An Apply that makes the bucket (4, 0) a piece, with one entry.
const FIRST: &str =
    r#"{"body":"apply","bucket":"1000000000000000","entries":[{"fields":{"year":1990},"id":"id:a:music:n=0:x","stamp":"2:1"}],"lane":0,"receiver":0,"sender":0,"version":2}"#;

/// Stores of other documents.
const SECOND: &str =
    r#"{"body":"store","entry":{"fields":null,"id":"id:a:music:n=16:y","stamp":"2:2"},"lane":0,"receiver":0,"sender":0,"version":2}"#;

const THIRD: &str =
    r#"{"body":"store","entry":{"fields":null,"id":"id:a:music:n=48:z","stamp":"2:3"},"lane":0,"receiver":0,"sender":0,"version":2}"#;

/// A Store under a smaller version.
const OLDER: &str =
    r#"{"body":"store","entry":{"fields":null,"id":"id:a:music:n=32:v","stamp":"1:4"},"lane":0,"receiver":0,"sender":0,"version":1}"#;

/// A Store where no piece is.
const ELSEWHERE: &str =
    r#"{"body":"store","entry":{"fields":null,"id":"id:a:music:n=1:w","stamp":"2:5"},"lane":0,"receiver":0,"sender":0,"version":2}"#;

/// The limit of most files.
const LIMIT: u64 = 1000;

/// The number of no call.
const NO_CALL: u64 = 99;

/// The messages of most files.
const ALL: &str = "first,second,third";

/// What a take answers.
#[derive(Clone, Copy, Debug)]
enum Told {
    Accepted,
    NoBucket,
    Newer,
    Shut,
    Full,
    DiskFault,
    Other,
}

/// The text of a message by its name.
fn text(name: &str) -> &'static str {
    match name {
        "first" => FIRST,
        "second" => SECOND,
        "third" => THIRD,
        "older" => OLDER,
        _ => ELSEWHERE,
    }
}

fn reply_told(reply: &Reply) -> Told {
    match reply {
        Reply::Answer { .. } => Told::Accepted,
        Reply::NoBucket => Told::NoBucket,
        Reply::Newer { .. } => Told::Newer,
        _ => Told::Other,
    }
}

fn fault_told(fault: JournalFault) -> Told {
    match fault {
        JournalFault::Shut => Told::Shut,
        JournalFault::Full => Told::Full,
        JournalFault::DiskFault => Told::DiskFault,
        JournalFault::NoMemory => Told::Other,
    }
}

/// Takes a message.
fn take(node: &mut JournaledNode<MemoryDisk>, message: &Message) -> Told
    requires { Fits node.old.schema message.now }
    ensures { node.new.schema ≡ node.old.schema }
{
    match node.take(message) {
        Ok(taken) => reply_told(&taken.reply),
        Err(fault) => fault_told(fault),
    }
}

/// Takes the message of a name.
fn take_named(
    alloc: Global,
    node: &mut JournaledNode<MemoryDisk>,
    schema: &Schema,
    name: &str,
) -> Told
    requires { node.old.schema ≡ schema.now }
    ensures { node.new.schema ≡ schema.now }
{
    match read_message(alloc, text(name).as_bytes(), schema) {
        Ok(message) => take(node, &message),
        Err(_) => Told::Other,
    }
}

/// A disk with these bytes, whose call of this number fails.
fn disk_of(alloc: Global, bytes: &[u8], failing: u64) -> Result<MemoryDisk, OpenCause> {
    let bytes = Vec::from_slice(alloc, bytes)?;
    let failing = Vec::from_slice(alloc, &[failing])?;
    Ok(MemoryDisk::new(alloc, bytes, failing))
}

/// A node over such a disk.
fn open(
    alloc: Global,
    schema: &Schema,
    bytes: &[u8],
    failing: u64,
    limit: u64,
) -> Result<JournaledNode<MemoryDisk>, OpenCause>
    ensures { IfOk result (λ j. j.schema ≡ schema.now) }
{
    if limit < 6 || limit > LIMIT {
        return Err(OpenCause::NoMemory);
    }
    let disk = disk_of(alloc, bytes, failing)?;
    match JournaledNode::open(alloc, schema, disk, limit) {
        Ok(node) => Ok(node),
        Err(fault) => Err(fault.cause),
    }
}

/// How many entries the node has.
fn entries(
    alloc: Global,
    schema: &Schema,
    bytes: &[u8],
    failing: u64,
    limit: u64,
) -> Result<u64, OpenCause> {
    let node = open(alloc, schema, bytes, failing, limit)?;
    Ok(node.node().entries())
}

/// Takes the messages of three names with commas between; what comes of each.
fn play(
    alloc: Global,
    node: &mut JournaledNode<MemoryDisk>,
    schema: &Schema,
    names: &str,
) -> (Told, Told, Told)
    requires { node.old.schema ≡ schema.now }
{
    let (first, rest) = names.split_once(',').unwrap_or((names, ""));
    let (second, third) = rest.split_once(',').unwrap_or((rest, ""));
    let first = take_named(alloc, node, schema, first);
    let second = take_named(alloc, node, schema, second);
    let third = take_named(alloc, node, schema, third);
    (first, second, third)
}

/// A node that took three messages on a disk that was empty.
fn played(alloc: Global, schema: &Schema) -> Result<JournaledNode<MemoryDisk>, OpenCause> {
    let mut node = open(alloc, schema, &[], NO_CALL, LIMIT)?;
    play(alloc, &mut node, schema, ALL);
    Ok(node)
}

/// What three takes answer, the length of the file that is left, and how many entries that gives.
type Takes = Result<(Told, Told, Told, u64, u64), OpenCause>;

/// The same of takes that answered so and left a node.
fn left(
    alloc: Global,
    schema: &Schema,
    node: &JournaledNode<MemoryDisk>,
    told: (Told, Told, Told),
) -> Takes {
    let bytes = node.disk().bytes();
    let entries = entries(alloc, schema, bytes, NO_CALL, LIMIT)?;
    Ok((told.0, told.1, told.2, bytes.len() as u64, entries))
}

fn takes(alloc: Global, schema: &Schema, failing: u64, limit: u64, names: &str) -> Takes {
    let mut node = open(alloc, schema, &[], failing, limit)?;
    let told = play(alloc, &mut node, schema, names);
    left(alloc, schema, &node, told)
}

/// The file of all three messages.
fn file_of_all(alloc: Global, schema: &Schema) -> Result<Vec<u8>, OpenCause> {
    let node = played(alloc, schema)?;
    Ok(Vec::from_slice(alloc, node.disk().bytes())?)
}

/// A byte of that file.
fn byte_at(alloc: Global, schema: &Schema, at: u64) -> Result<Option<u8>, OpenCause> {
    let file = file_of_all(alloc, schema)?;
    Ok(file.get(at as usize).copied())
}

/// How many entries it gives on a disk one of whose calls fails, under a limit.
fn opened(alloc: Global, schema: &Schema, failing: u64, limit: u64) -> Result<u64, OpenCause> {
    let file = file_of_all(alloc, schema)?;
    entries(alloc, schema, &file, failing, limit)
}

/// How many its first bytes give.
fn cut(alloc: Global, schema: &Schema, length: u64) -> Result<u64, OpenCause> {
    let mut file = file_of_all(alloc, schema)?;
    file.truncate(length as usize);
    entries(alloc, schema, &file, NO_CALL, LIMIT)
}

/// How many it gives after a change of one byte.
fn changed(alloc: Global, schema: &Schema, at: u64, by: u8) -> Result<u64, OpenCause> {
    let mut file = file_of_all(alloc, schema)?;
    if let Some(place) = file.get_mut(at as usize) {
        *place = by;
    }
    entries(alloc, schema, &file, NO_CALL, LIMIT)
}

/// How many entries the file of a crash in a call gives that leaves this length; none where no crash leaves it.
fn after_crash(
    alloc: Global,
    schema: &Schema,
    disk: &MemoryDisk,
    call: u64,
    fill: u8,
    length: u64,
) -> Result<Option<u64>, OpenCause> {
    match disk.image(call, fill, length) {
        Ok(Some(image)) => Ok(Some(entries(alloc, schema, image.bytes(), NO_CALL, LIMIT)?)),
        Ok(None) => Ok(None),
        Err(_) => Err(OpenCause::NoMemory),
    }
}

/// What crashes in a call leave: lengths from the least to the greatest, and so many entries where each byte that a crash
/// may have changed is 1, and so many where each is another one. Of these are tried all that have none of
/// the bits of `without`.
#[derive(Clone, Copy)]
struct Crash {
    call: u64,
    least: u64,
    greatest: u64,
    ones: u64,
    others: u64,
    without: u8,
}

impl Crash {
    fn of(words: &str) -> Crash {
        Crash {
            call: number(words, 0),
            least: number(words, 1),
            greatest: number(words, 2),
            ones: number(words, 3),
            others: number(words, 4),
            without: byte(words, 5),
        }
    }

    /// Whether a byte is tried.
    fn tries(&self, fill: u8) -> bool {
        fill == 1 || fill & self.without == 0
    }

    /// How many entries a length gives; none where no crash leaves it.
    fn wanted(&self, fill: u8, length: u64) -> Option<u64> {
        if length < self.least || self.greatest < length {
            None
        } else if fill == 1 {
            Some(self.ones)
        } else {
            Some(self.others)
        }
    }
}

/// The first length that a crash doesn't leave just so; none where there is no such length.
fn wrong_length(
    alloc: Global,
    schema: &Schema,
    disk: &MemoryDisk,
    crash: &Crash,
    fill: u8,
) -> Result<Option<u64>, OpenCause> {
    if !crash.tries(fill) {
        return Ok(None);
    }
    for length in 0..disk.length().saturating_add(2) {
        let found = after_crash(alloc, schema, disk, crash.call, fill, length)?;
        if found != crash.wanted(fill, length) {
            return Ok(Some(length));
        }
    }
    Ok(None)
}

/// The first such length where crashes fill with one byte, of each byte in turn.
fn crashed_on(
    alloc: Global,
    schema: &Schema,
    disk: &MemoryDisk,
    crash: &Crash,
) -> Result<Option<u64>, OpenCause> {
    for fill in 0..=255u8 {
        let wrong = wrong_length(alloc, schema, disk, crash, fill)?;
        if wrong.is_some() {
            return Ok(wrong);
        }
    }
    Ok(None)
}

/// The same on the disk of all three messages.
fn crashed(alloc: Global, schema: &Schema, crash: &Crash) -> Result<Option<u64>, OpenCause> {
    let node = played(alloc, schema)?;
    crashed_on(alloc, schema, node.disk(), crash)
}

/// What a line says of nodes on a disk.
pub fn journal_told(alloc: Global, schema: &Schema, asked: &str) -> Option<String> {
    let (verb, rest) = asked.split_once(' ').unwrap_or((asked, ""));
    let (one, two) = (number(rest, 0), number(rest, 1));
    match verb {
        "opened" => shown(alloc, &opened(alloc, schema, one, two)),
        "byte" => shown(alloc, &byte_at(alloc, schema, one)),
        "cut" => shown(alloc, &cut(alloc, schema, one)),
        "changed" => shown(alloc, &changed(alloc, schema, one, byte(rest, 1))),
        "crash" => shown(alloc, &crashed(alloc, schema, &Crash::of(rest))),
        names => shown(alloc, &takes(alloc, schema, one, two, names)),
    }
}
