//! What an operation sends, and how it ends by the answers.

ghost use Rattle.std.specs.Prelude.{◌≡◌, ◌≤◌, IfSome, is_some, not};
ghost use Rattle.node_sets.specs.Members.{size_of};
ghost use Rattle.op_machine.specs.Plans.{IsMember, IsOwn, is_get};

use crate::texts::word;
use crate::versions::{read_document, read_update, read_version, schema};
use crate::words::{read_arrived, read_node};
use bucket_ids::Bucket;
use doc_selection::Selection;
use doc_updates::Update;
use document_ids::DocId;
use documents::{Document, Entry};
use entry_maps::EntryMap;
use global_ids::key_of;
use json_documents::fields_json;
use messages::{Body, Message, OpKind, Operation, Origin, Reply, SharedOperation};
use node_sets::NodeSet;
use op_machine::OpMachine;
use pieces::PieceList;
use stamps::Stamp;
use std::alloc::Global;

/// What stands in each message.
const ORIGIN: Origin = Origin {
    version: 2,
    lane: 5,
    sender: 3,
};

/// The one document.
fn document_id(alloc: Global) -> Option<DocId> {
    DocId::parse(alloc, "id:ns:music::a").ok()
}

/// A text in which a letter stands for so many texts.
fn with(alloc: Global, word: &str, letter: &str, text: &str, count: usize) -> Option<String> {
    match text.repeat(alloc, count) {
        Ok(many) => word.replace(alloc, letter, &many).ok(),
        Err(_) => None,
    }
}

/// An update in which `~` stands for 40,000 letters.
fn read_wide_update(alloc: Global, id: &DocId, fields: &str) -> Option<Update> {
    match with(alloc, fields, "~", "x", 40_000) {
        Some(fields) => read_update(alloc, id, &fields),
        None => None,
    }
}

/// What an operation does, where its document has this id.
fn read_kind(alloc: Global, id: &DocId, verb: &str, fields: &str) -> Option<OpKind>
    ensures { IfSome result (λ kind. IsOwn id.now kind) }
{
    match verb {
        "put" => Some(OpKind::Put(read_document(alloc, id, fields)?)),
        "update" => Some(OpKind::Update(read_wide_update(alloc, id, fields)?)),
        "remove" => Some(OpKind::Remove),
        "get" => Some(OpKind::Get),
        _ => None,
    }
}

/// A condition, or none where the word is a `-`.
fn read_condition(alloc: Global, word: &str) -> Option<Option<Selection>> {
    if word == "-" {
        return Some(None);
    }
    match Selection::parse(alloc, word, &schema(alloc)?) {
        Ok(condition) => Some(Some(condition)),
        Err(_) => None,
    }
}

/// The operation that the words behind the first bar say: what it does, its fields, `create`, its condition.
fn read_operation(alloc: Global, words: &str) -> Option<Operation>
    ensures { IfSome result (λ operation. IsOwn operation.id operation.kind) }
{
    let id = document_id(alloc)?;
    let kind = read_kind(alloc, &id, word(words, 3), word(words, 4))?;
    match read_condition(alloc, word(words, 6)) {
        Some(condition) => Some(Operation {
            id,
            kind,
            condition,
            create: word(words, 5) == "create",
        }),
        None => None,
    }
}

/// The stamp that an operation has drawn.
fn drawn(kind: &OpKind) -> Option<Stamp>
    ensures { is_some result ≡ not (is_get kind.now) }
{
    match kind {
        OpKind::Put(_) | OpKind::Update(_) | OpKind::Remove => Some(Stamp {
            version: 2,
            count: 9,
        }),
        OpKind::Get => None,
    }
}

/// Nodes, with a comma between them.
fn read_nodes(word: &str) -> Option<NodeSet> {
    let mut nodes = NodeSet::none();
    for node in word.split(',') {
        nodes = nodes.with(read_node(node)?);
    }
    Some(nodes)
}

/// The active node, one of a set, or none where the word is a `-`.
fn read_active(word: &str, nodes: NodeSet) -> Option<Option<u8>>
    ensures { IfSome result (λ active. IsMember active nodes) }
{
    if word == "-" {
        return Some(None);
    }
    match read_node(word) {
        Some(node) if nodes.has(node) => Some(Some(node)),
        _ => None,
    }
}

/// How many of some nodes have to answer.
fn read_acks(word: &str, nodes: NodeSet) -> Option<u8>
    ensures some { IfSome result (λ acks. 1 ≤ acks) }
    ensures enough { IfSome result (λ acks. acks ≤ size_of nodes) }
{
    match word.parse::<u8>() {
        Ok(acks) if acks >= 1 && acks <= nodes.len() => Some(acks),
        _ => None,
    }
}

/// The machine of an operation, by the recipients, how many have to answer, and the active node.
fn read_machine(alloc: Global, recipients: &str, words: &str) -> Option<OpMachine> {
    let recipients = read_nodes(recipients)?;
    let acks = read_acks(word(words, 0), recipients)?;
    let active = read_active(word(words, 1), recipients)?;
    let operation = read_operation(alloc, words)?;
    let stamp = drawn(&operation.kind);
    match SharedOperation::new(alloc, operation) {
        Ok(operation) => Some(OpMachine::new(ORIGIN, operation, stamp, recipients, active, acks)),
        Err(_) => None,
    }
}

/// A map of the version of the document that a word says, in which `%` stands for 255 texts, each with a comma behind it.
fn map_of(alloc: Global, word: &str) -> Option<EntryMap> {
    let word = with(alloc, word, "%", "\"i\",", 255)?;
    match read_version(alloc, document_id(alloc)?, &word) {
        Some(entry) => one_of(alloc, entry),
        None => None,
    }
}

/// The map of an entry.
fn one_of(alloc: Global, entry: Entry) -> Option<EntryMap> {
    let mut entries = EntryMap::new(alloc);
    if entries.put(entry).is_ok() {
        Some(entries)
    } else {
        None
    }
}

/// The answer that shows one version of the document.
fn showing(alloc: Global, word: &str) -> Option<Option<Reply>> {
    match map_of(alloc, word) {
        Some(entries) => Some(Some(Reply::Answer {
            pieces: PieceList::of(Vec::new(alloc)),
            entries,
        })),
        None => None,
    }
}

/// The reply that a word says: that a version of the document is shown, `ok` that none is, or another one.
fn read_answer(alloc: Global, word: &str) -> Option<Option<Reply>> {
    match word {
        "ok" => read_arrived(alloc, "answer", "-"),
        "newer" => read_arrived(alloc, "newer", "3"),
        word if word.contains('/') => showing(alloc, word),
        word => read_arrived(alloc, word, ""),
    }
}

/// The fields of a document in JSON.
fn json_of(alloc: Global, document: &Document) -> Option<String> {
    match fields_json(alloc, document) {
        Ok(fields) => fields.to_string(alloc).ok(),
        Err(_) => None,
    }
}

/// Appends the fields of an entry in JSON, or a `-` where it is a remove.
fn push_fields(alloc: Global, log: &mut String, entry: &Entry) -> bool {
    match &entry.body {
        Some(document) => match json_of(alloc, document) {
            Some(fields) => log.push_str(&fields).is_ok(),
            None => false,
        },
        None => log.push('-').is_ok(),
    }
}

/// Appends a Store: `s`, the receiver, and the version that it carries.
fn push_store(alloc: Global, log: &mut String, node: u8, entry: &Entry) -> bool {
    let (version, count) = (entry.stamp.version, entry.stamp.count);
    let mut good = write!(log, "s{node} {version}:{count}/").is_ok();
    good &= push_fields(alloc, log, entry);
    good & log.push(' ').is_ok()
}

/// Whether a Read is that of the document.
fn is_read(bucket: Bucket, id: &DocId) -> bool {
    bucket.bits() == 58 && bucket.low() == key_of(id) && id.text() == "id:ns:music::a"
}

/// Appends a Read, as `r` and the receiver, or a Store; whether it is one of these.
fn push_told(alloc: Global, log: &mut String, message: &Message) -> bool {
    let node = message.receiver;
    match &message.body {
        Body::Read {
            bucket,
            only: Some(id),
        } => is_read(*bucket, id) && write!(log, "r{node} ").is_ok(),
        Body::Store { entry } => push_store(alloc, log, node, entry.entry()),
        _ => false,
    }
}

/// Whether there is no outcome yet.
fn goes_on(alloc: Global, machine: &mut OpMachine) -> bool {
    matches!(machine.outcome(alloc), Ok(None))
}

/// The next message, before which there is no outcome and whose reply is told.
fn sent(alloc: Global, machine: &mut OpMachine, reply: Option<&Reply>) -> Option<Message> {
    if !goes_on(alloc, machine) {
        return None;
    }
    let message = machine.send(alloc).ok()??;
    if machine.answer(alloc, message.receiver, reply).is_ok() {
        Some(message)
    } else {
        None
    }
}

/// Whether a message is of the machine's origin.
fn is_own(message: &Message) -> bool {
    message.version() == ORIGIN.version
        && message.lane == ORIGIN.lane
        && message.sender == ORIGIN.sender
}

/// Appends what is sent that gets a reply; whether it is something.
fn push_sent(
    alloc: Global,
    log: &mut String,
    machine: &mut OpMachine,
    reply: Option<&Reply>,
) -> bool {
    match sent(alloc, machine, reply) {
        Some(message) => is_own(&message) && push_told(alloc, log, &message),
        None => false,
    }
}

/// The same of the reply that a word says.
fn step(alloc: Global, log: &mut String, machine: &mut OpMachine, word: &str) -> bool {
    match read_answer(alloc, word) {
        Some(reply) => push_sent(alloc, log, machine, reply.as_ref()),
        None => false,
    }
}

/// Whether no message is left to send.
fn is_over(alloc: Global, machine: &mut OpMachine) -> bool {
    matches!(machine.send(alloc), Ok(None))
}

/// Appends how the operation ends, behind its last message.
fn push_ending(alloc: Global, log: &mut String, machine: &mut OpMachine) -> bool {
    if !is_over(alloc, machine) {
        return false;
    }
    match machine.outcome(alloc) {
        Ok(Some(outcome)) => write!(log, "{outcome:?}").is_ok(),
        _ => false,
    }
}

/// Appends what is sent where the words behind the second bar are the replies, and how it ends.
fn run(alloc: Global, log: &mut String, machine: &mut OpMachine, words: &str) -> bool {
    let mut good = true;
    for word in words.split_ascii_whitespace().skip(8) {
        good &= step(alloc, log, machine, word);
    }
    good & push_ending(alloc, log, machine)
}

/// What is sent, and how it ends.
fn run_told(alloc: Global, machine: &mut OpMachine, words: &str) -> Option<String> {
    let mut log = String::new(alloc);
    if run(alloc, &mut log, machine, words) {
        Some(log)
    } else {
        None
    }
}

/// What an operation sends and how it ends, by who takes part, a bar, the operation, a bar, and the replies.
pub fn say(alloc: Global, recipients: &str, words: &str) -> Option<String> {
    if word(words, 2) != "|" || word(words, 7) != "|" {
        return None;
    }
    match read_machine(alloc, recipients, words) {
        Some(mut machine) => run_told(alloc, &mut machine, words),
        None => None,
    }
}
