ghost use Rattle.std.specs.Prelude.{◌≡◌, ◌<◌, true, false, Some, None};
ghost use Rattle.std.specs.Option.{option_copied};
ghost use Rattle.global_ids.specs.Keys.{key_of};
ghost use Rattle.entry_maps.specs.Entries.{newer_of};
ghost use Rattle.op_machine.specs.Outcomes.{tally_of};
ghost use Rattle.op_machine.specs.Standings.{seen_in};
ghost use Rattle.op_machine.specs.Telling.{is_answer, is_short, entry_shown, IsNobody, IsCounted, IsWith};

use document_ids::DocId;
use documents::SharedEntry;
use entry_maps::EntryMap;
use messages::Reply;
use node_sets::NodeSet;

/// What was told of the messages of one phase, the Reads or the Stores, as contracts see it.
#[derive(Drop)]
pub struct Tally {
    /// The nodes of which it was told what they answered, or that they didn't.
    pub told: NodeSet,
    /// Those that took the message.
    pub answered: NodeSet,
    /// Whether a node wanted memory.
    pub short: bool,
    /// The newest entry of the document that was shown.
    pub seen: Option<SharedEntry>,
}

/// The same but for the entries.
#[derive(Clone, Copy)]
pub struct Heard {
    pub told: NodeSet,
    pub answered: NodeSet,
    pub short: bool,
}

/// Whether a node took the message.
fn is_answer(reply: Option<&Reply>) -> bool
    ensures { result ≡ is_answer (option_copied reply.entry) }
{
    match reply {
        Some(Reply::Answer { .. }) => true,
        _ => false,
    }
}

/// Whether a node wanted memory.
fn is_short(reply: Option<&Reply>) -> bool
    ensures { result ≡ is_short (option_copied reply.entry) }
{
    match reply {
        Some(Reply::NoMemory) => true,
        _ => false,
    }
}

/// The set with a node more where it is to have it.
fn with(set: NodeSet, node: u8, test: bool) -> NodeSet
    requires { node < 32 }
    ensures { IsWith node test set result }
{
    if test { set.with(node) } else { set }
}

impl Heard {
    /// Nothing was told.
    pub fn none() -> Heard
        ensures { IsNobody (tally_of result None) }
    {
        Heard {
            told: NodeSet::none(),
            answered: NodeSet::none(),
            short: false,
        }
    }

    /// The same once a node's reply to the message is told, or that none came.
    pub fn with(self, node: u8, reply: Option<&Reply>) -> Heard
        requires { node < 32 }
        ensures { IsCounted node (option_copied reply.entry) (tally_of self None) (tally_of result None) }
    {
        Heard {
            told: self.told.with(node),
            answered: with(self.answered, node, is_answer(reply)),
            short: self.short || is_short(reply),
        }
    }
}

/// What was shown of a document, whose key is beside it.
pub fn seen<'a>(key: u64, id: &DocId, shown: Option<&'a EntryMap>) -> Option<&'a SharedEntry>
    requires { key ≡ key_of id.now }
    ensures { option_copied result ≡ seen_in id.now (option_copied shown.entry) }
{
    match shown {
        Some(entries) => entries.shared_at(key, id),
        None => None,
    }
}

/// Whether an entry is newer than another; of equal stamps the first one stays.
fn is_newer(there: Option<&SharedEntry>, other: Option<&SharedEntry>) -> bool
    ensures yes { result ≡ true → newer_of (option_copied there.entry) (option_copied other.entry)
        ≡ option_copied other.entry }
    ensures no { result ≡ false → newer_of (option_copied there.entry) (option_copied other.entry)
        ≡ option_copied there.entry }
{
    match (there, other) {
        (Some(there), Some(other)) => there.entry().stamp.is_before(other.entry().stamp),
        (None, Some(_)) => true,
        (Some(_), None) => false,
        (None, None) => false,
    }
}

/// Keeps what an answer shows where its entry of the document is newer than the one that was seen.
fn keep_newer(key: u64, id: &DocId, shown: &mut Option<EntryMap>, entries: EntryMap)
    requires { key ≡ key_of id.now }
    ensures { seen_in id.now shown.new ≡ newer_of (seen_in id.now shown.old) (seen_in id.now (Some entries)) }
{
    if is_newer(seen(key, id, shown.as_ref()), entries.shared_at(key, id)) {
        *shown = Some(entries);
    }
}

/// Takes what a node's reply shows of a document, whose key is beside it.
pub fn see(key: u64, id: &DocId, shown: &mut Option<EntryMap>, reply: Option<Reply>)
    requires { key ≡ key_of id.now }
    ensures { seen_in id.now shown.new ≡ newer_of (seen_in id.now shown.old) (entry_shown id.now reply) }
{
    match reply {
        Some(Reply::Answer { entries, .. }) => keep_newer(key, id, shown, entries),
        _ => {}
    }
}
