ghost use Rattle.std.specs.Prelude.{◌≡◌, [], IfOk};
ghost use Rattle.std.specs.Option.{option_copied};
ghost use Rattle.std.specs.FinMap as fin;
ghost use Rattle.messages.specs.Noting.{noted_reply};
ghost use Rattle.messages.specs.declared.reply.Reply.TheVariants as reply;
ghost use Rattle.node_model.specs.Nodes.{only_entry};
ghost use Rattle.service_layer.specs.Steps.{refusal, done_reply, IsReplyTo, after_first, told_in};

use crate::changes::{ChangeList, LaterChanges};
use documents::SharedEntry;
use entry_maps::EntryMap;
use messages::{NotedReply, Reply, StampList};
use pieces::PieceList;
use replica_store::StoreFault;
use std::alloc::Global;
use value_lists::{NoMemory, TryCopy};
use view_changes::LaneChange;

/// What a message that reached a node gives.
#[derive(Drop)]
pub struct Taken {
    /// For the sender.
    pub reply: Reply,
    /// For the journal: the reply with each entry named by its stamp.
    pub noted: NotedReply,
    /// For the lane's view: an Adopt where the version rose, and then what was accepted, in order.
    pub changes: ChangeList,
}

/// A message of a smaller version was taken.
pub fn newer(alloc: Global, version: u32) -> Taken
    ensures reply { result.reply ≡ reply.Newer version }
    ensures noted { result.noted ≡ noted_reply result.reply }
    ensures changes { result.changes ≡ [] }
{
    Taken {
        reply: Reply::Newer { version },
        noted: NotedReply::Newer { version },
        changes: LaterChanges::none(alloc).all(),
    }
}

/// A reply that refuses, and what of it the journal has.
fn refusal(fault: StoreFault) -> (Reply, NotedReply)
    ensures reply { result.0 ≡ refusal fault }
    ensures noted { result.1 ≡ noted_reply result.0 }
{
    match fault {
        StoreFault::NoBucket => (Reply::NoBucket, NotedReply::NoBucket),
        StoreFault::Differs => (Reply::Differs, NotedReply::Differs),
        StoreFault::NoMemory => (Reply::NoMemory, NotedReply::NoMemory),
    }
}

/// A message was refused, which tells no more than what comes first.
fn refused(alloc: Global, first: Option<LaneChange>, fault: StoreFault) -> Taken
    ensures reply { result.reply ≡ refusal fault }
    ensures noted { result.noted ≡ noted_reply result.reply }
    ensures changes { result.changes ≡ after_first first [] }
{
    let (reply, noted) = refusal(fault);
    Taken {
        reply,
        noted,
        changes: ChangeList::of(first, LaterChanges::none(alloc)),
    }
}

/// A message was accepted, and asked to see nothing.
fn accepted(alloc: Global, changes: ChangeList) -> Taken
    ensures reply { result.reply ≡ reply.Answer [] fin.empty }
    ensures noted { result.noted ≡ noted_reply result.reply }
    ensures changes { result.changes ≡ changes }
{
    Taken {
        reply: Reply::Answer {
            pieces: PieceList::of(Vec::new(alloc)),
            entries: EntryMap::new(alloc),
        },
        noted: NotedReply::Answer {
            pieces: PieceList::of(Vec::new(alloc)),
            entries: StampList::of(Vec::new(alloc)),
        },
        changes,
    }
}

/// A message changed what a node has, or was refused. It tells nothing behind what comes first.
pub fn done(alloc: Global, first: Option<LaneChange>, change: Result<(), StoreFault>) -> Taken
    ensures reply { result.reply ≡ done_reply change }
    ensures noted { result.noted ≡ noted_reply result.reply }
    ensures changes { result.changes ≡ after_first first [] }
{
    match change {
        Ok(()) => accepted(alloc, ChangeList::of(first, LaterChanges::none(alloc))),
        Err(fault) => refused(alloc, first, fault),
    }
}

/// The same, where it may tell something behind what comes first.
pub fn telling(
    alloc: Global,
    first: Option<LaneChange>,
    change: Result<LaterChanges, StoreFault>,
) -> Taken
    ensures reply { result.reply ≡ done_reply change }
    ensures noted { result.noted ≡ noted_reply result.reply }
    ensures changes { result.changes ≡ after_first first (told_in change) }
{
    match change {
        Ok(later) => accepted(alloc, ChangeList::of(first, later)),
        Err(fault) => refused(alloc, first, fault),
    }
}

/// A message asked to see something, which tells nothing behind what comes first.
pub fn shown(alloc: Global, first: Option<LaneChange>, shown: Result<Reply, StoreFault>) -> Taken
    ensures reply { IsReplyTo shown result.reply }
    ensures noted { result.noted ≡ noted_reply result.reply }
    ensures changes { result.changes ≡ after_first first [] }
{
    match shown {
        Ok(reply) => match reply.noted(alloc) {
            Ok(noted) => Taken {
                reply,
                noted,
                changes: ChangeList::of(first, LaterChanges::none(alloc)),
            },
            Err(_) => refused(alloc, first, StoreFault::NoMemory),
        },
        Err(fault) => refused(alloc, first, fault),
    }
}

/// A map of one entry, or of none.
pub fn only_entry(alloc: Global, entry: Option<&SharedEntry>) -> Result<EntryMap, NoMemory>
    ensures { IfOk result (λ m. m ≡ only_entry (option_copied entry.entry)) }
{
    match entry {
        Some(entry) => Ok(EntryMap::of_one(alloc, entry.copy(alloc)?)),
        None => Ok(EntryMap::new(alloc)),
    }
}
