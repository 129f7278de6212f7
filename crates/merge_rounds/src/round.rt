ghost use Rattle.std.specs.Prelude.{◌≡◌, ◌==◌, ◌||◌, ◌&&◌, not, ℕ, ◌+◌, ◌<◌, Some, None, IsTrue, IsFalse, IfOk, OnOk, OnErr};
ghost use Rattle.std.specs.Option.{option_copied};
ghost use Rattle.std.specs.FinMap as fin;
ghost use Rattle.entry_maps.specs.Entries.{documents_of};
ghost use Rattle.node_sets.specs.Members.{has_node};
ghost use Rattle.messages.specs.Noting.{message_of};
ghost use Rattle.merge_rounds.specs.Rounds.{RoundState, new_round, IsNext, after_send, after_read, IsAfterApply, HaveAllShown, did_show, did_give, pieces_by};

use crate::order::next_of;
use crate::shown;
use bucket_ids::Bucket;
use entry_maps::EntryMap;
use messages::{Body, Message, NodePieces, Origin, Reply};
use node_sets::NodeSet;
use pieces::Piece;
use std::alloc::Global;
use std::marker::Model;
use value_lists::{NoMemory, TryCopy};

/// A round under way.
#[derive(Drop)]
pub struct Round {
    origin: Origin,
    row: Bucket,
    readers: NodeSet,
    receivers: NodeSet,
    reads: u8,
    applies: u8,
    awaited: Option<u8>,
    shown: Vec<NodePieces>,
    union: EntryMap,
    /// What the answer that was told last showed, until it is in the union.
    heard: Option<EntryMap>,
    holders: NodeSet,
}

impl Model for Round {
    ghost use Rattle.merge_rounds.specs.RoundCodes.{round_code};
    ghost use Rattle.std.specs.Prelude.{vec_len, vec_capacity};
    ghost use Rattle.merge_rounds.specs.Rounds.{RoundState, union_with, IsRound};

    ghost Value = { RoundState };

    ghost coded = { round_code };

    ghost view = { λ r. record {
      origin = r.origin;
      row = r.row;
      readers = r.readers;
      receivers = r.receivers;
      reads = r.reads;
      applies = r.applies;
      awaited = r.awaited;
      shown = r.shown.items;
      union = union_with r.union r.heard;
      holders = r.holders;
    } };

    ghost invariant = { λ r. IsRound r.awaited r.applies r.heard (vec_len r.shown) (vec_capacity r.shown) };
}

impl Round {
    /// A round that has sent nothing.
    pub fn new(
        alloc: Global,
        origin: Origin,
        row: Bucket,
        readers: NodeSet,
        receivers: NodeSet,
    ) -> Round
        ensures { result ≡ new_round origin row readers receivers }
    {
        Round {
            origin,
            row,
            readers,
            receivers,
            reads: 0,
            applies: 0,
            awaited: None,
            shown: Vec::new(alloc),
            union: EntryMap::new(alloc),
            heard: None,
            holders: NodeSet::of(0),
        }
    }

    /// The next message: a Read of the row to each reader in rising number, then, where all have answered,
    /// an Apply of the union to each receiver in rising number; `None` where nothing is left to send.
    /// The answer to the message before was told. Then the reply takes no memory.
    pub fn send(&mut self, alloc: Global) -> Result<Option<Message>, NoMemory>
        requires { self.old.awaited ≡ None }
        ensures message { IfOk result (λ sent. IsNext self.old sent) }
        ensures state { IfOk result (λ sent. self.new ≡ after_send self.old sent) }
        ensures err { OnErr result (self.new ≡ self.old) }
    {
        if let Some(node) = next_of(self.readers, self.reads) {
            return Ok(Some(self.read_of(node)?));
        }
        if !shown::have_all(self.readers, &self.shown) {
            return Ok(None);
        }
        match next_of(self.receivers, self.applies) {
            Some(node) => Ok(Some(self.apply_to(alloc, node)?)),
            None => Ok(None),
        }
    }

    /// The Read to a node. There is a place for what it shows then.
    fn read_of(&mut self, node: u8) -> Result<Message, NoMemory>
        requires told { self.old.awaited ≡ None }
        requires turn { self.old.reads < 32 }
        ensures message { IfOk result (λ sent.
            sent ≡ message_of self.old.origin node (Body.Read self.old.row None)) }
        ensures state { OnOk result
            (self.new ≡ record self.old { reads = self.old.reads + 1; awaited = Some node }) }
        ensures err { OnErr result (self.new ≡ self.old) }
    {
        shown::unite(&mut self.union, &mut self.heard)?;
        self.shown.reserve(1)?;
        self.reads += 1;
        self.awaited = Some(node);
        let body = Body::Read {
            bucket: self.row,
            only: None,
        };
        Ok(self.origin.message(node, body))
    }

    /// The Apply to a node.
    fn apply_to(&mut self, alloc: Global, node: u8) -> Result<Message, NoMemory>
        requires told { self.old.awaited ≡ None }
        requires turn { self.old.applies < 32 }
        ensures message { IfOk result (λ sent.
            sent ≡ message_of self.old.origin node (Body.Apply self.old.row self.old.union)) }
        ensures state { OnOk result
            (self.new ≡ record self.old { applies = self.old.applies + 1; awaited = Some node }) }
        ensures err { OnErr result (self.new ≡ self.old) }
    {
        shown::unite(&mut self.union, &mut self.heard)?;
        if self.receivers.len() > 1 {
            self.union.keep_stamps()?;
        }
        let body = Body::Apply {
            bucket: self.row,
            entries: self.union.copy(alloc)?,
        };
        self.applies += 1;
        self.awaited = Some(node);
        Ok(self.origin.message(node, body))
    }

    /// Takes the reply to the message that was sent last, or that none came; only `Answer` counts.
    pub fn take_reply(&mut self, node: u8, reply: Option<Reply>)
        requires asked { self.old.awaited ≡ Some node }
        requires node { node < 32 }
        ensures read { self.old.applies ≡ 0 → self.new ≡ after_read self.old node reply }
        ensures apply { 0 < self.old.applies → IsAfterApply self.old self.new node reply }
    {
        if self.applies > 0 {
            self.take_apply(node, shown::is_answer(reply.as_ref()));
            return;
        }
        self.heard = shown::take_reply(&mut self.shown, node, reply);
        self.awaited = None;
    }

    /// The same, of a reply that the caller keeps.
    pub fn answer(&mut self, alloc: Global, node: u8, reply: Option<&Reply>) -> Result<(), NoMemory>
        requires asked { self.old.awaited ≡ Some node }
        requires node { node < 32 }
        ensures read { self.old.applies ≡ 0
            → OnOk result (self.new ≡ after_read self.old node (option_copied reply.entry)) }
        ensures apply { 0 < self.old.applies
            → OnOk result (IsAfterApply self.old self.new node (option_copied reply.entry)) }
        ensures err { OnErr result (self.new ≡ self.old) }
    {
        let told = match reply {
            Some(reply) => Some(reply.copy(alloc)?),
            None => None,
        };
        self.take_reply(node, told);
        Ok(())
    }

    /// Takes whether a node answered the Apply.
    fn take_apply(&mut self, node: u8, answered: bool)
        requires { node < 32 }
        ensures holders { (n : ℕ)
            → has_node self.new.holders n ≡ (has_node self.old.holders n || (answered && n == node)) }
        ensures rest { self.new ≡ record self.old { awaited = None; holders = self.new.holders } }
    {
        self.holders = with_if(self.holders, node, answered);
        self.awaited = None;
    }

    /// The node whose answer is to be told before the next message, if one is.
    pub fn awaited(&self) -> Option<u8>
        ensures { result ≡ self.now.awaited }
    {
        self.awaited
    }

    /// Whether each reader has answered the Read.
    pub fn is_whole(&self) -> bool
        ensures yes { IsTrue result → HaveAllShown self.now.readers self.now.shown }
        ensures no { IsFalse result → HaveAllShown self.now.readers self.now.shown → ⊥ }
    {
        shown::have_all(self.readers, &self.shown)
    }

    /// How many documents the union of the answers so far has.
    pub fn documents(&mut self) -> Result<u64, NoMemory>
        ensures documents { IfOk result (λ documents. documents ≡ documents_of self.old.union) }
        ensures kept { self.new ≡ self.old }
    {
        shown::unite(&mut self.union, &mut self.heard)?;
        Ok(self.union.documents())
    }

    /// The same of its entries, removes among them.
    pub fn entries(&mut self) -> Result<u64, NoMemory>
        ensures entries { IfOk result (λ entries. entries ≡ fin.len self.old.union) }
        ensures kept { self.new ≡ self.old }
    {
        shown::unite(&mut self.union, &mut self.heard)?;
        Ok(self.union.entries())
    }

    /// What the answers to the Reads showed, in their order.
    pub fn shown(&self) -> &[NodePieces]
        ensures { result.now ≡ self.now.shown }
    {
        &self.shown
    }

    /// The row.
    pub fn row(&self) -> Bucket
        ensures { result ≡ self.now.row }
    {
        self.row
    }

    /// The receivers.
    pub fn receivers(&self) -> NodeSet
        ensures { result ≡ self.now.receivers }
    {
        self.receivers
    }

    /// Whether no Apply was sent yet.
    pub fn is_reading(&self) -> bool
        ensures { result ≡ (self.now.applies == 0) }
    {
        self.applies == 0
    }

    /// The receivers that answered the Apply.
    pub fn holders(&self) -> NodeSet
        ensures { result ≡ self.now.holders }
    {
        self.holders
    }

    /// The nodes whose answers to the Read showed an entry.
    pub fn givers(&self) -> NodeSet
        ensures { (node : ℕ) → node < 32 → has_node result node ≡ did_give node self.now.shown }
    {
        shown::givers(&self.shown)
    }

    /// The readers that haven't answered the Read.
    pub fn silent(&self) -> NodeSet
        ensures { (node : ℕ) → has_node result node
            ≡ (has_node self.now.readers node && not (did_show node self.now.shown)) }
    {
        shown::silent(self.readers, &self.shown)
    }

    /// The pieces that a node's answer showed; none where it didn't answer.
    pub fn pieces_of(&self, node: u8) -> &[Piece]
        ensures { result.now ≡ pieces_by node self.now.shown }
    {
        shown::pieces_by(node, &self.shown)
    }
}

/// A set, with a node too where a test holds.
fn with_if(set: NodeSet, node: u8, test: bool) -> NodeSet
    requires { node < 32 }
    ensures { (n : ℕ) → has_node result n ≡ (has_node set n || (test && n == node)) }
{
    if test { set.with(node) } else { set }
}
