ghost use Rattle.std.specs.Prelude.{◌≡◌, ◌<◌, ◌≤◌, ◌-◌, ◌^◌, None, Some, IfSome, IfOk, OnOk, OnErr};
ghost use Rattle.std.specs.Option.{option_copied};
ghost use Rattle.std.specs.FinMap as fin;
ghost use Rattle.global_ids.specs.Keys as keys;
ghost use Rattle.messages.specs.Noting.{noted_reply};
ghost use Rattle.messages.specs.declared.body.Body.TheVariants as body;
ghost use Rattle.pieces.specs.Told.{IsAnsweredAs};
ghost use Rattle.replica_store.specs.Replicas.{LieIn, IsReplica};
ghost use Rattle.node_model.specs.Nodes.{new_node, adopt, stored, after_body};
ghost use Rattle.service_layer.specs.Placing.{ArePlaced};
ghost use Rattle.node_model.specs.Takes.{Takes, Treats, IsInside, IsKeyOf, HasRoom, told};
ghost use Rattle.service_layer.specs.Steps.{Shows};
ghost use Rattle.node_model.specs.Telling.{kept_of, deed_replied, changes_taken};
ghost use Rattle.service_layer.specs.Steps.{after_first, adoption_of};
ghost use Rattle.view_changes.specs.Deeds.{Stores, Unites, Activates, is_seen, changes_of as changes_told};
ghost use Rattle.entry_maps.specs.Entries.{is_newer, in_bucket};

use crate::changes::LaterChanges;
use crate::node_store::NodeStore;
use crate::replies::{Taken, done, newer, only_entry, shown, telling};
use bucket_ids::Bucket;
use document_ids::DocId;
use documents::{Entry, SharedEntry};
use entry_maps::EntryMap;
use global_ids::key_of;
use messages::{Body, Message, Reply};
use node_rows::SharedSchema;
use pieces::{Piece, PieceList, StoreFault};
use std::alloc::Global;
use std::marker::Model;
use sub_databases::SubDatabases;
use value_lists::{NoMemory, TryCopy, copy_all};
use view_changes::LaneChange;
use view_changes::fresh::entries_in_order;
use view_changes::regions::{have_key, with_region};

/// The key of a document's id, which may be known.
fn key_or(known: Option<u64>, id: &DocId) -> u64
    requires { IfSome known (λ k. k ≡ keys.key_of id.now) }
    ensures value { result ≡ keys.key_of id.now }
    ensures small { result < 2 ^ 58 }
{
    match known {
        Some(key) => key,
        None => key_of(id),
    }
}

/// What a node has in one lane.
#[derive(Drop)]
pub struct NodePart {
    version: u32,
    store: NodeStore,
    regions: Vec<Bucket>,
    alloc: Global,
}

impl Model for NodePart {
    ghost use Rattle.node_model.specs.Nodes.{Node, node_code};

    ghost Value = { Node };

    ghost coded = { node_code };

    ghost view = { λ n.
        record { version = n.version; entries = n.store.entries; pieces = n.store.pieces; regions = n.regions.items; serial = n.store.serial } };
}

impl NodePart {
    /// A node that took no message, with documents of the types of a schema that is shared.
    pub fn new(alloc: Global, schema: &SharedSchema) -> Result<NodePart, NoMemory>
        ensures { IfOk result (λ node. node ≡ new_node) }
    {
        Ok(NodePart {
            version: 0,
            store: NodeStore::new(alloc, schema)?,
            regions: Vec::new(alloc),
            alloc,
        })
    }

    /// The greatest version of a message, 0 before the first.
    pub fn version(&self) -> u32
        ensures { result ≡ self.now.version }
    {
        self.version
    }

    /// The entry of a document.
    pub fn entry(&self, id: &DocId) -> Option<&Entry>
        ensures { option_copied result ≡ fin.get self.now.entries id.now }
    {
        self.store.newest().get(id)
    }

    /// How many entries there are, removes among them.
    pub fn entries(&self) -> u64
        ensures { result ≡ fin.len self.now.entries }
    {
        self.store.newest().entries()
    }

    /// The entries in a bucket, shared.
    pub fn entries_in(&self, bucket: Bucket) -> Result<EntryMap, NoMemory>
        ensures { IfOk result (λ part. part ≡ fin.retain_keys self.now.entries (in_bucket bucket)) }
    {
        self.store.newest().within(bucket)
    }

    /// The three parts of its documents: they hold the node's entries, and a document is ready exactly where its piece is.
    pub fn parts(&self) -> &SubDatabases
        ensures { ArePlaced self.now.entries self.now.pieces result.now }
    {
        self.store.parts()
    }

    /// The pieces, in the order of their runs.
    pub fn pieces(&self) -> &[Piece]
        ensures pieces { result.now ≡ self.now.pieces }
        ensures valid { IsReplica (stored self.now) }
    {
        self.store.pieces()
    }

    /// The active regions.
    pub fn regions(&self) -> &[Bucket]
        ensures { result.now ≡ self.now.regions }
    {
        &self.regions
    }

    /// The last serial that was drawn, 0 before the first.
    pub fn last_serial(&self) -> u64
        ensures { result ≡ self.now.serial }
    {
        self.store.last_serial()
    }

    /// Takes a message, and replies. After the reply NoMemory the message's version is the node's, and
    /// nothing else has changed. The changes are made before the node changes anything, and of a greater
    /// version there is an Adopt with each reply; their entries are shared with the node.
    pub fn take(&mut self, message: &Message) -> Taken
        requires inside { IsInside message.now.body }
        requires room { HasRoom message.now.body self.old.serial }
        ensures takes { Takes self.old message.now self.new result.reply }
        ensures noted { result.noted ≡ noted_reply result.reply }
        ensures changes { result.changes ≡ changes_taken self.old message.now result.reply }
    {
        self.take_at(None, message)
    }

    /// The same, where the key of the document that the message names may be known, so that nothing is
    /// digested.
    pub fn take_at(&mut self, key: Option<u64>, message: &Message) -> Taken
        requires key { IfSome key (IsKeyOf message.now.body) }
        requires inside { IsInside message.now.body }
        requires room { HasRoom message.now.body self.old.serial }
        ensures takes { Takes self.old message.now self.new result.reply }
        ensures noted { result.noted ≡ noted_reply result.reply }
        ensures changes { result.changes ≡ changes_taken self.old message.now result.reply }
    {
        if message.version < self.version {
            return newer(self.alloc, self.version);
        }
        let first = self.adopt(message.receiver, message.version);
        self.treat(message.receiver, first, key, &message.body)
    }

    /// Makes a version that is not smaller its own; as the node of a number it tells that, if it is greater.
    fn adopt(&mut self, node: u8, version: u32) -> Option<LaneChange>
        requires { self.old.version ≤ version }
        ensures adopted { self.new ≡ adopt version self.old }
        ensures serial { self.new.serial ≡ self.old.serial }
        ensures told { result ≡ adoption_of node version self.old }
    {
        if self.version < version {
            self.version = version;
            self.regions.clear();
            return Some(LaneChange::Adopt { node, version });
        }
        None
    }

    /// Treats a body that is not too old, as the node of a number; what it tells comes behind a first change.
    fn treat(&mut self, node: u8, first: Option<LaneChange>, key: Option<u64>, body: &Body) -> Taken
        requires key { IfSome key (IsKeyOf body.now) }
        requires inside { IsInside body.now }
        requires room { HasRoom body.now self.old.serial }
        ensures treats { Treats self.old body.now self.new result.reply }
        ensures noted { result.noted ≡ noted_reply result.reply }
        ensures changes { result.changes
            ≡ after_first first (changes_told node (kept_of self.old) (deed_replied body.now result.reply)) }
    {
        match body {
            Body::Ask => shown(self.alloc, first, self.ask()),
            Body::Read { bucket, only } => match only {
                Some(id) => shown(self.alloc, first, self.read_one(key, *bucket, id)),
                None => shown(self.alloc, first, self.read(*bucket)),
            },
            Body::Store { entry } => telling(self.alloc, first, self.store(node, key, entry)),
            Body::Apply { bucket, entries } => telling(
                self.alloc,
                first,
                self.apply(node, *bucket, entries),
            ),
            Body::Delete { bucket, serial } => done(
                self.alloc,
                first,
                self.delete(*bucket, *serial),
            ),
            Body::Split { bucket } => done(self.alloc, first, self.split(*bucket)),
            Body::Join { bucket } => done(self.alloc, first, self.join(*bucket)),
            Body::Ready { bucket } => done(self.alloc, first, self.ready(*bucket)),
            Body::Activate { bucket } => telling(self.alloc, first, self.activate(node, *bucket)),
        }
    }

    /// All pieces.
    fn ask(&self) -> Result<Reply, StoreFault>
        ensures { Shows self.now body.Ask result }
    {
        let Ok(pieces) = copy_all(self.alloc, self.store.pieces()) else {
            return Err(StoreFault::NoMemory);
        };
        Ok(Reply::Answer {
            pieces: PieceList::of(pieces),
            entries: EntryMap::new(self.alloc),
        })
    }

    /// The pieces that meet a bucket, and the entries in it.
    fn read(&self, bucket: Bucket) -> Result<Reply, StoreFault>
        ensures { Shows self.now (body.Read bucket None) result }
    {
        let Ok(held) = self.store.read(bucket) else {
            return Err(StoreFault::NoMemory);
        };
        Ok(Reply::Answer {
            pieces: held.pieces,
            entries: held.entries,
        })
    }

    /// The entry of a document.
    fn read_one(&self, key: Option<u64>, bucket: Bucket, id: &DocId) -> Result<Reply, StoreFault>
        requires { IfSome key (λ k. k ≡ keys.key_of id.now) }
        ensures { Shows self.now (body.Read bucket (Some id.now)) result }
    {
        let key = key_or(key, id);
        if !self.store.holds(key) {
            return Err(StoreFault::NoBucket);
        }
        let entry = self.store.entry_at(key, id);
        let Ok(entries) = only_entry(self.alloc, entry) else {
            return Err(StoreFault::NoMemory);
        };
        Ok(Reply::Answer {
            pieces: PieceList::of(Vec::new(self.alloc)),
            entries,
        })
    }

    /// Whether an entry is newer than what is there.
    fn is_newer(&self, key: u64, entry: &SharedEntry) -> bool
        requires { key ≡ keys.key_of entry.now.id }
        ensures { result ≡ is_newer entry.now (fin.get self.now.entries entry.now.id) }
    {
        match self.store.entry_at(key, &entry.entry().id) {
            Some(there) => there.entry().stamp.is_before(entry.entry().stamp),
            None => true,
        }
    }

    /// Whether an entry is to be told: it lies in a region, and is newer than what is there.
    fn sees(&self, key: u64, entry: &SharedEntry) -> bool
        requires key { key ≡ keys.key_of entry.now.id }
        requires small { key < 2 ^ 58 }
        ensures { result ≡ is_seen (kept_of self.now) entry.now }
    {
        have_key(&self.regions, key) && self.is_newer(key, entry)
    }

    /// The same, where the key isn't at hand.
    fn sees_entry(&self, entry: &SharedEntry) -> bool
        ensures { result ≡ is_seen (kept_of self.now) entry.now }
    {
        self.sees(key_of(&entry.entry().id), entry)
    }

    /// What an entry tells that comes to the node of a number.
    fn take_of(&self, node: u8, key: u64, entry: &SharedEntry) -> Result<LaterChanges, NoMemory>
        requires key { key ≡ keys.key_of entry.now.id }
        requires small { key < 2 ^ 58 }
        ensures { IfOk result (λ list. list ≡ changes_told node (kept_of self.now) (Stores entry.now)) }
    {
        if !self.sees(key, entry) {
            return Ok(LaterChanges::none(self.alloc));
        }
        let entry = entry.copy(self.alloc)?;
        LaterChanges::one(self.alloc, LaneChange::Take { node, entry })
    }

    /// What entries tell that come to the node of a number, by their ids. Where there is a region and one of them is newer
    /// than what is there, each costs a digest.
    fn takes_of(&self, node: u8, entries: &EntryMap) -> Result<LaterChanges, NoMemory>
        ensures { IfOk result (λ list. list ≡ changes_told node (kept_of self.now) (Unites entries.now)) }
    {
        if self.regions.is_empty() {
            return Ok(LaterChanges::none(self.alloc));
        }
        if !entries.has_newer(self.store.newest()) {
            return Ok(LaterChanges::none(self.alloc));
        }
        let mut list = entries_in_order(entries)?;
        list.retain(|entry| self.sees_entry(entry));
        LaterChanges::takes(self.alloc, node, list)
    }

    /// What a new region of the node of a number tells: the bucket with its entries.
    fn region_of(&self, node: u8, bucket: Bucket) -> Result<LaterChanges, NoMemory>
        ensures { IfOk result (λ list. list ≡ changes_told node (kept_of self.now) (Activates bucket)) }
    {
        let Ok(held) = self.store.read(bucket) else {
            return Err(NoMemory);
        };
        let entries = held.entries;
        LaterChanges::one(
            self.alloc,
            LaneChange::Activate {
                node,
                bucket,
                entries,
            },
        )
    }

    /// Takes an entry; the newest of its document stays.
    fn store(
        &mut self,
        node: u8,
        key: Option<u64>,
        entry: &SharedEntry,
    ) -> Result<LaterChanges, StoreFault>
        requires key { IfSome key (λ k. k ≡ keys.key_of entry.now.id) }
        requires room { self.old.serial < 2 ^ 64 - 1 }
        ensures ok { OnOk result (self.new ≡ after_body (body.Store entry.now) self.old) }
        ensures err { OnErr result (self.new ≡ self.old) }
        ensures told { IsAnsweredAs (told (body.Store entry.now) self.old.pieces) result }
        ensures changes { IfOk result (λ list. list ≡ changes_told node (kept_of self.old) (Stores entry.now)) }
    {
        let key = key_or(key, &entry.entry().id);
        if !self.store.holds(key) {
            return Err(StoreFault::NoBucket);
        }
        let Ok(changes) = self.take_of(node, key, entry) else {
            return Err(StoreFault::NoMemory);
        };
        match self.store.store(key, entry) {
            Ok(()) => Ok(changes),
            Err(fault) => Err(fault),
        }
    }

    /// Makes a bucket a piece, and merges entries in.
    fn apply(
        &mut self,
        node: u8,
        bucket: Bucket,
        entries: &EntryMap,
    ) -> Result<LaterChanges, StoreFault>
        requires inside { LieIn bucket entries.now }
        requires room { self.old.serial < 2 ^ 64 - 1 }
        ensures ok { OnOk result (self.new ≡ after_body (body.Apply bucket entries.now) self.old) }
        ensures err { OnErr result (self.new ≡ self.old) }
        ensures told { IsAnsweredAs (told (body.Apply bucket entries.now) self.old.pieces) result }
        ensures changes { IfOk result (λ list. list ≡ changes_told node (kept_of self.old) (Unites entries.now)) }
    {
        let Ok(changes) = self.takes_of(node, entries) else {
            return Err(StoreFault::NoMemory);
        };
        match self.store.apply(bucket, entries) {
            Ok(()) => Ok(changes),
            Err(fault) => Err(fault),
        }
    }

    /// Takes out the piece that is a bucket with this serial, and its entries.
    fn delete(&mut self, bucket: Bucket, serial: u64) -> Result<(), StoreFault>
        ensures ok { OnOk result (self.new ≡ after_body (body.Delete bucket serial) self.old) }
        ensures err { OnErr result (self.new ≡ self.old) }
        ensures told { IsAnsweredAs (told (body.Delete bucket serial) self.old.pieces) result }
    {
        self.store.delete(bucket, serial)
    }

    /// Splits the piece that covers a bucket until the bucket is a piece.
    fn split(&mut self, bucket: Bucket) -> Result<(), StoreFault>
        requires { self.old.serial < 2 ^ 64 - 1 }
        ensures ok { OnOk result (self.new ≡ after_body (body.Split bucket) self.old) }
        ensures err { OnErr result (self.new ≡ self.old) }
        ensures told { IsAnsweredAs (told (body.Split bucket) self.old.pieces) result }
    {
        self.store.split(bucket)
    }

    /// Makes the pieces inside a bucket one.
    fn join(&mut self, bucket: Bucket) -> Result<(), StoreFault>
        requires { self.old.serial < 2 ^ 64 - 1 }
        ensures ok { OnOk result (self.new ≡ after_body (body.Join bucket) self.old) }
        ensures err { OnErr result (self.new ≡ self.old) }
        ensures told { IsAnsweredAs (told (body.Join bucket) self.old.pieces) result }
    {
        self.store.join(bucket)
    }

    /// Makes the piece that is a bucket ready.
    fn ready(&mut self, bucket: Bucket) -> Result<(), StoreFault>
        requires { self.old.serial < 2 ^ 64 - 1 }
        ensures ok { OnOk result (self.new ≡ after_body (body.Ready bucket) self.old) }
        ensures err { OnErr result (self.new ≡ self.old) }
        ensures told { IsAnsweredAs (told (body.Ready bucket) self.old.pieces) result }
    {
        self.store.ready(bucket)
    }

    /// Makes a bucket that a ready piece covers an active region.
    fn activate(&mut self, node: u8, bucket: Bucket) -> Result<LaterChanges, StoreFault>
        requires { self.old.serial < 2 ^ 64 - 1 }
        ensures ok { OnOk result (self.new ≡ after_body (body.Activate bucket) self.old) }
        ensures err { OnErr result (self.new ≡ self.old) }
        ensures told { IsAnsweredAs (told (body.Activate bucket) self.old.pieces) result }
        ensures changes { IfOk result (λ list. list ≡ changes_told node (kept_of self.old) (Activates bucket)) }
    {
        if let Err(fault) = self.store.may_activate(bucket) {
            return Err(fault);
        }
        let Ok(changes) = self.region_of(node, bucket) else {
            return Err(StoreFault::NoMemory);
        };
        let Ok(regions) = with_region(self.alloc, &self.regions, bucket) else {
            return Err(StoreFault::NoMemory);
        };
        if let Err(fault) = self.store.activate(bucket) {
            return Err(fault);
        }
        self.regions = regions;
        Ok(changes)
    }
}
