ghost use Rattle.std.specs.Prelude.{◌≡◌, ◌^◌, ◌<◌, ◌-◌, true, filter, IfOk, IfErr, OnOk, OnErr};
ghost use Rattle.std.specs.List.{list_any};
ghost use Rattle.std.specs.Option.{option_copied};
ghost use Rattle.std.specs.FinMap as fin;
ghost use Rattle.global_ids.specs.Keys.{key_of};
ghost use Rattle.entry_maps.specs.Entries.{in_bucket};
ghost use Rattle.pieces.specs.Pieces.{holds, does_meet, is_exactly, is_over};
ghost use Rattle.pieces.specs.Told.{IsAnsweredAs, IsSurelyTold, Accepted, key_told, split_told, join_told, ready_told, activate_told, delete_told};
ghost use Rattle.pieces.specs.declared.fault.StoreFault.TheVariants as fault;
ghost use Rattle.replica_store.specs.Replicas.{IsReplica, LieIn, no_replica, after_store, after_apply, after_split, after_join, after_ready, after_activate, after_delete};
ghost use Rattle.sub_databases.specs.Changes.{MakesReady};
ghost use Rattle.service_layer.specs.Placing.{ArePlaced, IsApplied, AppliesAs, is_ready_over, is_ready_inside};

use bucket_ids::Bucket;
use document_ids::DocId;
use documents::SharedEntry;
use entry_maps::{EntryMap, joins_are_by_document};
use global_ids::laws::keys_locate;
use node_rows::SharedSchema;
use pieces::laws::runs_are_known;
use pieces::{LaidPieces, Piece, PieceList, StoreFault};
use replica_store::Held;
use std::alloc::Global;
use std::marker::Model;
use sub_databases::SubDatabases;
use value_lists::{NoMemory, TryCopy};

/// Whether the piece that covers a bucket is ready.
fn is_ready_over(pieces: &LaidPieces, bucket: Bucket) -> bool
    ensures { result ≡ is_ready_over bucket pieces.now.pieces }
{
    pieces.may_activate(bucket).is_ok()
}

/// Whether a ready piece lies inside a bucket.
fn is_ready_inside(pieces: &[Piece], bucket: Bucket) -> bool
    ensures { result ≡ is_ready_inside bucket pieces.now }
{
    pieces
        .iter()
        .any(|piece| bucket.covers(piece.bucket) && piece.ready)
}

/// Whether a piece covers a bucket.
fn is_covered(pieces: &LaidPieces, bucket: Bucket) -> bool
    ensures { result ≡ list_any (is_over bucket) pieces.now.pieces }
{
    match pieces.may_activate(bucket) {
        Ok(()) => true,
        Err(StoreFault::Differs) => true,
        Err(StoreFault::NoBucket) => false,
        Err(StoreFault::NoMemory) => false,
    }
}

/// The parts once all documents of a bucket are ready.
fn readied(parts: &SubDatabases, alloc: Global, bucket: Bucket) -> Result<SubDatabases, NoMemory>
    ensures { IfOk result (λ made. MakesReady bucket parts.now made) }
{
    let mut made = parts.copy(alloc)?;
    made.make_ready(alloc, bucket)?;
    Ok(made)
}

/// Takes entries into the parts once all documents of a bucket are ready, by a copy of the parts.
fn unite_readied(
    parts: &mut SubDatabases,
    alloc: Global,
    bucket: Bucket,
    entries: &EntryMap,
) -> Result<(), NoMemory>
    ensures ok { OnOk result (IsApplied bucket entries.now true true parts.old parts.new) }
    ensures err { OnErr result (parts.new ≡ parts.old) }
{
    let mut made = readied(parts, alloc, bucket)?;
    made.unite(alloc, entries, true)?;
    *parts = made;
    Ok(())
}

/// Takes entries into the parts, as their bucket is made a piece: ready where a ready piece covers it, or lies inside; then
/// the bucket's other documents become ready too.
fn apply_parts(
    parts: &mut SubDatabases,
    pieces: &LaidPieces,
    alloc: Global,
    bucket: Bucket,
    entries: &EntryMap,
) -> Result<(), NoMemory>
    ensures ok { OnOk result (AppliesAs bucket entries.now pieces.now.pieces parts.old parts.new) }
    ensures err { OnErr result (parts.new ≡ parts.old) }
{
    if is_covered(pieces, bucket) {
        return parts.unite(alloc, entries, is_ready_over(pieces, bucket));
    }
    if is_ready_inside(pieces.items(), bucket) {
        return unite_readied(parts, alloc, bucket, entries);
    }
    parts.unite(alloc, entries, false)
}

/// What a node stores in one lane: the three parts of its documents, and its pieces. A contract sees it as what a
/// `ReplicaStore` stores.
#[derive(Drop)]
pub struct NodeStore {
    parts: SubDatabases,
    pieces: LaidPieces,
    alloc: Global,
}

impl Model for NodeStore {
    ghost use Rattle.replica_store.specs.Replicas.{Replica, replica_code};
    ghost use Rattle.service_layer.specs.Placing.{IsStore};

    ghost Value = { Replica };

    ghost coded = { replica_code };

    ghost view = { λ s. record { entries = s.parts.entries; pieces = s.pieces.pieces; serial = s.pieces.serial } };

    ghost invariant = { λ s. IsStore s.parts s.pieces.pieces };
}

impl NodeStore {
    /// No bucket and no entry, of a schema that is shared.
    pub fn new(alloc: Global, schema: &SharedSchema) -> Result<NodeStore, NoMemory>
        ensures { IfOk result (λ s. s ≡ no_replica) }
    {
        Ok(NodeStore {
            parts: SubDatabases::new(alloc, schema)?,
            pieces: LaidPieces::new(alloc),
            alloc,
        })
    }

    /// The three parts.
    pub fn parts(&self) -> &SubDatabases
        ensures { ArePlaced self.now.entries self.now.pieces result.now }
    {
        &self.parts
    }

    /// The newest entries.
    pub fn newest(&self) -> &EntryMap
        ensures { result.now ≡ self.now.entries }
    {
        self.parts.newest()
    }

    /// The entry of a document, with the key of its id beside it.
    pub fn entry_at(&self, key: u64, id: &DocId) -> Option<&SharedEntry>
        requires { key ≡ key_of id.now }
        ensures { option_copied result ≡ fin.get self.now.entries id.now }
    {
        self.parts.newest().shared_at(key, id)
    }

    /// The pieces, in the order of their runs.
    pub fn pieces(&self) -> &[Piece]
        ensures pieces { result.now ≡ self.now.pieces }
        ensures valid { IsReplica self.now }
    {
        self.pieces.items()
    }

    /// The last serial that was drawn, 0 before the first.
    pub fn last_serial(&self) -> u64
        ensures { result ≡ self.now.serial }
    {
        self.pieces.last_serial()
    }

    /// Whether a bucket has a key.
    pub fn holds(&self, key: u64) -> bool
        requires { key < 2 ^ 58 }
        ensures { result ≡ holds key self.now.pieces }
    {
        self.pieces.has_key(key)
    }

    /// All entries in a bucket, and the pieces that meet it.
    pub fn read(&self, bucket: Bucket) -> Result<Held, StoreFault>
        ensures entries { IfOk result (λ held. held.entries
            ≡ fin.retain_keys self.now.entries (in_bucket bucket)) }
        ensures pieces { IfOk result (λ held. held.pieces ≡ filter (does_meet bucket) self.now.pieces) }
        ensures fault { IfErr result (λ e. e ≡ fault.NoMemory) }
    {
        let Ok(pieces) = self.pieces.meeting(self.alloc, bucket) else {
            return Err(StoreFault::NoMemory);
        };
        let Ok(entries) = self.newest().within(bucket) else {
            return Err(StoreFault::NoMemory);
        };
        Ok(Held {
            entries,
            pieces: PieceList::of(pieces),
        })
    }

    /// Takes an entry, whose document's key is beside it; the newest of its document stays, and is ready where its piece is.
    pub fn store(&mut self, key: u64, entry: &SharedEntry) -> Result<(), StoreFault>
        requires key { key ≡ key_of entry.now.id }
        requires room { self.old.serial < 2 ^ 64 - 1 }
        ensures ok { OnOk result (self.new ≡ after_store entry.now self.old) }
        ensures err { OnErr result (self.new ≡ self.old) }
        ensures told { IsAnsweredAs (key_told key self.old.pieces) result }
    {
        keys_locate();
        runs_are_known();
        let _ = self.pieces.items();
        if !self.pieces.has_key(key) {
            return Err(StoreFault::NoBucket);
        }
        let ready = is_ready_over(&self.pieces, Bucket::new(58, key));
        let Ok(()) = self.parts.take(self.alloc, key, entry, ready) else {
            return Err(StoreFault::NoMemory);
        };
        self.pieces.renew(key);
        Ok(())
    }

    /// Makes a bucket a piece, and takes entries of documents whose keys lie in it.
    pub fn apply(&mut self, bucket: Bucket, entries: &EntryMap) -> Result<(), StoreFault>
        requires inside { LieIn bucket entries.now }
        requires room { self.old.serial < 2 ^ 64 - 1 }
        ensures ok { OnOk result (self.new ≡ after_apply bucket entries.now self.old) }
        ensures err { OnErr result (self.new ≡ self.old) }
        ensures told { IsAnsweredAs Accepted result }
    {
        keys_locate();
        runs_are_known();
        joins_are_by_document();
        let _ = self.pieces.items();
        let _ = bucket.bits();
        if self.pieces.has_piece(bucket) {
            return self.apply_to_piece(bucket, entries);
        }
        let Ok(pieces) = self.pieces.made(self.alloc, bucket) else {
            return Err(StoreFault::NoMemory);
        };
        let Ok(()) = apply_parts(&mut self.parts, &self.pieces, self.alloc, bucket, entries) else {
            return Err(StoreFault::NoMemory);
        };
        self.pieces = pieces;
        Ok(())
    }

    /// The same, where the bucket is a piece already.
    fn apply_to_piece(&mut self, bucket: Bucket, entries: &EntryMap) -> Result<(), StoreFault>
        requires inside { LieIn bucket entries.now }
        requires piece { list_any (is_exactly bucket) self.old.pieces ≡ true }
        requires room { self.old.serial < 2 ^ 64 - 1 }
        ensures ok { OnOk result (self.new ≡ after_apply bucket entries.now self.old) }
        ensures err { OnErr result (self.new ≡ self.old) }
        ensures told { IsAnsweredAs Accepted result }
    {
        keys_locate();
        runs_are_known();
        joins_are_by_document();
        let _ = self.pieces.items();
        let _ = bucket.bits();
        let Ok(()) = apply_parts(&mut self.parts, &self.pieces, self.alloc, bucket, entries) else {
            return Err(StoreFault::NoMemory);
        };
        self.pieces.renew_piece(bucket);
        Ok(())
    }

    /// Splits the piece that covers a bucket until the bucket is a piece.
    pub fn split(&mut self, bucket: Bucket) -> Result<(), StoreFault>
        requires { self.old.serial < 2 ^ 64 - 1 }
        ensures ok { OnOk result (self.new ≡ after_split bucket self.old) }
        ensures err { OnErr result (self.new ≡ self.old) }
        ensures told { IsAnsweredAs (split_told bucket self.old.pieces) result }
    {
        keys_locate();
        runs_are_known();
        let _ = self.pieces.items();
        let _ = bucket.bits();
        self.pieces.split(self.alloc, bucket)
    }

    /// Makes the pieces inside a bucket one.
    pub fn join(&mut self, bucket: Bucket) -> Result<(), StoreFault>
        requires { self.old.serial < 2 ^ 64 - 1 }
        ensures ok { OnOk result (self.new ≡ after_join bucket self.old) }
        ensures err { OnErr result (self.new ≡ self.old) }
        ensures told { IsAnsweredAs (join_told bucket self.old.pieces) result }
    {
        keys_locate();
        if is_ready_inside(self.pieces.items(), bucket) {
            return self.join_ready(bucket);
        }
        self.pieces.join(self.alloc, bucket)
    }

    /// The same, where one of them is ready: so are the documents of all then. By a copy of the parts.
    fn join_ready(&mut self, bucket: Bucket) -> Result<(), StoreFault>
        requires inside { is_ready_inside bucket self.old.pieces ≡ true }
        requires room { self.old.serial < 2 ^ 64 - 1 }
        ensures ok { OnOk result (self.new ≡ after_join bucket self.old) }
        ensures err { OnErr result (self.new ≡ self.old) }
        ensures told { IsAnsweredAs (join_told bucket self.old.pieces) result }
    {
        keys_locate();
        runs_are_known();
        let _ = self.pieces.items();
        let _ = bucket.bits();
        let Ok(parts) = readied(&self.parts, self.alloc, bucket) else {
            return Err(StoreFault::NoMemory);
        };
        self.pieces.join(self.alloc, bucket)?;
        self.parts = parts;
        Ok(())
    }

    /// Takes out the piece that is a bucket with this serial, and its entries.
    pub fn delete(&mut self, bucket: Bucket, serial: u64) -> Result<(), StoreFault>
        ensures ok { OnOk result (self.new ≡ after_delete bucket self.old) }
        ensures err { OnErr result (self.new ≡ self.old) }
        ensures told { IsSurelyTold (delete_told bucket serial self.old.pieces) result }
    {
        keys_locate();
        self.pieces.delete(bucket, serial)?;
        self.parts.drop_bucket(bucket);
        Ok(())
    }

    /// Makes the piece that is a bucket ready, and its documents; those of a piece that is ready already aren't looked at.
    pub fn ready(&mut self, bucket: Bucket) -> Result<(), StoreFault>
        requires { self.old.serial < 2 ^ 64 - 1 }
        ensures ok { OnOk result (self.new ≡ after_ready bucket self.old) }
        ensures err { OnErr result (self.new ≡ self.old) }
        ensures told { IsAnsweredAs (ready_told bucket self.old.pieces) result }
    {
        keys_locate();
        runs_are_known();
        let _ = self.pieces.items();
        let _ = bucket.bits();
        if !self.pieces.has_piece(bucket) {
            return self.pieces.ready(bucket);
        }
        if is_ready_over(&self.pieces, bucket) {
            return self.pieces.ready(bucket);
        }
        let Ok(()) = self.parts.make_ready(self.alloc, bucket) else {
            return Err(StoreFault::NoMemory);
        };
        self.pieces.ready(bucket)
    }

    /// Whether a bucket may become an active region: a ready piece covers it.
    pub fn may_activate(&self, bucket: Bucket) -> Result<(), StoreFault>
        ensures { IsSurelyTold (activate_told bucket self.now.pieces) result }
    {
        self.pieces.may_activate(bucket)
    }

    /// Draws a serial for the piece that covers a bucket, which must be ready.
    pub fn activate(&mut self, bucket: Bucket) -> Result<(), StoreFault>
        requires { self.old.serial < 2 ^ 64 - 1 }
        ensures ok { OnOk result (self.new ≡ after_activate bucket self.old) }
        ensures err { OnErr result (self.new ≡ self.old) }
        ensures told { IsSurelyTold (activate_told bucket self.old.pieces) result }
    {
        self.pieces.activate(bucket)
    }
}
