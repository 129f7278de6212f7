ghost use Rattle.std.specs.Prelude.{◌≡◌, ◌^◌, ◌<◌, ◌-◌, ℕ, true, false, filter, IfOk, IfErr, OnOk, OnErr, Err};
ghost use Rattle.std.specs.List.{list_any};
ghost use Rattle.std.specs.Option.{option_copied};
ghost use Rattle.std.specs.FinMap as fin;
ghost use Rattle.global_ids.specs.Keys.{key_of};
ghost use Rattle.entry_maps.specs.Entries.{in_bucket, HasNoneNewer, HasOneNewer};
ghost use Rattle.pieces.specs.Pieces.{holds, does_meet, is_exactly};
ghost use Rattle.pieces.specs.Told.{IsAnsweredAs, IsSurelyTold, Accepted, key_told, split_told, join_told, ready_told, activate_told, delete_told};
ghost use Rattle.pieces.specs.declared.fault.StoreFault.TheVariants as fault;
ghost use Rattle.replica_store.specs.Replicas.{IsReplica, LieIn, no_replica, after_store, after_apply, after_split, after_join, after_ready, after_activate, after_delete};

use bucket_ids::Bucket;
use document_ids::DocId;
use documents::{Entry, SharedEntry};
use entry_maps::{EntryMap, join, joins_are_by_document};
use global_ids::laws::keys_locate;
use pieces::{LaidPieces, Piece, PieceList, StoreFault};
use std::alloc::Global;
use std::marker::Model;
use value_lists::NoMemory;

/// What a node has of one bucket.
#[derive(Drop)]
pub struct Held {
    pub entries: EntryMap,
    /// The pieces that meet the bucket.
    pub pieces: PieceList,
}

/// What a node stores in one lane.
#[derive(Drop)]
pub struct ReplicaStore {
    entries: EntryMap,
    pieces: LaidPieces,
    alloc: Global,
}

impl Model for ReplicaStore {
    ghost use Rattle.replica_store.specs.Replicas.{Replica, replica_code, AreHeld};

    ghost Value = { Replica };

    ghost coded = { replica_code };

    ghost view = { λ r. record { entries = r.entries; pieces = r.pieces.pieces; serial = r.pieces.serial } };

    ghost invariant = { λ r. AreHeld r.entries r.pieces.pieces };
}

impl ReplicaStore {
    /// No bucket and no entry.
    pub fn new(alloc: Global) -> ReplicaStore
        ensures { result ≡ no_replica }
    {
        ReplicaStore {
            entries: EntryMap::new(alloc),
            pieces: LaidPieces::new(alloc),
            alloc,
        }
    }

    /// The pieces, in the order of their runs.
    pub fn pieces(&self) -> &[Piece]
        ensures pieces { result.now ≡ self.now.pieces }
        ensures valid { IsReplica self.now }
    {
        self.pieces.items()
    }

    /// The last serial that was drawn, 0 before the first.
    pub fn last_serial(&self) -> u64
        ensures value { result ≡ self.now.serial }
        ensures valid { IsReplica self.now }
    {
        self.pieces.last_serial()
    }

    /// The entry of a document.
    pub fn entry(&self, id: &DocId) -> Option<&Entry>
        ensures { option_copied result ≡ fin.get self.now.entries id.now }
    {
        self.entries.get(id)
    }

    /// The same, with the key of the document's id beside it, so that nothing is digested.
    pub fn entry_at(&self, key: u64, id: &DocId) -> Option<&SharedEntry>
        requires { key ≡ key_of id.now }
        ensures { option_copied result ≡ fin.get self.now.entries id.now }
    {
        self.entries.shared_at(key, id)
    }

    /// How many entries there are, removes among them.
    pub fn entries(&self) -> u64
        ensures { result ≡ fin.len self.now.entries }
    {
        self.entries.entries()
    }

    /// The entries in a bucket, shared.
    pub fn entries_in(&self, bucket: Bucket) -> Result<EntryMap, NoMemory>
        ensures { IfOk result (λ part. part ≡ fin.retain_keys self.now.entries (in_bucket bucket)) }
    {
        self.entries.within(bucket)
    }

    /// Whether a bucket has a key.
    pub fn holds(&self, key: u64) -> bool
        requires { key < 2 ^ 58 }
        ensures { result ≡ holds key self.now.pieces }
    {
        self.pieces.has_key(key)
    }

    /// All entries in a bucket, and the pieces that meet it.
    pub fn read(&self, bucket: Bucket) -> Result<Held, StoreFault>
        ensures entries { IfOk result (λ held. held.entries
            ≡ fin.retain_keys self.now.entries (in_bucket bucket)) }
        ensures pieces { IfOk result (λ held. held.pieces ≡ filter (does_meet bucket) self.now.pieces) }
        ensures fault { IfErr result (λ e. e ≡ fault.NoMemory) }
    {
        let Ok(pieces) = self.pieces.meeting(self.alloc, bucket) else {
            return Err(StoreFault::NoMemory);
        };
        let Ok(entries) = self.entries_in(bucket) else {
            return Err(StoreFault::NoMemory);
        };
        Ok(Held {
            entries,
            pieces: PieceList::of(pieces),
        })
    }

    /// Takes an entry, whose document's key is beside it; the newest of its document stays.
    pub fn store(&mut self, key: u64, entry: SharedEntry) -> Result<(), StoreFault>
        requires key { key ≡ key_of entry.id }
        requires room { self.old.serial < 2 ^ 64 - 1 }
        ensures ok { OnOk result (self.new ≡ after_store entry self.old) }
        ensures err { OnErr result (self.new ≡ self.old) }
        ensures told { IsAnsweredAs (key_told key self.old.pieces) result }
    {
        keys_locate();
        if !self.pieces.has_key(key) {
            return Err(StoreFault::NoBucket);
        }
        let Ok(_) = self.entries.put_at(key, entry) else {
            return Err(StoreFault::NoMemory);
        };
        self.pieces.renew(key);
        Ok(())
    }

    /// Whether one of some entries is newer than what is there of its document.
    pub fn is_behind(&self, entries: &EntryMap) -> bool
        ensures none { result ≡ false → HasNoneNewer entries.now self.now.entries }
        ensures some { result ≡ true → HasOneNewer entries.now self.now.entries }
    {
        entries.has_newer(&self.entries)
    }

    /// Makes a bucket a piece, and takes entries of documents whose keys lie in it.
    pub fn apply(&mut self, bucket: Bucket, entries: &EntryMap) -> Result<(), StoreFault>
        requires inside { LieIn bucket entries.now }
        requires room { self.old.serial < 2 ^ 64 - 1 }
        ensures ok { OnOk result (self.new ≡ after_apply bucket entries.now self.old) }
        ensures err { OnErr result (self.new ≡ self.old) }
        ensures told { IsAnsweredAs Accepted result }
    {
        keys_locate();
        joins_are_by_document();
        if self.pieces.has_piece(bucket) {
            return self.apply_to_piece(bucket, entries);
        }
        let Ok(pieces) = self.pieces.made(self.alloc, bucket) else {
            return Err(StoreFault::NoMemory);
        };
        let Ok(()) = join(&mut self.entries, entries) else {
            return Err(StoreFault::NoMemory);
        };
        self.pieces = pieces;
        Ok(())
    }

    /// The same, where the bucket is a piece already.
    fn apply_to_piece(&mut self, bucket: Bucket, entries: &EntryMap) -> Result<(), StoreFault>
        requires inside { LieIn bucket entries.now }
        requires piece { list_any (is_exactly bucket) self.old.pieces ≡ true }
        requires room { self.old.serial < 2 ^ 64 - 1 }
        ensures ok { OnOk result (self.new ≡ after_apply bucket entries.now self.old) }
        ensures err { OnErr result (self.new ≡ self.old) }
        ensures told { IsAnsweredAs Accepted result }
    {
        keys_locate();
        joins_are_by_document();
        let Ok(()) = join(&mut self.entries, entries) else {
            return Err(StoreFault::NoMemory);
        };
        self.pieces.renew_piece(bucket);
        Ok(())
    }

    /// Splits the piece that covers a bucket until the bucket is a piece.
    pub fn split(&mut self, bucket: Bucket) -> Result<(), StoreFault>
        requires { self.old.serial < 2 ^ 64 - 1 }
        ensures ok { OnOk result (self.new ≡ after_split bucket self.old) }
        ensures err { OnErr result (self.new ≡ self.old) }
        ensures told { IsAnsweredAs (split_told bucket self.old.pieces) result }
    {
        keys_locate();
        self.pieces.split(self.alloc, bucket)
    }

    /// Makes the pieces inside a bucket one.
    pub fn join(&mut self, bucket: Bucket) -> Result<(), StoreFault>
        requires { self.old.serial < 2 ^ 64 - 1 }
        ensures ok { OnOk result (self.new ≡ after_join bucket self.old) }
        ensures err { OnErr result (self.new ≡ self.old) }
        ensures told { IsAnsweredAs (join_told bucket self.old.pieces) result }
    {
        keys_locate();
        self.pieces.join(self.alloc, bucket)
    }

    /// Takes out the piece that is a bucket with this serial, and its entries.
    pub fn delete(&mut self, bucket: Bucket, serial: u64) -> Result<(), StoreFault>
        ensures ok { OnOk result (self.new ≡ after_delete bucket self.old) }
        ensures err { OnErr result (self.new ≡ self.old) }
        ensures told { IsSurelyTold (delete_told bucket serial self.old.pieces) result }
    {
        keys_locate();
        self.pieces.delete(bucket, serial)?;
        self.entries.remove_within(bucket);
        Ok(())
    }

    /// Makes the piece that is a bucket ready.
    pub fn ready(&mut self, bucket: Bucket) -> Result<(), StoreFault>
        requires { self.old.serial < 2 ^ 64 - 1 }
        ensures ok { OnOk result (self.new ≡ after_ready bucket self.old) }
        ensures err { OnErr result (self.new ≡ self.old) }
        ensures told { IsSurelyTold (ready_told bucket self.old.pieces) result }
    {
        self.pieces.ready(bucket)
    }

    /// Whether a bucket may become an active region: a ready piece covers it.
    pub fn may_activate(&self, bucket: Bucket) -> Result<(), StoreFault>
        ensures { IsSurelyTold (activate_told bucket self.now.pieces) result }
    {
        self.pieces.may_activate(bucket)
    }

    /// Draws a serial for the piece that covers a bucket, which must be ready.
    pub fn activate(&mut self, bucket: Bucket) -> Result<(), StoreFault>
        requires { self.old.serial < 2 ^ 64 - 1 }
        ensures ok { OnOk result (self.new ≡ after_activate bucket self.old) }
        ensures err { OnErr result (self.new ≡ self.old) }
        ensures told { IsSurelyTold (activate_told bucket self.old.pieces) result }
    {
        self.pieces.activate(bucket)
    }
}
