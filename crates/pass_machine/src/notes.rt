ghost use Rattle.std.specs.Prelude.{◌≡◌, ℕ, None, Some, IfSome, OnOk, OnErr};
ghost use Rattle.std.specs.Option.{option_copied};
ghost use Rattle.std.specs.Ordering.{nat_cmp};
ghost use Rattle.std.specs.BTreeMap.{IsUnchanged, Updates, get};
ghost use Rattle.bucket_ids.specs.Printed.{number_of as number_in};
ghost use Rattle.pass_machine.specs.Notes.{note_for, whole_in, documents_in};

use bucket_db::row::number_of;
use bucket_ids::Bucket;
use node_sets::NodeSet;
use std::alloc::Global;
use std::collections::BTreeMap;
use value_lists::NoMemory;

/// A node that showed just the row, and the serial of that piece.
#[derive(Clone, Copy, PartialEq, Eq)]
pub struct Exact {
    pub node: u8,
    pub serial: u64,
}

/// What the last round of a row told.
#[derive(Drop)]
pub struct RowNote {
    pub bucket: Bucket,
    /// Whether all Reads were answered.
    pub whole: bool,
    /// The receivers that accepted the union.
    pub holders: NodeSet,
    /// The nodes that showed a piece strictly over the row.
    pub over: NodeSet,
    /// The nodes that showed a piece strictly inside the row.
    pub inside: NodeSet,
    /// The nodes that showed just the row, each with its serial.
    pub exact: Vec<Exact>,
    /// How many documents the union has; 0 where there is none.
    pub documents: u64,
}

/// What the last round of each row told, by bucket number. A row that was just made has no note.
#[derive(Drop)]
pub struct Notes {
    pub by_number: BTreeMap<u64, RowNote>,
}

impl Notes {
    /// No round was run.
    pub fn new(alloc: Global) -> Notes
        ensures empty { (number : ℕ) → get nat_cmp result.by_number number ≡ None }
    {
        Notes {
            by_number: BTreeMap::new(alloc),
        }
    }

    /// Keeps the note of a new round in place of an older one of its row.
    pub fn keep(&mut self, note: RowNote) -> Result<(), NoMemory>
        ensures keeps { OnOk result
            (Updates nat_cmp self.old.by_number self.new.by_number (number_in note.bucket) (Some note)) }
        ensures err { OnErr result (IsUnchanged self.old.by_number self.new.by_number) }
    {
        self.by_number.insert(number_of(note.bucket), note)?;
        Ok(())
    }

    /// Forgets the note of a row, if there is one.
    pub fn forget(&mut self, bucket: Bucket)
        ensures { Updates nat_cmp self.old.by_number self.new.by_number (number_in bucket) None }
    {
        self.by_number.remove(&number_of(bucket));
    }

    /// The note of a row: the one that is kept by the bucket's number, where it is of this bucket.
    pub fn of(&self, bucket: Bucket) -> Option<&RowNote>
        ensures exact { option_copied result ≡ note_for bucket self.now.by_number }
        ensures bucket { IfSome result (λ note. note.now.bucket ≡ bucket) }
    {
        match self.by_number.get(&number_of(bucket)) {
            Some(note) if note.bucket == bucket => Some(note),
            _ => None,
        }
    }

    /// The same where the last round of the row had all its answers.
    pub fn whole(&self, bucket: Bucket) -> Option<&RowNote>
        ensures exact { option_copied result ≡ whole_in (note_for bucket self.now.by_number) }
    {
        match self.of(bucket) {
            Some(note) if note.whole => Some(note),
            _ => None,
        }
    }

    /// How many documents the row has; known only where its last round had all its answers.
    pub fn documents(&self, bucket: Bucket) -> Option<u64>
        ensures { result ≡ documents_in (note_for bucket self.now.by_number) }
    {
        match self.of(bucket) {
            Some(note) if note.whole => Some(note.documents),
            _ => None,
        }
    }
}
