ghost use Rattle.std.specs.Prelude.{◌≡◌, not, IfOk};
ghost use Rattle.std.specs.FinMap as fin;
ghost use Rattle.entry_maps.specs.Entries.{in_bucket};
ghost use Rattle.entry_maps.specs.Runs.{IsRun};
ghost use Rattle.entry_maps.specs.Slots.{IsStored, slots_in, entries_of};

use crate::stored::Stored;
use bucket_ids::Bucket;
use bucket_ids::laws::buckets_are_runs;
use entry_rows::chunks::Spot;
use global_ids::laws::keys_locate;
use std::alloc::Global;
use value_lists::NoMemory;

/// From where to where some slots lie, how many they are, and how many of them hold documents.
#[derive(Clone, Copy)]
pub struct Run {
    pub from: Spot,
    pub to: Spot,
    pub entries: usize,
    pub documents: usize,
}

impl Stored {
    /// The slots whose paths are from a first one to a last one.
    fn run(&self, first: u64, last: u64) -> Run
        requires { IsStored self.now }
        ensures { IsRun self.now.list first last result }
    {
        let from = self.list.settled(self.list.first_at(first));
        let mut to = from;
        let mut entries = 0;
        let mut documents = 0;
        while let Some(slot) = self.list.slot(to) {
            if slot.path > last {
                break;
            }
            entries += 1;
            documents += usize::from(slot.entry.has_document());
            to = self.list.next(to);
        }
        Run {
            from,
            to,
            entries,
            documents,
        }
    }

    /// Copies of the entries whose keys lie in a bucket.
    pub fn within(&self, alloc: Global, bucket: Bucket) -> Result<Stored, NoMemory>
        requires stored { IsStored self.now }
        ensures stored { IfOk result IsStored }
        ensures entries { IfOk result (λ part. entries_of (slots_in part)
            ≡ fin.retain_keys (entries_of (slots_in self.now)) (in_bucket bucket)) }
    {
        buckets_are_runs();
        keys_locate();
        let (first, last) = bucket.run();
        let part = self.copied(alloc, self.run(first, last))?;
        Ok(part)
    }

    /// Removes the entries whose keys lie in a bucket.
    pub fn remove_within(&mut self, bucket: Bucket)
        requires stored { IsStored self.old }
        ensures entries { entries_of (slots_in self.new)
            ≡ fin.retain_keys (entries_of (slots_in self.old)) (λ id. not (in_bucket bucket id)) }
        ensures stored { IsStored self.new }
    {
        buckets_are_runs();
        keys_locate();
        let (first, last) = bucket.run();
        let run = self.run(first, last);
        self.list.cut(run.from, run.to);
        self.entries -= run.entries;
        self.documents -= run.documents;
    }
}
