ghost use Rattle.std.specs.Prelude.{◌≡◌, Some, IfOk, OnOk, OnErr};
ghost use Rattle.std.specs.Option.{option_copied};
ghost use Rattle.global_ids.specs.Keys.{key_of};
ghost use Rattle.messages.specs.Noting.{message_of};
ghost use Rattle.op_machine.specs.Outcomes.{answers_of, tally_of, heard_of, reader, verdict, verdict_outcome, read_body, store_message};
ghost use Rattle.op_machine.specs.Standings.{seen_in, entry_in, IsKnown};

use crate::judging::judged;
use crate::plan::{Plan, looks, read_body};
use crate::tally::{Heard, seen};
use crate::verdict::Verdict;
use documents::SharedEntry;
use entry_maps::EntryMap;
use messages::{Body, Message, Outcome};
use std::alloc::Global;
use value_lists::{NoMemory, TryCopy};

impl Plan {
    /// The recipient that is to be read next.
    pub fn reader(&self, reads: &Heard) -> Option<u8>
        ensures { result ≡ reader self.now (heard_of reads.now) }
    {
        if looks(self.operation.operation()) {
            self.waiting(reads)
        } else {
            None
        }
    }

    /// What the operation comes to once all was told of its Reads, by the newest entry that was seen.
    fn verdict(
        &self,
        alloc: Global,
        reads: &Heard,
        seen: Option<&SharedEntry>,
    ) -> Result<Verdict, NoMemory>
        ensures { IfOk result (λ v. v
            ≡ verdict self.now (answers_of (tally_of reads.now (option_copied seen.entry)))) }
    {
        if !looks(self.operation.operation()) {
            judged(alloc, self.operation.operation(), self.stamp, None)
        } else if self.has_enough(reads) {
            judged(alloc, self.operation.operation(), self.stamp, seen)
        } else {
            Ok(Verdict::Ends {
                outcome: self.too_few(reads),
            })
        }
    }

    /// The same, judged where it isn't known yet. The key of the document is beside what was shown.
    pub fn judge(
        &self,
        alloc: Global,
        key: u64,
        reads: &Heard,
        shown: Option<&EntryMap>,
        known: &mut Option<Verdict>,
    ) -> Result<(), NoMemory>
        requires key { key ≡ key_of self.now.operation.id }
        requires known { IsKnown self.now
            (answers_of (tally_of reads.now (seen_in self.now.operation.id (option_copied shown)))) known.old }
        ensures judged { OnOk result (known.new ≡ Some (verdict self.now
            (answers_of (tally_of reads.now (seen_in self.now.operation.id (option_copied shown.entry)))))) }
        ensures kept { OnErr result (known.new ≡ known.old) }
    {
        if known.is_some() {
            return Ok(());
        }
        let seen = seen(key, &self.operation.operation().id, shown);
        *known = Some(self.verdict(alloc, reads, seen)?);
        Ok(())
    }

    /// The Read that a recipient is sent; the document's key is beside it.
    pub fn read_message(&self, alloc: Global, key: u64, node: u8) -> Result<Message, NoMemory>
        requires { key ≡ key_of self.now.operation.id }
        ensures { IfOk result (λ m. m ≡ message_of self.now.origin node (read_body self.now.operation.id)) }
    {
        Ok(
            self.origin
                .message(node, read_body(alloc, key, self.operation.operation())?),
        )
    }

    /// The Store of an entry to the next recipient, if one waits.
    fn store_of(
        &self,
        alloc: Global,
        stores: &Heard,
        entry: &SharedEntry,
    ) -> Result<Option<Message>, NoMemory>
        ensures { IfOk result (λ m. m ≡ store_message self.now (heard_of stores.now) (Some entry.now)) }
    {
        let Some(node) = self.waiting(stores) else {
            return Ok(None);
        };
        let body = Body::Store {
            entry: entry.copy(alloc)?,
        };
        Ok(Some(self.origin.message(node, body)))
    }

    /// The Store that the next recipient is sent, if there is an entry to store.
    pub fn store_message(
        &self,
        alloc: Global,
        stores: &Heard,
        verdict: &Verdict,
    ) -> Result<Option<Message>, NoMemory>
        ensures { IfOk result (λ m. m ≡ store_message self.now (heard_of stores.now) (entry_in verdict.now)) }
    {
        match verdict {
            Verdict::Ends { .. } => Ok(None),
            Verdict::Writes { entry } => self.store_of(alloc, stores, entry),
        }
    }

    /// How the operation ends, if all was told of it.
    pub fn outcome(
        &self,
        alloc: Global,
        stores: &Heard,
        verdict: &Verdict,
    ) -> Result<Option<Outcome>, NoMemory>
        ensures { IfOk result (λ o. o ≡ verdict_outcome verdict.now self.now (heard_of stores.now)) }
    {
        match verdict {
            Verdict::Ends { outcome } => Ok(Some(outcome.copy(alloc)?)),
            Verdict::Writes { entry } => Ok(self.stored_outcome(stores, entry.entry().stamp)),
        }
    }
}
