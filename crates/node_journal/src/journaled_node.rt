ghost use Rattle.std.specs.Prelude.{◌≡◌, ◌⊎◌, ◌<◌, ◌≤◌, ◌+◌, ◌^◌, ℕ, List, [], ◌∷◌, ◌++◌, length, IfOk, IfErr, Ok, Err, IsErrOf};
ghost use Rattle.disks.specs.Disks.{DiskState, LeavesOnly};
ghost use Rattle.io_ends.specs.Causes.{HasRisen};
ghost use Rattle.node_model.specs.Takes.{Takes};
ghost use Rattle.message_texts.specs.Texts.{text_of};
ghost use Rattle.message_texts.specs.Fitting.{Fits};
ghost use Rattle.messages.specs.declared.message.Message.{Message};
ghost use Rattle.node_journal.specs.Lives.{added};
ghost use Rattle.node_journal.specs.Journals.{Journaled, Holds, IsJournal, RecordsOrAlso};
ghost use Rattle.node_journal.specs.Opening.{Opens, HandsBack};
ghost use Rattle.node_journal.specs.Taking.{Accepts, Refuses};

use crate::adding::add;
use crate::causes::OpenCause;
use crate::faults::JournalFault;
use crate::framing::framed;
use crate::replaying::{is_wanting, read_all};
use disks::Disk;
use doc_types::Schema;
use messages::Message;
use service_layer::{NodePart, Taken};
use std::alloc::Global;
use std::marker::Model;
use value_lists::TryCopy;

/// What a node has in one lane, whose messages are on a disk.
#[derive(Drop)]
pub struct JournaledNode<D: Disk> {
    node: NodePart,
    disk: D,
    schema: Schema,
    max_bytes: u64,
    end: u64,
    shut: bool,
    alloc: Global,
}

impl<D: Disk> Model for JournaledNode<D> {
    ghost use Rattle.node_journal.specs.Journals.{Journaled, IsJournal, journaled_code};

    ghost Value = { Journaled D };

    ghost coded = { journaled_code D.code };

    ghost view = { λ j. record { node = j.node; disk = j.disk; schema = j.schema; max_bytes = j.max_bytes; end = j.end; shut = j.shut } };

    ghost invariant = { λ j. IsJournal D.state (record { node = j.node; disk = j.disk; schema = j.schema; max_bytes = j.max_bytes; end = j.end; shut = j.shut }) };
}

/// Why a disk isn't opened, and the disk.
#[derive(Drop)]
pub struct OpenFault<D: Disk> {
    pub cause: OpenCause,
    pub disk: D,
}

impl<D: Disk> JournaledNode<D> {
    /// The node that takes all messages that a disk's file records. An open gate without a whole record, or
    /// before one that is no message, is refused, and so is a file above the limit.
    pub fn open(
        alloc: Global,
        schema: &Schema,
        mut disk: D,
        max_bytes: u64,
    ) -> Result<JournaledNode<D>, OpenFault<D>>
        requires least { 6 ≤ max_bytes }
        requires most { max_bytes < 2 ^ 32 }
        ensures opened { IfOk result (Opens D.state schema.now disk max_bytes) }
        ensures refused { IfErr result (λ f. HandsBack D.state D.last schema.now disk max_bytes f.cause f.disk) }
    {
        let size = disk.length();
        if size > max_bytes {
            return Err(OpenFault {
                cause: OpenCause::TooLong { length: size },
                disk,
            });
        }
        let Ok(copy) = schema.copy(alloc) else {
            return Err(OpenFault {
                cause: OpenCause::NoMemory,
                disk,
            });
        };
        match read_all(alloc, &mut disk, schema, size) {
            Ok(replayed) => Ok(JournaledNode {
                node: replayed.node,
                disk,
                schema: copy,
                max_bytes,
                end: replayed.end,
                shut: false,
                alloc,
            }),
            Err(cause) => Err(OpenFault { cause, disk }),
        }
    }

    /// The node as it stands.
    pub fn node(&self) -> &NodePart
        ensures node { result.now ≡ self.now.node }
        ensures holds { IsJournal D.state self.now }
    {
        &self.node
    }

    /// The disk.
    pub fn disk(&self) -> &D
        ensures { result.now ≡ self.now.disk }
    {
        &self.disk
    }

    /// Takes a message, and records it where the node accepts it or refuses it for what it has: at Ok it is on
    /// the disk. After `Full` and `NoMemory` nothing has changed; after `DiskFault` the node is shut.
    pub fn take(&mut self, message: &Message) -> Result<Taken, JournalFault>
        requires { Fits self.old.schema message.now }

        // A crash at any moment of the call leaves the messages from before it, or this one too.
        ensures any_moment { (ms : List Message) → Holds D.state self.old ms
            → LeavesOnly (D.state self.old.disk) (D.state self.new.disk)
            (RecordsOrAlso self.old.schema self.old.max_bytes (Ok ms) message.now) }

        // What is answered, and what is left.
        ensures taken { IfOk result (Accepts D.state self.old message.now self.new) }
        ensures refused { IfErr result (Refuses D.state D.last self.old message.now self.new) }
        ensures under { (self.new.schema ≡ self.old.schema) × (self.new.max_bytes ≡ self.old.max_bytes) }
    {
        if self.shut {
            return Err(JournalFault::Shut);
        }
        if message.version < self.node.version() {
            return Ok(self.node.take(message));
        }
        let frame = match framed(self.alloc, message, self.end, self.max_bytes) {
            Ok(frame) => frame,
            Err(fault) => return Err(fault),
        };
        let taken = self.node.take(message);
        if is_wanting(&taken.reply) {
            return Ok(taken);
        }
        match add(&mut self.disk, self.end, &frame) {
            Ok(()) => {
                self.end += frame.len() as u64 - 1;
                Ok(taken)
            }
            Err(_) => {
                self.shut = true;
                Err(JournalFault::DiskFault)
            }
        }
    }
}
