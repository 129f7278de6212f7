ghost use Rattle.std.specs.Prelude.{◌≡◌, ◌<◌, ◌≤◌, ◌^◌, ℕ, length, IfOk, IfErr, OnOk};
ghost use Rattle.node_model.specs.Nodes.{new_node};
ghost use Rattle.node_model.specs.Takes.{IsInside, HasRoom};
ghost use Rattle.node_journal.specs.Lives.{is_wanting, after};
ghost use Rattle.disks.specs.Disks.{Rests, Only, LeavesOnly};
ghost use Rattle.message_texts.specs.Texts.{message_in};
ghost use Rattle.node_journal.specs.Files.{reading};
ghost use Rattle.node_journal.specs.Journals.{recorded, Records};
ghost use Rattle.node_journal.specs.Opening.{IsCause, IsReplayed, IsRead};

use crate::causes::OpenCause;
use crate::framing::CLOSED;
use crate::records::{Found, record_at};
use disks::{Disk, keep};
use doc_types::Schema;
use messages::{Message, Reply};
use node_rows::SharedSchema;
use service_layer::NodePart;
use std::alloc::Global;
use value_lists::{NoMemory, TryCopy};

/// A node that took messages, and where the gate behind their records stands.
#[derive(Drop)]
pub struct Replayed {
    pub node: NodePart,
    pub end: u64,
}

/// Whether memory was wanting.
pub fn is_wanting(reply: &Reply) -> bool
    ensures { result ≡ is_wanting reply.now }
{
    matches!(reply, Reply::NoMemory)
}

/// Takes the message of a record.
fn take_recorded(node: &mut NodePart, message: &Message) -> Result<(), NoMemory>
    requires inside { IsInside message.now.body }
    requires room { HasRoom message.now.body node.old.serial }
    ensures { OnOk result (node.new ≡ after message.now node.old) }
{
    let taken = node.take(message);
    if is_wanting(&taken.reply) {
        return Err(NoMemory);
    }
    Ok(())
}

/// Takes the message of a record that was found, and answers where the next gate stands.
fn take_found(node: &mut NodePart, found: Found) -> Result<u64, NoMemory>
    requires inside { IsInside found.message.body }
    requires room { HasRoom found.message.body node.old.serial }
    ensures next { IfOk result (λ next. next ≡ found.next) }
    ensures taken { OnOk result (node.new ≡ after found.message node.old) }
{
    take_recorded(node, &found.message)?;
    Ok(found.next)
}

/// A node that took no message, with documents of the types of a schema.
fn new_node(alloc: Global, schema: &Schema) -> Result<NodePart, NoMemory>
    ensures { IfOk result (λ node. node ≡ new_node) }
{
    let shared = SharedSchema::new(alloc, schema.copy(alloc)?)?;
    NodePart::new(alloc, &shared)
}

/// The node that takes all messages of a file's records, up to the first gate that isn't open, once it took none.
pub fn replay<D: Disk>(
    alloc: Global,
    disk: &mut D,
    schema: &Schema,
    size: u64,
    mut node: NodePart,
) -> Result<Replayed, OpenCause>
    requires new { node ≡ new_node }
    requires some { 0 < size }
    requires few { size < 2 ^ 32 }
    requires size { size ≡ length (D.state disk.old).seen }
    ensures replayed { IfOk result (λ r. IsReplayed schema.now (D.state disk.old).seen r.node r.end) }
    ensures rests { Rests (D.state disk.old) (D.state disk.new) }
    ensures count { (D.state disk.old).faults ≤ (D.state disk.new).faults }
    ensures cause { IfErr result (IsCause (reading (message_in schema.now) 0 0 (D.state disk.old).seen) D.last (D.state disk.old) (D.state disk.new)) }
{
    let mut end = 0;
    'records: loop {
        match record_at(alloc, disk, schema, end, size) {
            Ok(Some(found)) => {
                let Ok(next) = take_found(&mut node, found) else {
                    return Err(OpenCause::NoMemory);
                };
                end = next;
            }
            Ok(None) => return Ok(Replayed { node, end }),
            Err(cause) => return Err(cause),
        }
    }
}

/// The node that takes all messages of a file. One of fewer than six bytes is empty, and its gate is written.
pub fn read_all<D: Disk>(
    alloc: Global,
    disk: &mut D,
    schema: &Schema,
    size: u64,
) -> Result<Replayed, OpenCause>
    requires few { size < 2 ^ 32 }
    requires size { size ≡ length (D.state disk.old).seen }
    ensures read { IfOk result (λ r. IsRead schema.now (D.state disk.old).seen (D.state disk.new) r.node r.end) }
    ensures cause { IfErr result (IsCause (recorded schema.now (D.state disk.old).seen) D.last (D.state disk.old) (D.state disk.new)) }
    ensures any_moment { (limit : ℕ) → 1 ≤ limit → length (D.state disk.old).seen ≤ limit
        → Only (D.state disk.old).seen (D.state disk.old).may_leave
        → LeavesOnly (D.state disk.old) (D.state disk.new) (Records schema.now limit (recorded schema.now (D.state disk.old).seen)) }
{
    let Ok(node) = new_node(alloc, schema) else {
        return Err(OpenCause::NoMemory);
    };
    if size < 6 {
        return match keep(disk, 0, &[CLOSED]) {
            Ok(()) => Ok(Replayed { node, end: 0 }),
            Err(_) => Err(OpenCause::DiskFault),
        };
    }
    match replay(alloc, disk, schema, size, node) {
        Ok(replayed) => match disk.sync() {
            Ok(()) => Ok(replayed),
            Err(_) => Err(OpenCause::DiskFault),
        },
        Err(cause) => Err(cause),
    }
}
