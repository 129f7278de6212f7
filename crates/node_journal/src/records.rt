ghost use Rattle.std.specs.Prelude.{◌≡◌, ◌<◌, ◌≤◌, ◌+◌, ◌^◌, ℕ, List, length, take, drop, slice_index, IfOk, IfErr};
ghost use Rattle.disks.specs.Disks.{Rests, Counts};
ghost use Rattle.message_texts.specs.Texts.{message_in};
ghost use Rattle.node_journal.specs.Files.{text_len, text_in, reading};
ghost use Rattle.node_journal.specs.Opening.{IsCause, IsFault, texts, FindsRecord};

use crate::causes::OpenCause;
use crate::framing::OPEN;
use disks::Disk;
use doc_types::Schema;
use io_ends::Failed;
use message_texts::{MessageFault, read_message};
use messages::Message;
use std::alloc::Global;

/// A record behind an open gate.
#[derive(Drop)]
pub struct Found {
    pub message: Message,
    /// Where the next gate stands.
    pub next: u64,
}

/// The byte at a place.
fn byte_at<D: Disk>(disk: &mut D, at: u64) -> Result<u8, Failed>
    requires { at < length (D.state disk.old).seen }
    ensures byte { IfOk result (λ b. b ≡ slice_index (D.state disk.old).seen at) }
    ensures rests { Rests (D.state disk.old) (D.state disk.new) }
    ensures counts { Counts D.last (D.state disk.old) (D.state disk.new) result }
{
    let mut byte = [0; 1];
    disk.read_at(at, &mut byte)?;
    Ok(byte[0])
}

/// The length that a record begins with.
fn length_at<D: Disk>(disk: &mut D, at: u64) -> Result<u32, Failed>
    requires { at + 4 ≤ length (D.state disk.old).seen }
    ensures length { IfOk result (λ n. n ≡ text_len (drop at (D.state disk.old).seen)) }
    ensures rests { Rests (D.state disk.old) (D.state disk.new) }
    ensures counts { Counts D.last (D.state disk.old) (D.state disk.new) result }
{
    let mut bytes = [0; 4];
    disk.read_at(at, &mut bytes)?;
    Ok(u32::from_le_bytes(bytes))
}

/// So many bytes at a place.
fn bytes_at<D: Disk>(alloc: Global, disk: &mut D, at: u64, size: u32) -> Result<Vec<u8>, OpenCause>
    requires { at + size ≤ length (D.state disk.old).seen }
    ensures bytes { IfOk result (λ v. v.items ≡ take size (drop at (D.state disk.old).seen)) }
    ensures rests { Rests (D.state disk.old) (D.state disk.new) }
    ensures count { (D.state disk.old).faults ≤ (D.state disk.new).faults }
    ensures cause { IfErr result (IsFault D.last (D.state disk.old) (D.state disk.new)) }
{
    let mut bytes = vec![in alloc; 0; size as usize]?;
    disk.read_at(at, &mut bytes)?;
    Ok(bytes)
}

/// The text of the record at a place, if it is whole.
fn text_at<D: Disk>(
    alloc: Global,
    disk: &mut D,
    at: u64,
    size: u64,
) -> Result<Option<Vec<u8>>, OpenCause>
    requires within { at ≤ size }
    requires size { size ≡ length (D.state disk.old).seen }
    ensures text { IfOk result (λ t. texts t ≡ text_in (drop at (D.state disk.old).seen)) }
    ensures rests { Rests (D.state disk.old) (D.state disk.new) }
    ensures count { (D.state disk.old).faults ≤ (D.state disk.new).faults }
    ensures cause { IfErr result (IsFault D.last (D.state disk.old) (D.state disk.new)) }
{
    let room = size - at;
    if room < 4 {
        return Ok(None);
    }
    let count = length_at(disk, at)?;
    if room - 4 <= u64::from(count) {
        return Ok(None);
    }
    Ok(Some(bytes_at(alloc, disk, at + 4, count)?))
}

/// The record behind the gate at a place, if that is open.
pub fn record_at<D: Disk>(
    alloc: Global,
    disk: &mut D,
    schema: &Schema,
    at: u64,
    size: u64,
) -> Result<Option<Found>, OpenCause>
    requires within { at < size }
    requires size { size ≡ length (D.state disk.old).seen }
    ensures found { IfOk result (FindsRecord schema.now (D.state disk.old).seen at) }
    ensures rests { Rests (D.state disk.old) (D.state disk.new) }
    ensures count { (D.state disk.old).faults ≤ (D.state disk.new).faults }
    ensures cause { IfErr result (IsCause (reading (message_in schema.now) 0 at (drop at (D.state disk.old).seen)) D.last (D.state disk.old) (D.state disk.new)) }
{
    if byte_at(disk, at)? != OPEN {
        return Ok(None);
    }
    let Some(text) = text_at(alloc, disk, at + 1, size)? else {
        return Err(OpenCause::Damaged { at });
    };
    match read_message(alloc, &text, schema) {
        Ok(message) => Ok(Some(Found {
            message,
            next: at + 5 + text.len() as u64,
        })),
        Err(MessageFault::BadMessage) => Err(OpenCause::Damaged { at }),
        Err(MessageFault::NoMemory) => Err(OpenCause::NoMemory),
    }
}
