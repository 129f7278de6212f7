ghost use Rattle.std.specs.Prelude.{◌≡◌, ◌<◌, ◌≤◌, ◌+◌, ◌-◌, ◌^◌, ℕ, max, List, [], ◌∷◌, ◌++◌, length, take, drop, Ok, OnOk};
ghost use Rattle.disks.specs.Disks.{DiskState, Only, Torn, LeavesOnly, Counts, written};
ghost use Rattle.message_texts.specs.Texts.{message_in};
ghost use Rattle.doc_types.specs.SchemaCodes.{Types};
ghost use Rattle.messages.specs.declared.message.Message.{Message};
ghost use Rattle.node_journal.specs.Files.{IsRecord};
ghost use Rattle.node_journal.specs.Journals.{IsAt, RecordsOrAlso};

use disks::{Disk, keep};
use io_ends::Failed;

/// Writes what stands behind the first byte of a frame behind the gate at `end`, and syncs.
fn stage<D: Disk>(disk: &mut D, end: u64, frame: &[u8]) -> Result<(), Failed>
    requires within { end < length (D.state disk.old).seen }
    requires room { end + 1 < 2 ^ 64 }
    requires some { 1 ≤ length frame.now }
    ensures written { OnOk result ((D.state disk.new).seen ≡ written (end + 1) (drop 1 frame.now) (D.state disk.old).seen) }
    ensures durable { OnOk result (Only (D.state disk.new).seen (D.state disk.new).may_leave) }
    ensures any_moment { Only (D.state disk.old).seen (D.state disk.old).may_leave
        → LeavesOnly (D.state disk.old) (D.state disk.new) (Torn (end + 1) (length (drop 1 frame.now)) (D.state disk.old).seen) }
    ensures counts { Counts D.last (D.state disk.old) (D.state disk.new) result }
{
    keep(disk, end + 1, &frame[1..])
}

/// Writes the first byte of a frame in the place of the gate at `end`, and syncs.
fn open_gate<D: Disk>(disk: &mut D, end: u64, frame: &[u8]) -> Result<(), Failed>
    requires within { end < length (D.state disk.old).seen }
    requires some { 1 ≤ length frame.now }
    ensures written { OnOk result ((D.state disk.new).seen ≡ written end (take 1 frame.now) (D.state disk.old).seen) }
    ensures durable { OnOk result (Only (D.state disk.new).seen (D.state disk.new).may_leave) }
    ensures any_moment { Only (D.state disk.old).seen (D.state disk.old).may_leave
        → LeavesOnly (D.state disk.old) (D.state disk.new) (Torn end (length (take 1 frame.now)) (D.state disk.old).seen) }
    ensures counts { Counts D.last (D.state disk.old) (D.state disk.new) result }
{
    keep(disk, end, &frame[..1])
}

/// Adds a frame, which is an open gate, a record, and a closed gate, in the place of the closed gate at `end`.
pub fn add<D: Disk>(disk: &mut D, end: u64, frame: &[u8]) -> Result<(), Failed>
    requires within { end < length (D.state disk.old).seen }
    requires room { end + 1 < 2 ^ 64 }
    requires some { 1 ≤ length frame.now }
    requires settled { Only (D.state disk.old).seen (D.state disk.old).may_leave }
    ensures added { (schema : Types) (ms : List Message) (m : Message) (piece : List ℕ)
        → IsAt schema (D.state disk.old).seen end ms → IsRecord (message_in schema) piece m → frame.now ≡ 1 ∷ (piece ++ 0 ∷ [])
        → OnOk result (IsAt schema (D.state disk.new).seen (end + (1 + length piece)) (ms ++ m ∷ [])) }
    ensures size { OnOk result (length (D.state disk.new).seen ≤ max (length (D.state disk.old).seen) (end + length frame.now)) }
    ensures durable { OnOk result (Only (D.state disk.new).seen (D.state disk.new).may_leave) }
    ensures any_moment { (schema : Types) (ms : List Message) (m : Message) (piece : List ℕ) (limit : ℕ)
        → IsAt schema (D.state disk.old).seen end ms → IsRecord (message_in schema) piece m → frame.now ≡ 1 ∷ (piece ++ 0 ∷ [])
        → length (D.state disk.old).seen ≤ limit → end + length frame.now ≤ limit
        → LeavesOnly (D.state disk.old) (D.state disk.new) (RecordsOrAlso schema limit (Ok ms) m) }
    ensures counts { Counts D.last (D.state disk.old) (D.state disk.new) result }
{
    stage(disk, end, frame)?;
    open_gate(disk, end, frame)
}
