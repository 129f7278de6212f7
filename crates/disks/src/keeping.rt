ghost use Rattle.std.specs.Prelude.{◌≡◌, ◌≤◌, length, OnOk};
ghost use Rattle.disks.specs.Disks.{DiskState, Only, Torn, LeavesOnly, Counts, written};

use crate::disk::Disk;
use io_ends::Failed;

/// Writes, and syncs. Where the file was all on the disk, a crash at any moment leaves it as it was,
/// but for bytes in the range.
pub fn keep<D: Disk>(disk: &mut D, at: u64, bytes: &[u8]) -> Result<(), Failed>
    requires place { at ≤ length (D.state disk.old).seen }
    ensures written { OnOk result ((D.state disk.new).seen ≡ written at bytes.now (D.state disk.old).seen) }
    ensures durable { OnOk result (Only (D.state disk.new).seen (D.state disk.new).may_leave) }
    ensures any_moment { Only (D.state disk.old).seen (D.state disk.old).may_leave
        → LeavesOnly (D.state disk.old) (D.state disk.new) (Torn at (length bytes.now) (D.state disk.old).seen) }
    ensures counts { Counts D.last (D.state disk.old) (D.state disk.new) result }
{
    disk.write_at(at, bytes)?;
    disk.sync()
}
