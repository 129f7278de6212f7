ghost use Rattle.std.specs.Prelude.{◌≡◌, ◌≤◌, ◌+◌, ℕ, Option, length, take, drop, OnOk};
ghost use Rattle.disks.specs.Disks.{DiskState, Rests, Writes, Syncs, Counts, HasClock};

use io_ends::Failed;

/// A file on a disk.
pub trait Disk {
    /// What a read gives, how many faults there were, and what a crash may leave.
    ghost state: { Self → DiskState };

    /// The number of faults that is counted last, where there is one.
    ghost last: { Option ℕ };

    /// How many bytes a read gives.
    fn length(&self) -> u64
        ensures { result ≡ length (state self.now).seen };

    /// Reads as many bytes as `into` has.
    fn read_at(&mut self, at: u64, into: &mut [u8]) -> Result<(), Failed>
        requires { at + length into.old ≤ length (state self.old).seen }
        ensures bytes { OnOk result (into.new ≡ take (length into.old) (drop at (state self.old).seen)) }
        ensures rests { Rests (state self.old) (state self.new) }
        ensures counts { Counts last (state self.old) (state self.new) result };

    /// Writes over what is there, and past the end. Until a sync, a crash may leave any bytes in the
    /// range, and a length between the old one and the new one.
    fn write_at(&mut self, at: u64, bytes: &[u8]) -> Result<(), Failed>
        requires { at ≤ length (state self.old).seen }
        ensures writes { Writes at bytes.now (state self.old) (state self.new) result }
        ensures counts { Counts last (state self.old) (state self.new) result };

    /// After it a crash leaves what a read gives.
    fn sync(&mut self) -> Result<(), Failed>
        ensures syncs { Syncs (state self.old) (state self.new) result }
        ensures counts { Counts last (state self.old) (state self.new) result };

    /// The moments are in order.
    ghost clock: { (disk : Self) → HasClock (state disk) };
}
