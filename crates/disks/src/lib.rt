//! A file on a disk, as one sees it who must survive a crash.
//!
//! A contract sees what a `Disk` tells as a `DiskState` (`specs/Disks.antt`): what a read gives, how many faults there were,
//! and what a crash may leave, now or at a moment since an earlier one. Between two syncs each written range may hold any
//! bytes, the length lies between the old and the new one, and all other bytes stay; after a sync that succeeded a crash
//! leaves what a read gives. A call fails only where the count of faults rose. `keep` writes and syncs, and what is built
//! on it never speaks of a single call. `specs/Moments.antt` says how runs of calls go on.
//!
//! A `MemoryDisk` keeps what a crash in each of its calls may leave (`specs/Images.antt`), and gives it as a disk again.
//!
//! ```text
//! let mut disk = MemoryDisk::new(alloc, bytes, failing);    // the calls of these numbers fail
//! keep(&mut disk, 0, b"abc")?;                              // calls 0 and 1
//! disk.image(0, 255, 2)?                                    // a crash in call 0 may leave two bytes, 255 each
//! ```
#![tactic(auto)]

pub mod disk;
pub mod keeping;
mod leaving;
pub mod memory;
mod spread;
#[cfg(test)]
mod tests;

pub use disk::Disk;
pub use keeping::keep;
pub use memory::MemoryDisk;
