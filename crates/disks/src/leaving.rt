ghost use Rattle.std.specs.Prelude.{◌≡◌, ◌≤◌, ◌<◌, ◌+◌, ◌^◌, IfOk, length, vec_len};
ghost use Rattle.disks.specs.Images.{IsSized};

use std::alloc::Global;
use value_lists::NoMemory;

/// What a crash may leave, and what a read gives.
#[derive(Drop)]
pub struct Leaving {
    pub bytes: Vec<u8>,
    /// Which bytes a write touched since the last sync that succeeded.
    pub touched: Vec<bool>,
    /// The least and the greatest length since then.
    pub least: usize,
    pub reach: usize,
    ghost sized: { IsSized (record { bytes = bytes.items; touched = touched.items; least = least; reach = reach }) },
}
