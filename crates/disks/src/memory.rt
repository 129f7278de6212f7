ghost use Rattle.std.specs.Prelude.{◌≡◌, ◌↔◌, ◌≤◌, ◌<◌, ◌+◌, ◌^◌, Some, [], ◌∷◌, ◌++◌, true, IfOk, IfSome, IsErr, OnOk, OnErr, IsTrue, is_some, length, map, take, drop};
ghost use Rattle.disks.specs.Disks.{Only, Rests, Writes, Syncs, Counts};
ghost use Rattle.io_ends.specs.Causes.{HasRisen};
ghost use Rattle.io_ends.specs.Memory.{IsToFail, last_count};
ghost use Rattle.disks.specs.Images.{LeftBy, IsImageOf, is_there};
ghost use Rattle.disks.specs.Memory.{spread_of, past_of, IsWritten, settled, memory_state, memory_clock};

use crate::disk::Disk;
use crate::leaving::Leaving;
use crate::spread::{bytes_after, painted, touched_after};
use io_ends::Failed;
use std::alloc::Global;
use value_lists::NoMemory;

/// A disk in memory, some of whose calls fail. For each call it keeps what a crash in it or just after it may
/// leave; where memory is wanting the call fails, and isn't counted.
#[derive(Drop)]
pub struct MemoryDisk {
    leaving: Leaving,
    past: Vec<Leaving>,
    failing: Vec<u64>,
    faults: u64,
    alloc: Global,
}

fn copy(alloc: Global, leaving: &Leaving) -> Result<Leaving, NoMemory>
    ensures { IfOk result (λ copy. spread_of copy ≡ spread_of leaving.now) }
{
    Ok(Leaving {
        bytes: Vec::from_slice(alloc, &leaving.bytes)?,
        touched: Vec::from_slice(alloc, &leaving.touched)?,
        least: leaving.least,
        reach: leaving.reach,
    })
}

/// What a write leaves.
fn after_write(
    alloc: Global,
    leaving: &Leaving,
    at: usize,
    from: &[u8],
    done: bool,
) -> Result<Leaving, NoMemory>
    requires place { at ≤ length leaving.now.bytes.items }
    requires room { at + length from.now < 2 ^ 64 }
    ensures { IfOk result (λ after. IsWritten at from.now done (spread_of leaving.now) (spread_of after)) }
{
    let end = at + from.len();
    let touched = touched_after(alloc, &leaving.touched, at, from.len())?;
    let bytes = if done {
        bytes_after(alloc, &leaving.bytes, at, from)?
    } else {
        Vec::from_slice(alloc, &leaving.bytes)?
    };
    Ok(Leaving {
        bytes,
        touched,
        least: leaving.least,
        reach: if leaving.reach < end {
            end
        } else {
            leaving.reach
        },
    })
}

/// Keeps what a crash in a call may leave.
fn remember(alloc: Global, now: &Leaving, past: &mut Vec<Leaving>) -> Result<(), NoMemory>
    ensures ok { OnOk result (map spread_of past.new.items ≡ map spread_of past.old.items ++ spread_of now.now ∷ []) }
    ensures err { OnErr result (past.new.items ≡ past.old.items) }
{
    let image = copy(alloc, now)?;
    past.push(image)?;
    Ok(())
}

/// Writes, where `done`, and keeps what a crash may leave.
fn remember_write(
    alloc: Global,
    now: &mut Leaving,
    past: &mut Vec<Leaving>,
    at: usize,
    from: &[u8],
    done: bool,
) -> Result<(), NoMemory>
    requires place { at ≤ length now.old.bytes.items }
    requires room { at + length from.now < 2 ^ 64 }
    ensures ok { OnOk result (IsWritten at from.now done (spread_of now.old) (spread_of now.new)) }
    ensures past { OnOk result (map spread_of past.new.items ≡ map spread_of past.old.items ++ spread_of now.new ∷ []) }
    ensures err { OnErr result (spread_of now.new ≡ spread_of now.old) }
    ensures past_err { OnErr result (past.new.items ≡ past.old.items) }
{
    let after = after_write(alloc, now, at, from, done)?;
    remember(alloc, &after, past)?;
    *now = after;
    Ok(())
}

/// All that a read gives is on the disk.
fn settle(now: &mut Leaving)
    ensures { spread_of now.new ≡ settled now.old.bytes.items }
{
    now.touched.clear();
    now.least = now.bytes.len();
    now.reach = now.bytes.len();
}

/// The count of faults rises, or stands at its end.
fn count(faults: &mut u64)
    ensures risen { HasRisen (Some last_count) faults.old faults.new }
    ensures no_fewer { faults.old ≤ faults.new }
{
    *faults = faults.saturating_add(1);
}

/// Whether the call of a number was told to fail.
fn is_told(failing: &[u64], number: u64) -> bool
    ensures { IsTrue result ↔ IsToFail failing.now number }
{
    number < u64::MAX && failing.contains(&number)
}

impl MemoryDisk {
    /// A disk with these bytes, whose calls of these numbers, from 0, fail.
    pub fn new(alloc: Global, bytes: Vec<u8>, failing: Vec<u64>) -> MemoryDisk
        ensures leaving { spread_of result.leaving ≡ settled bytes.items }
        ensures past { past_of result ≡ [] }
        ensures faults { result.faults ≡ 0 }
    {
        let size = bytes.len();
        MemoryDisk {
            leaving: Leaving {
                bytes,
                touched: Vec::new(alloc),
                least: size,
                reach: size,
            },
            past: Vec::new(alloc),
            failing,
            faults: 0,
            alloc,
        }
    }

    /// What a read gives.
    pub fn bytes(&self) -> &[u8]
        ensures { result.now ≡ (memory_state self.now).seen }
    {
        &self.leaving.bytes
    }

    /// A disk that a crash in the call of this number, or just after it, may leave; in a call that is a sync,
    /// one in it. Each byte that a write touched since the last sync that succeeded is `fill`. `None` where
    /// there was no such call, or no crash leaves this length.
    pub fn image(&self, call: u64, fill: u8, length: u64) -> Result<Option<MemoryDisk>, NoMemory>
        ensures there { IfOk result (λ o. is_some o ≡ is_there (past_of self.now) call length) }
        ensures painted { IfOk result (λ o. IfSome o (λ d. IsImageOf (past_of self.now) call fill length d.leaving.bytes.items)) }
        ensures left { IfOk result (λ o. IfSome o (λ d. LeftBy (drop call (past_of self.now)) d.leaving.bytes.items)) }
        ensures settled { IfOk result (λ o. IfSome o (λ d. spread_of d.leaving ≡ settled d.leaving.bytes.items)) }
    {
        if call >= self.past.len() as u64 {
            return Ok(None);
        }
        let kept = &self.past[call as usize];
        if length < kept.least as u64 {
            return Ok(None);
        }
        if (kept.reach as u64) < length {
            return Ok(None);
        }
        let bytes = match painted(
            self.alloc,
            &kept.bytes,
            &kept.touched,
            fill,
            length as usize,
        ) {
            Ok(bytes) => bytes,
            Err(error) => return Err(error),
        };
        Ok(Some(MemoryDisk::new(self.alloc, bytes, Vec::new(self.alloc))))
    }
}

impl Disk for MemoryDisk {
    ghost state = { memory_state };

    ghost last = { Some last_count };

    ghost clock = { memory_clock };

    fn length(&self) -> u64 {
        self.leaving.bytes.len() as u64
    }

    /// What was told to fail fails; a call that doesn't is kept.
    fn read_at(&mut self, at: u64, into: &mut [u8]) -> Result<(), Failed>
        requires { at + length into.old ≤ length (memory_state self.old).seen }
        ensures bytes { OnOk result (into.new ≡ take (length into.old) (drop at (memory_state self.old).seen)) }
        ensures rests { Rests (memory_state self.old) (memory_state self.new) }
        ensures counts { Counts (Some last_count) (memory_state self.old) (memory_state self.new) result }
        ensures told { IsToFail self.old.failing.items (length self.old.past.items) → IsErr result }
        ensures kept { OnOk result (past_of self.new ≡ past_of self.old ++ spread_of self.old.leaving ∷ []) }
    {
        let told = is_told(&self.failing, self.past.len() as u64);
        let Ok(()) = remember(self.alloc, &self.leaving, &mut self.past) else {
            count(&mut self.faults);
            return Err(Failed);
        };
        if told {
            count(&mut self.faults);
            return Err(Failed);
        }
        let (_, rest) = self.leaving.bytes.split_at(at as usize);
        let (bytes, _) = rest.split_at(into.len());
        into.copy_from_slice(bytes);
        Ok(())
    }

    /// What was told to fail fails, and leaves its range touched; a call that doesn't is kept.
    fn write_at(&mut self, at: u64, bytes: &[u8]) -> Result<(), Failed>
        requires { at ≤ length (memory_state self.old).seen }
        ensures writes { Writes at bytes.now (memory_state self.old) (memory_state self.new) result }
        ensures counts { Counts (Some last_count) (memory_state self.old) (memory_state self.new) result }
        ensures told { IsToFail self.old.failing.items (length self.old.past.items) → IsErr result }
        ensures kept { OnOk result (past_of self.new ≡ past_of self.old ++ spread_of self.new.leaving ∷ []) }
        ensures touched { OnOk result (IsWritten at bytes.now true (spread_of self.old.leaving) (spread_of self.new.leaving)) }
    {
        let told = is_told(&self.failing, self.past.len() as u64);
        let done = !told;
        let Ok(()) = remember_write(
            self.alloc,
            &mut self.leaving,
            &mut self.past,
            at as usize,
            bytes,
            done,
        ) else {
            count(&mut self.faults);
            return Err(Failed);
        };
        if told {
            count(&mut self.faults);
            return Err(Failed);
        }
        Ok(())
    }

    /// What was told to fail fails; a call that doesn't is kept with what a crash in it may leave.
    fn sync(&mut self) -> Result<(), Failed>
        ensures syncs { Syncs (memory_state self.old) (memory_state self.new) result }
        ensures counts { Counts (Some last_count) (memory_state self.old) (memory_state self.new) result }
        ensures told { IsToFail self.old.failing.items (length self.old.past.items) → IsErr result }
        ensures kept { OnOk result (past_of self.new ≡ past_of self.old ++ spread_of self.old.leaving ∷ []) }
        ensures settled { OnOk result (spread_of self.new.leaving ≡ settled self.old.leaving.bytes.items) }
    {
        let told = is_told(&self.failing, self.past.len() as u64);
        let Ok(()) = remember(self.alloc, &self.leaving, &mut self.past) else {
            count(&mut self.faults);
            return Err(Failed);
        };
        if told {
            count(&mut self.faults);
            return Err(Failed);
        }
        settle(&mut self.leaving);
        Ok(())
    }
}
