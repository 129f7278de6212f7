//! What calls of a disk in memory answer and leave, and what a crash in each of them leaves.

use crate::disk::Disk;
use crate::keeping::keep;
use crate::memory::MemoryDisk;
use std::alloc::Global;
use std::test::Fail;
use value_lists::NoMemory;

/// The number of no call.
const NO_CALL: u64 = 99;

/// A call of a disk.
enum Call {
    /// Of so many bytes at a place.
    Read(u64, usize),
    Write(u64, &'static [u8]),
    Sync,
}

use Call::{Read, Sync, Write};

/// A disk with these bytes, whose call of this number fails.
fn disk_of(alloc: Global, bytes: &[u8], failing: u64) -> Result<MemoryDisk, NoMemory> {
    let bytes = Vec::from_slice(alloc, bytes)?;
    let failing = Vec::from_slice(alloc, &[failing])?;
    Ok(MemoryDisk::new(alloc, bytes, failing))
}

/// Reads, where the disk has so many bytes.
fn read(alloc: Global, disk: &mut MemoryDisk, at: u64, count: usize) -> Result<Vec<u8>, NoMemory> {
    let mut into = vec![in alloc; 0; count]?;
    let size = disk.length();
    if at > size || count as u64 > size - at {
        return Err(NoMemory);
    }
    match disk.read_at(at, &mut into) {
        Ok(()) => Ok(into),
        Err(_) => Err(NoMemory),
    }
}

/// Makes a call; whether it was well.
fn is_done(alloc: Global, disk: &mut MemoryDisk, call: &Call) -> bool {
    match call {
        Read(at, count) => read(alloc, disk, *at, *count).is_ok(),
        Write(at, bytes) => *at <= disk.length() && disk.write_at(*at, bytes).is_ok(),
        Sync => disk.sync().is_ok(),
    }
}

/// A disk after calls, and the number of the first of them that failed.
#[derive(Drop)]
struct Played {
    disk: MemoryDisk,
    failed: Option<usize>,
}

fn play(alloc: Global, bytes: &[u8], failing: u64, calls: &[Call]) -> Result<Played, NoMemory> {
    let mut disk = disk_of(alloc, bytes, failing)?;
    let mut failed = None;
    for at in 0..calls.len() {
        if !is_done(alloc, &mut disk, &calls[at]) && failed.is_none() {
            failed = Some(at);
        }
    }
    Ok(Played { disk, failed })
}

/// What a disk has, a write, and what a read gives then: within the bytes, at their front, up to their end, over it,
/// from it on, of nothing, and on a disk that has nothing.
const WRITES: &[(&[u8], u64, &[u8], &[u8])] = &[
    (b"abcdef", 2, b"XY", b"abXYef"),
    (b"abcdef", 0, b"XY", b"XYcdef"),
    (b"abcdef", 0, b"UVWXYZ", b"UVWXYZ"),
    (b"abcdef", 4, b"XY", b"abcdXY"),
    (b"abcdef", 5, b"XY", b"abcdeXY"),
    (b"abcdef", 6, b"XY", b"abcdefXY"),
    (b"abcdef", 3, b"", b"abcdef"),
    (b"abcdef", 6, b"", b"abcdef"),
    (b"", 0, b"XY", b"XY"),
    (b"", 0, b"", b""),
];

/// Whether a write leaves these bytes, and a read gives them.
fn leaves(
    alloc: Global,
    bytes: &[u8],
    at: u64,
    from: &[u8],
    wanted: &[u8],
) -> Result<bool, NoMemory> {
    let mut disk = disk_of(alloc, bytes, NO_CALL)?;
    if at > disk.length() || disk.write_at(at, from).is_err() {
        return Ok(false);
    }
    let given = read(alloc, &mut disk, 0, wanted.len())?;
    Ok(disk.length() == wanted.len() as u64 && disk.bytes() == wanted && given.as_slice() == wanted)
}

#[test]
fn what_a_write_leaves(rt: HostRuntime) -> Result<(), Fail> {
    let alloc = rt.alloc();
    for (bytes, at, from, wanted) in WRITES {
        assert!(rt; leaves(alloc, bytes, *at, from, wanted)?);
    }
    Ok(())
}

/// What a disk has, a place, and what a read of two bytes there gives.
const READS: &[(&[u8], u64, &[u8])] = &[
    (b"abcdef", 0, b"ab"),
    (b"abcdef", 3, b"de"),
    (b"abcdef", 4, b"ef"),
    (b"abcdef", 6, b""),
];

#[test]
fn what_a_read_gives(rt: HostRuntime) -> Result<(), Fail> {
    let alloc = rt.alloc();
    for (bytes, at, wanted) in READS {
        let mut disk = disk_of(alloc, bytes, NO_CALL)?;
        let given = read(alloc, &mut disk, *at, wanted.len())?;
        assert!(rt; given.as_slice() == *wanted);
    }
    Ok(())
}

/// Five calls on a disk with `FIRST`.
const FIRST: &[u8] = b"abcd";

const CALLS: &[Call] = &[Write(2, b"XYZ"), Sync, Read(0, 4), Write(0, b"Q"), Sync];

/// The call that fails, the first that did, and what a read gives in the end.
const FAULTS: &[(u64, Option<usize>, &[u8])] = &[
    (0, Some(0), b"Qbcd"),
    (1, Some(1), b"QbXYZ"),
    (2, Some(2), b"QbXYZ"),
    (3, Some(3), b"abXYZ"),
    (4, Some(4), b"QbXYZ"),
    (5, None, b"QbXYZ"),
    (NO_CALL, None, b"QbXYZ"),
];

#[test]
fn each_call_fails_in_turn(rt: HostRuntime) -> Result<(), Fail> {
    let alloc = rt.alloc();
    for (failing, failed, wanted) in FAULTS {
        let played = play(alloc, FIRST, *failing, CALLS)?;
        assert_eq!(rt; played.failed, *failed);
        assert!(rt; played.disk.bytes() == *wanted);
    }
    Ok(())
}

/// The call that fails, the call of a crash, the length that it leaves, and the file then, with `.` for each byte that
/// a write touched since the last sync that succeeded; none where no crash leaves that length.
const IMAGES: &[(u64, u64, u64, Option<&[u8]>)] = &[
    // A write past the end, and a crash in the sync behind it: the length lies between the old one and the new one.
    (NO_CALL, 0, 3, None),
    (NO_CALL, 0, 4, Some(b"ab..")),
    (NO_CALL, 0, 5, Some(b"ab...")),
    (NO_CALL, 0, 6, None),
    (NO_CALL, 1, 3, None),
    (NO_CALL, 1, 4, Some(b"ab..")),
    (NO_CALL, 1, 5, Some(b"ab...")),
    (NO_CALL, 1, 6, None),
    // After the sync all is on the disk, and of the next write only what it touched isn't.
    (NO_CALL, 2, 4, None),
    (NO_CALL, 2, 5, Some(b"abXYZ")),
    (NO_CALL, 2, 6, None),
    (NO_CALL, 3, 4, None),
    (NO_CALL, 3, 5, Some(b".bXYZ")),
    (NO_CALL, 3, 6, None),
    (NO_CALL, 4, 5, Some(b".bXYZ")),
    // There is no such call.
    (NO_CALL, 5, 5, None),
    (NO_CALL, NO_CALL, 5, None),
    // A write that fails touches its range and may leave its length, but a sync puts the old bytes on the disk.
    (0, 0, 3, None),
    (0, 0, 4, Some(b"ab..")),
    (0, 0, 5, Some(b"ab...")),
    (0, 1, 5, Some(b"ab...")),
    (0, 2, 4, Some(b"abcd")),
    (0, 2, 5, None),
    (0, 3, 4, Some(b".bcd")),
    // A sync that fails puts nothing on the disk.
    (1, 1, 4, Some(b"ab..")),
    (1, 2, 4, Some(b"ab..")),
    (1, 2, 5, Some(b"ab...")),
    (1, 3, 4, Some(b".b..")),
    (1, 3, 5, Some(b".b...")),
    (1, 4, 5, Some(b".b...")),
    (1, 5, 5, None),
    // A read that fails is a call too.
    (2, 2, 5, Some(b"abXYZ")),
    (2, 3, 5, Some(b".bXYZ")),
    (3, 3, 5, Some(b".bXYZ")),
    (3, 4, 5, Some(b".bXYZ")),
    (4, 4, 5, Some(b".bXYZ")),
    (4, 5, 5, None),
];

/// Whether a disk that a crash left is this file, with no call yet.
fn is_left(image: &MemoryDisk, wanted: &[u8]) -> Result<bool, NoMemory> {
    let size = image.length();
    let again = image.image(0, b'.', size)?;
    Ok(again.is_none() && size == wanted.len() as u64 && image.bytes() == wanted)
}

/// Whether a crash leaves just that.
fn is_image(
    disk: &MemoryDisk,
    call: u64,
    length: u64,
    wanted: Option<&[u8]>,
) -> Result<bool, NoMemory> {
    match (disk.image(call, b'.', length)?, wanted) {
        (Some(image), Some(file)) => is_left(&image, file),
        (None, None) => Ok(true),
        _ => Ok(false),
    }
}

#[test]
fn what_a_crash_leaves(rt: HostRuntime) -> Result<(), Fail> {
    let alloc = rt.alloc();
    for (failing, call, length, wanted) in IMAGES {
        let played = play(alloc, FIRST, *failing, CALLS)?;
        assert!(rt; is_image(&played.disk, *call, *length, *wanted)?);
    }
    Ok(())
}

/// The call that fails, whether `keep` is well, and what a read gives then.
const KEEPS: &[(u64, bool, &[u8])] = &[
    (NO_CALL, true, b"aXY"),
    (0, false, b"ab"),
    (1, false, b"aXY"),
    (2, true, b"aXY"),
];

/// Keeps two bytes behind the first one; whether that was well.
fn is_kept(disk: &mut MemoryDisk) -> bool {
    1 <= disk.length() && keep(disk, 1, b"XY").is_ok()
}

#[test]
fn what_is_kept(rt: HostRuntime) -> Result<(), Fail> {
    let alloc = rt.alloc();
    for (failing, kept, wanted) in KEEPS {
        let mut disk = disk_of(alloc, b"ab", *failing)?;
        assert_eq!(rt; is_kept(&mut disk), *kept);
        assert!(rt; disk.bytes() == *wanted);
    }
    Ok(())
}
