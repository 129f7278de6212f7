ghost use Rattle.std.specs.Prelude.{◌≡◌, ◌≤◌, ◌-◌, ◌++◌, OnOk, OnErr, true, false, length};
ghost use Rattle.std.specs.List.{list_any, splice};
ghost use Rattle.bucket_ids.specs.Buckets.{IsBucket};
ghost use Rattle.pieces.specs.Pieces.{parts, split_at, join_at, apply_at, is_over, is_inside};
ghost use Rattle.pieces.specs.Places.{IsFirstOver, IsRunInside};
ghost use Rattle.pieces.specs.Runs.{IsLaid};

use crate::Piece;
use crate::places::{place_for, place_over, run_inside};
use bucket_ids::Bucket;
use std::alloc::Global;
use value_lists::NoMemory;

/// Adds the parts into which a bucket is split until another is one of them.
fn push_parts(
    all: &mut Vec<Piece>,
    from: Bucket,
    to: Bucket,
    serial: u64,
    ready: bool,
) -> Result<(), NoMemory>
    requires { from.bits ≤ to.bits }
    ensures { OnOk result (all.new.items ≡ all.old.items ++ parts (to.bits - from.bits) from to serial ready) }
{
    if from.bits() == to.bits() {
        all.push(Piece {
            bucket: from,
            serial,
            ready,
        })?;
        return Ok(());
    }
    let (first, second) = from.children();
    if first.covers(to) {
        push_parts(all, first, to, serial, ready)?;
        all.push(Piece {
            bucket: second,
            serial,
            ready,
        })?;
        return Ok(());
    }
    all.push(Piece {
        bucket: first,
        serial,
        ready,
    })?;
    push_parts(all, second, to, serial, ready)
}

/// Puts others in the place of the pieces from one place to another; those behind are moved, none is copied.
fn replace_between(
    pieces: &mut Vec<Piece>,
    from: usize,
    to: usize,
    others: Vec<Piece>,
) -> Result<(), NoMemory>
    requires rising { from ≤ to }
    requires within { to ≤ length pieces.old.items }
    ensures ok { OnOk result (pieces.new.items ≡ splice pieces.old.items from to others.items) }
    ensures err { OnErr result (pieces.new.items ≡ pieces.old.items) }
{
    pieces.splice(from..to, others)?;
    Ok(())
}

/// Splits the piece at a place, which covers a bucket, until the bucket is a piece.
pub fn split_pieces(
    alloc: Global,
    pieces: &mut Vec<Piece>,
    at: usize,
    bucket: Bucket,
    serial: u64,
) -> Result<(), NoMemory>
    requires { IsFirstOver bucket pieces.old.items at }
    ensures ok { OnOk result (pieces.new.items ≡ split_at bucket serial pieces.old.items) }
    ensures err { OnErr result (pieces.new.items ≡ pieces.old.items) }
{
    let piece = pieces[at];
    let mut parts = Vec::new(alloc);
    push_parts(&mut parts, piece.bucket, bucket, serial, piece.ready)?;
    replace_between(pieces, at, at + 1, parts)
}

/// Whether any of the pieces is ready.
fn is_any_ready(pieces: &[Piece]) -> bool
    ensures { result ≡ list_any (λ p. p.ready) pieces.now }
{
    for piece in pieces {
        if piece.ready {
            return true;
        }
    }
    false
}

/// Makes the pieces inside a bucket one.
pub fn join_pieces(
    alloc: Global,
    pieces: &mut Vec<Piece>,
    from: usize,
    to: usize,
    bucket: Bucket,
    serial: u64,
) -> Result<(), NoMemory>
    requires { IsRunInside bucket pieces.old.items from to }
    ensures ok { OnOk result (pieces.new.items ≡ join_at bucket serial pieces.old.items) }
    ensures err { OnErr result (pieces.new.items ≡ pieces.old.items) }
{
    let ready = is_any_ready(&pieces[from..to]);
    let mut joined = Vec::new(alloc);
    joined.push(Piece {
        bucket,
        serial,
        ready,
    })?;
    replace_between(pieces, from, to, joined)
}

/// Adds a piece, which isn't ready.
fn add_piece(pieces: &mut Vec<Piece>, bucket: Bucket, serial: u64) -> Result<(), NoMemory>
    requires laid { IsLaid 0 pieces.old.items }
    requires over { list_any (is_over bucket) pieces.old.items ≡ false }
    requires inside { list_any (is_inside bucket) pieces.old.items ≡ false }
    ensures ok { OnOk result (pieces.new.items ≡ apply_at bucket serial pieces.old.items) }
    ensures err { OnErr result (pieces.new.items ≡ pieces.old.items) }
{
    let at = place_for(pieces, bucket.run().0);
    pieces.insert(
        at,
        Piece {
            bucket,
            serial,
            ready: false,
        },
    )?;
    Ok(())
}

/// Makes a bucket one of the pieces.
pub fn make_piece(
    alloc: Global,
    pieces: &mut Vec<Piece>,
    bucket: Bucket,
    serial: u64,
) -> Result<(), NoMemory>
    requires { IsLaid 0 pieces.old.items }
    ensures ok { OnOk result (pieces.new.items ≡ apply_at bucket serial pieces.old.items) }
    ensures err { OnErr result (pieces.new.items ≡ pieces.old.items) }
    ensures valid { IsBucket bucket }
{
    if let Some(at) = place_over(pieces, bucket) {
        return split_pieces(alloc, pieces, at, bucket, serial);
    }
    if let Some((from, to)) = run_inside(pieces, bucket) {
        return join_pieces(alloc, pieces, from, to, bucket, serial);
    }
    add_piece(pieces, bucket, serial)
}
