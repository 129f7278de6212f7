ghost use Rattle.std.specs.Prelude.{◌≡◌, ◌<◌, ◌≤◌, ◌^◌, length, take, true, false, slice_index_or, IfSome, IfNone, nat_lt, nat_le};
ghost use Rattle.std.specs.List.{list_any, position, AllWithin};
ghost use Rattle.std.specs.List.Sorted.{IsNonDecreasingBy};
ghost use Rattle.bucket_ids.specs.Buckets.{IsBucket};
ghost use Rattle.bucket_ids.specs.Paths.{first_path, last_path};
ghost use Rattle.pieces.specs.declared.piece.Piece.{Piece};
ghost use Rattle.pieces.specs.Pieces.{holds, does_meet, is_exactly, is_over, is_inside};
ghost use Rattle.pieces.specs.Places.{IsFirstOver, IsFirstMet, IsRun, IsRunInside, IsPlaceOf, is_behind, key_bucket};
ghost use Rattle.pieces.specs.Runs.{IsLaid};

use crate::Piece;
use crate::laws::runs_are_known;
use bucket_ids::Bucket;

/// Where the pieces begin whose runs end at a path or past it.
fn first_from(pieces: &[Piece], path: u64) -> usize
    requires rising { IsNonDecreasingBy (λ p. last_path p.bucket) pieces.now }
    ensures within { result ≤ length pieces.now }
    ensures before { AllWithin (λ p. last_path p.bucket < path) pieces.now 0 result }
    ensures from { AllWithin (λ p. path ≤ last_path p.bucket) pieces.now result (length pieces.now) }
{
    pieces.partition_point(
        |piece: &Piece| -> bool
            ensures { result ≡ nat_lt (last_path piece.now.bucket) path }
        { piece.bucket.run().1 < path },
    )
}

/// Where the pieces begin whose runs begin past a path.
fn first_past(pieces: &[Piece], path: u64) -> usize
    requires rising { IsNonDecreasingBy (λ p. first_path p.bucket) pieces.now }
    ensures within { result ≤ length pieces.now }
    ensures before { AllWithin (λ p. first_path p.bucket ≤ path) pieces.now 0 result }
    ensures past { AllWithin (λ p. path < first_path p.bucket) pieces.now result (length pieces.now) }
{
    pieces.partition_point(
        |piece: &Piece| -> bool
            ensures { result ≡ nat_le (first_path piece.now.bucket) path }
        { piece.bucket.run().0 <= path },
    )
}

/// From where to where the pieces lie that meet a bucket.
pub fn run_of(pieces: &[Piece], bucket: Bucket) -> (usize, usize)
    requires { IsLaid 0 pieces.now }
    ensures run { IsRun bucket pieces.now result.0 result.1 }
    ensures valid { IsBucket bucket }
{
    runs_are_known();
    let (first, last) = bucket.run();
    (first_from(pieces, first), first_past(pieces, last))
}

/// The place of the first piece that meets a bucket.
fn first_met(pieces: &[Piece], bucket: Bucket) -> Option<usize>
    requires { IsLaid 0 pieces.now }
    ensures some { IfSome result (IsFirstMet bucket pieces.now) }
    ensures none { IfNone result (list_any (does_meet bucket) pieces.now ≡ false) }
    ensures valid { IsBucket bucket }
{
    let (from, to) = run_of(pieces, bucket);
    if from < to { Some(from) } else { None }
}

/// Whether a piece meets a bucket.
pub fn is_met(pieces: &[Piece], bucket: Bucket) -> bool
    requires { IsLaid 0 pieces.now }
    ensures met { result ≡ list_any (does_meet bucket) pieces.now }
    ensures valid { IsBucket bucket }
{
    match first_met(pieces, bucket) {
        Some(_) => true,
        None => false,
    }
}

/// The bucket of one key.
pub fn key_bucket(key: u64) -> Bucket
    requires { key < 2 ^ 58 }
    ensures { result ≡ key_bucket key }
{
    Bucket::new(58, key)
}

/// Whether the piece at a place is a bucket.
fn is_at(pieces: &[Piece], at: usize, bucket: Bucket) -> bool
    requires { at < length pieces.now }
    ensures { (d : Piece) → result ≡ is_exactly bucket (slice_index_or pieces.now at d) }
{
    let there = pieces[at].bucket;
    there.bits() == bucket.bits() && there.low() == bucket.low()
}

/// Whether the piece at a place covers a bucket.
fn is_over_at(pieces: &[Piece], at: usize, bucket: Bucket) -> bool
    requires { at < length pieces.now }
    ensures { (d : Piece) → result ≡ is_over bucket (slice_index_or pieces.now at d) }
{
    pieces[at].bucket.covers(bucket)
}

/// Whether the piece at a place lies inside a bucket.
fn is_inside_at(pieces: &[Piece], at: usize, bucket: Bucket) -> bool
    requires { at < length pieces.now }
    ensures { (d : Piece) → result ≡ is_inside bucket (slice_index_or pieces.now at d) }
{
    bucket.covers(pieces[at].bucket)
}

/// The place of the piece that covers a bucket, where all are looked at.
fn scan_over(pieces: &[Piece], bucket: Bucket) -> Option<usize>
    ensures { result ≡ position (is_over bucket) pieces.now }
{
    pieces.iter().position(|piece| piece.bucket.covers(bucket))
}

/// The place of the piece that covers a bucket, where it is sought by the runs.
fn search_over(pieces: &[Piece], bucket: Bucket) -> Option<usize>
    requires { IsLaid 0 pieces.now }
    ensures some { IfSome result (IsFirstOver bucket pieces.now) }
    ensures none { IfNone result (list_any (is_over bucket) pieces.now ≡ false) }
{
    runs_are_known();
    let Some(at) = first_met(pieces, bucket) else {
        return None;
    };
    if is_over_at(pieces, at, bucket) {
        Some(at)
    } else {
        None
    }
}

/// The place of the piece that covers a bucket. To look at a few pieces takes less time than to reckon their
/// runs.
pub fn place_over(pieces: &[Piece], bucket: Bucket) -> Option<usize>
    requires { IsLaid 0 pieces.now }
    ensures some { IfSome result (IsFirstOver bucket pieces.now) }
    ensures none { IfNone result (list_any (is_over bucket) pieces.now ≡ false) }
    ensures valid { IsBucket bucket }
{
    // that it is a bucket is known once it is read
    let _bits = bucket.bits();
    if pieces.len() <= 16 {
        return scan_over(pieces, bucket);
    }
    search_over(pieces, bucket)
}

/// Whether a piece has a key.
pub fn has_key(pieces: &[Piece], key: u64) -> bool
    requires laid { IsLaid 0 pieces.now }
    requires small { key < 2 ^ 58 }
    ensures { result ≡ holds key pieces.now }
{
    match place_over(pieces, key_bucket(key)) {
        Some(_) => true,
        None => false,
    }
}

/// The place of the piece that is a bucket.
pub fn place_of(pieces: &[Piece], bucket: Bucket) -> Option<usize>
    requires { IsLaid 0 pieces.now }
    ensures some { IfSome result (IsPlaceOf bucket pieces.now) }
    ensures none { IfNone result (list_any (is_exactly bucket) pieces.now ≡ false) }
    ensures valid { IsBucket bucket }
{
    runs_are_known();
    let Some(at) = first_met(pieces, bucket) else {
        return None;
    };
    if is_at(pieces, at, bucket) {
        Some(at)
    } else {
        None
    }
}

/// From where to where the pieces lie that lie inside a bucket.
pub fn run_inside(pieces: &[Piece], bucket: Bucket) -> Option<(usize, usize)>
    requires { IsLaid 0 pieces.now }
    ensures some { IfSome result (λ run. IsRunInside bucket pieces.now run.0 run.1) }
    ensures none { IfNone result (list_any (is_inside bucket) pieces.now ≡ false) }
    ensures valid { IsBucket bucket }
{
    runs_are_known();
    let (from, to) = run_of(pieces, bucket);
    if from >= to {
        return None;
    }
    if is_inside_at(pieces, from, bucket) {
        Some((from, to))
    } else {
        None
    }
}

/// Where a further piece goes.
pub fn place_for(pieces: &[Piece], path: u64) -> usize
    requires { IsLaid 0 pieces.now }
    ensures within { result ≤ length pieces.now }
    ensures before { list_any (is_behind path) (take result pieces.now) ≡ false }
    ensures at { (d : Piece) → result < length pieces.now
        → is_behind path (slice_index_or pieces.now result d) ≡ true }
{
    first_past(pieces, path)
}
