ghost use Rattle.std.specs.Prelude.{◌≡◌, ℕ, ◌+◌, ◌*◌, ◌%◌, ◌^◌, ◌<◌, ◌≤◌, length, nat_lt, true, false, slice_get, Some, IsTrue, IsFalse, IfSome};
ghost use Rattle.std.specs.List.{AllWithin, count_by};
ghost use Rattle.bucket_ids.specs.Buckets.{has_key};
ghost use Rattle.bucket_ids.specs.Printed.{number_of};
ghost use Rattle.bucket_db.specs.Order.{RisesFrom};
ghost use Rattle.bucket_db.specs.Rows.{AreBuckets, buckets_of};
ghost use Rattle.bucket_db.specs.declared.row.Row.{Row};

use crate::row::{Row, number_of};

/// Where the rows of this or a greater number begin.
pub fn first_from(rows: &[Row], number: u64) -> usize
    requires rising { RisesFrom 0 (buckets_of rows.now) }
    ensures within { result ≤ length rows.now }
    ensures before { AllWithin (λ r. number_of r.bucket < number) rows.now 0 result }
    ensures from { AllWithin (λ r. number ≤ number_of r.bucket) rows.now result (length rows.now) }
{
    rows.partition_point(
        |row: &Row| -> bool
            ensures { result ≡ nat_lt (number_of row.now.bucket) number }
        { number_of(row.bucket) < number },
    )
}

/// The low bits of a key.
fn low_bits(key: u64, bits: u8) -> u64
    requires { bits ≤ 58 }
    ensures { result ≡ key % 2 ^ bits }
{
    key % (1 << bits)
}

/// The number of the bucket of this many bits that has the key.
fn number_with(bits: u8, key: u64) -> u64
    requires { bits ≤ 58 }
    ensures { result ≡ bits * 2 ^ 58 + key % 2 ^ bits }
{
    u64::from(bits) * (1 << 58) + low_bits(key, bits)
}

/// Whether the row of a place has this key.
fn has_at(rows: &[Row], at: usize, key: u64) -> bool
    requires { key < 2 ^ 58 }
    ensures yes { IsTrue result → IfSome (slice_get rows.now at) (λ row. has_key row.bucket key ≡ true) }
    ensures within { IsTrue result → at < length rows.now }
    ensures no { IsFalse result → (row : Row) → slice_get rows.now at ≡ Some row
        → has_key row.bucket key ≡ false }
{
    match rows.get(at) {
        Some(row) => row.bucket.contains(key),
        None => false,
    }
}

/// The place of the row that has this key: for each count of bits that rows have, the one number
/// that such a row would have is looked up.
pub fn place_of(rows: &[Row], key: u64) -> usize
    requires key { key < 2 ^ 58 }
    requires valid { AreBuckets (buckets_of rows.now) }
    requires rising { RisesFrom 0 (buckets_of rows.now) }
    requires one { count_by (λ b. has_key b key) (buckets_of rows.now) ≡ 1 }
    ensures within { result < length rows.now }
    ensures found { IfSome (slice_get rows.now result) (λ row. has_key row.bucket key ≡ true) }
    ensures only { (at : ℕ) (row : Row) → slice_get rows.now at ≡ Some row
        → has_key row.bucket key ≡ true → at ≡ result }
{
    let (Some(first), Some(last)) = (rows.first(), rows.last()) else {
        unreachable!();
    };
    for bits in first.bucket.bits()..last.bucket.bits() + 1 {
        let at = first_from(rows, number_with(bits, key));
        if has_at(rows, at, key) {
            return at;
        }
    }
    unreachable!()
}
