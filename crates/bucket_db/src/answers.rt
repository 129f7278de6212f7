ghost use Rattle.std.specs.Prelude.{◌≡◌, ◌<◌, IfOk, OnOk, IsTrue};
ghost use Rattle.std.specs.List.{filter};
ghost use Rattle.bucket_ids.specs.Buckets.{IsBucket};
ghost use Rattle.bucket_ids.specs.Printed.{number_of};
ghost use Rattle.bucket_db.specs.Answers.{is_inside, divides, IsCoarsest};
ghost use Rattle.bucket_db.specs.Rows.{AreBuckets, AreRising};
ghost use Rattle.bucket_db.specs.Dividing.{IsDivided};

use crate::row::number_of;
use bucket_ids::Bucket;
use std::alloc::Global;
use value_lists::NoMemory;

/// Whether the second bucket lies strictly inside the first.
fn is_inside(bucket: Bucket, answer: Bucket) -> bool
    ensures test { result ≡ is_inside bucket answer }
    ensures deep { IsTrue result → bucket.bits < 58 }
{
    bucket.bits() < answer.bits() && bucket.covers(answer)
}

/// Whether some answer lies strictly inside the bucket.
fn divides(answers: &[Bucket], bucket: Bucket) -> bool
    ensures test { result ≡ divides answers.now bucket }
    ensures deep { IsTrue result → bucket.bits < 58 }
    ensures valid { IsBucket bucket }
{
    // that it is a bucket is known once its bits are read
    let _bits = bucket.bits();
    for answer in answers {
        if is_inside(bucket, *answer) {
            return true;
        }
    }
    false
}

/// The answers that lie strictly inside the bucket.
fn inside(alloc: Global, bucket: Bucket, answers: &[Bucket]) -> Result<Vec<Bucket>, NoMemory>
    ensures { IfOk result (λ all. all.items ≡ filter (is_inside bucket) answers.now) }
{
    let mut all = Vec::new(alloc);
    for answer in answers {
        if is_inside(bucket, *answer) {
            all.push(*answer)?;
        }
    }
    Ok(all)
}

/// The fewest parts of the bucket such that no answer lies strictly inside one.
fn parts_of(alloc: Global, bucket: Bucket, answers: &[Bucket]) -> Result<Vec<Bucket>, NoMemory>
    ensures { IfOk result (λ parts. IsDivided bucket answers.now parts.items) }
{
    let mut parts = Vec::new(alloc);
    if !divides(answers, bucket) {
        parts.push(bucket)?;
        return Ok(parts);
    }
    let (first, second) = bucket.children();
    let firsts = inside(alloc, first, answers)?;
    let seconds = inside(alloc, second, answers)?;
    parts = parts_of(alloc, first, &firsts)?;
    parts.extend_from_slice(&parts_of(alloc, second, &seconds)?)?;
    Ok(parts)
}

/// The buckets of the rows that the answers give, in rising number.
pub fn buckets_of(alloc: Global, lane: Bucket, answers: &[Bucket]) -> Result<Vec<Bucket>, NoMemory>
    ensures coarsest { IfOk result (λ buckets. IsCoarsest lane answers.now buckets.items) }
    ensures valid { IfOk result (λ buckets. AreBuckets buckets.items) }
    ensures rising { IfOk result (λ buckets. AreRising buckets.items) }
    ensures lane { OnOk result (IsBucket lane) }
{
    let mut buckets = parts_of(alloc, lane, answers)?;
    buckets.sort_unstable_by_key(
        |bucket: &Bucket| -> u64
            ensures { result ≡ number_of bucket.now }
        { number_of(*bucket) },
    );
    Ok(buckets)
}
