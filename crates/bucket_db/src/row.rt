ghost use Rattle.std.specs.Prelude.{◌≡◌, IfOk, map};
ghost use Rattle.bucket_ids.specs.Buckets.{IsBucket};
ghost use Rattle.bucket_ids.specs.Printed.{number_of};
ghost use Rattle.bucket_db.specs.Answers.{new_row};

use bucket_ids::Bucket;
use node_sets::NodeSet;
use std::alloc::Global;
use value_lists::NoMemory;

/// A Delete that has no answer yet. Its bucket stays when the row is split or joined.
#[derive(Clone, Copy, Debug, PartialEq, Eq)]
pub struct Deleting {
    pub bucket: Bucket,
    pub node: u8,
    pub serial: u64,
}

/// A row: a bucket of the lane, and what the distributor knows of it.
#[derive(Clone, Copy, Debug, PartialEq, Eq)]
pub struct Row {
    pub bucket: Bucket,
    /// The nodes that are complete members.
    pub complete: NodeSet,
    /// The active node, where it is decided.
    pub active: Option<u8>,
    /// Whether the active node accepted its activation.
    pub accepted: bool,
    /// The unanswered Delete.
    pub deleting: Option<Deleting>,
}

/// A row of which nothing is known.
pub fn new_row(bucket: Bucket) -> Row
    ensures { result ≡ new_row bucket }
{
    Row {
        bucket,
        complete: NodeSet::of(0),
        active: None,
        accepted: false,
        deleting: None,
    }
}

/// A new row for each bucket.
pub fn new_rows(alloc: Global, buckets: &[Bucket]) -> Result<Vec<Row>, NoMemory>
    ensures { IfOk result (λ rows. rows.items ≡ map new_row buckets.now) }
{
    let rows = buckets.iter().map(
        |bucket: &Bucket| -> Row
            ensures { result ≡ new_row bucket.now }
        { new_row(*bucket) },
    );
    Ok(rows.collect(alloc)?)
}

/// The bucket's number, `bits * 2^58 + low`.
pub fn number_of(bucket: Bucket) -> u64
    ensures value { result ≡ number_of bucket }
    ensures valid { IsBucket bucket }
{
    u64::from(bucket.bits()) * (1 << 58) + bucket.low()
}
