//! Lists of active regions.

ghost use Rattle.std.specs.Prelude.{◌≡◌, ◌<◌, ◌^◌, ◌∷◌, filter, not, IfOk};
ghost use Rattle.std.specs.List.{list_any};
ghost use Rattle.bucket_ids.specs.Buckets.{covers};
ghost use Rattle.coverage.specs.Covering.{measure_of};
ghost use Rattle.view_changes.specs.Views.{in_regions, meets};
ghost use Rattle.view_changes.specs.Shown.{with_region};

use bucket_ids::Bucket;
use std::alloc::Global;
use value_lists::{NoMemory, copy_all};

/// Whether a key lies in a region.
pub fn have_key(regions: &[Bucket], key: u64) -> bool
    requires { key < 2 ^ 58 }
    ensures { result ≡ in_regions regions.now key }
{
    regions.iter().any(|region| region.contains(key))
}

/// Whether a region covers a bucket.
pub fn have_whole(regions: &[Bucket], bucket: Bucket) -> bool
    ensures { result ≡ list_any (λ r. covers r bucket) regions.now }
{
    regions.iter().any(|region| region.covers(bucket))
}

/// Whether a bucket and a region have a common key.
fn is_met(region: Bucket, bucket: Bucket) -> bool
    ensures { result ≡ meets bucket region }
{
    bucket.covers(region) || region.covers(bucket)
}

/// Whether a bucket has a common key with a region.
pub fn are_met(regions: &[Bucket], bucket: Bucket) -> bool
    ensures { result ≡ list_any (meets bucket) regions.now }
{
    regions.iter().any(|region| is_met(*region, bucket))
}

/// The sum of the measures.
pub fn measure_of(regions: &[Bucket]) -> u64
    requires { measure_of regions.now < 2 ^ 64 }
    ensures { result ≡ measure_of regions.now }
{
    let mut sum = 0;
    for region in regions {
        sum += region.measure();
    }
    sum
}

/// A bucket before the regions that aren't inside it.
pub fn regions_with(
    alloc: Global,
    bucket: Bucket,
    regions: &[Bucket],
) -> Result<Vec<Bucket>, NoMemory>
    ensures { IfOk result (λ all. all.items ≡ bucket ∷ filter (λ r. not (covers bucket r)) regions.now) }
{
    let mut all = Vec::new(alloc);
    all.push(bucket)?;
    for region in regions {
        if !bucket.covers(*region) {
            all.push(*region)?;
        }
    }
    Ok(all)
}

/// The regions after a bucket becomes one; inside a region none changes.
pub fn with_region(
    alloc: Global,
    regions: &[Bucket],
    bucket: Bucket,
) -> Result<Vec<Bucket>, NoMemory>
    ensures { IfOk result (λ all. all.items ≡ with_region bucket regions.now) }
{
    if have_whole(regions, bucket) {
        return copy_all(alloc, regions);
    }
    regions_with(alloc, bucket, regions)
}
