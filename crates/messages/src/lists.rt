use bucket_ids::Bucket;
use stamps::Stamp;
use value_lists::Listed;

/// Stamps in rising order.
pub type StampList = Listed<Stamp>;

/// Buckets.
pub type BucketList = Listed<Bucket>;
