//! Laws of measures and of the order of paths; no function here does anything.

ghost use Rattle.std.specs.Prelude.{◌≡◌, ◌↔◌, ℕ, ◌+◌, ◌^◌, ◌<◌, ◌≤◌};
ghost use Rattle.bucket_ids.specs.Buckets.{Low, IsBucket, IsIn, measure, first_child, second_child};
ghost use Rattle.bucket_ids.specs.Paths.{path, span, first_path, last_path};

/// The measures of two children add up to their parent's.
pub fn measures_add_up()
    ensures { (b : Low) → IsBucket b → b.bits < 58
        → measure (first_child b) + measure (second_child b) ≡ measure b }
{}

/// A key lies in a bucket exactly where its path lies in the bucket's run; no run passes the end of
/// the numbers; two keys of one path are one key.
pub fn buckets_are_runs()
    ensures run { (b : Low) (key : ℕ) → IsBucket b → key < 2 ^ 58
        → IsIn b key ↔ ((first_path b ≤ path key) × (path key ≤ last_path b)) }
    ensures within { (b : Low) → IsBucket b → last_path b < 2 ^ 64 }
    ensures apart { (a b : ℕ) → a < 2 ^ 58 → b < 2 ^ 58 → path a ≡ path b → a ≡ b }
{}

/// The first child's run is the first half of the bucket's run, the second child's run the other.
pub fn runs_of_children()
    ensures first { (b : Low) → IsBucket b → b.bits < 58 → first_path (first_child b) ≡ first_path b }
    ensures seam { (b : Low) → IsBucket b → b.bits < 58
        → first_path (second_child b) ≡ last_path (first_child b) + 1 }
    ensures last { (b : Low) → IsBucket b → b.bits < 58 → last_path (second_child b) ≡ last_path b }
{}
