//! Laws of measures; no function here does anything.

ghost use Rattle.std.specs.Prelude.{◌≡◌, ◌≤◌, ◌<◌, ◌^◌, ℕ, List};
ghost use Rattle.std.specs.List.{AllByRecursion};
ghost use Rattle.bucket_ids.specs.Buckets.{Low, IsBucket};
ghost use Rattle.coverage.specs.Covering.{times, measure_of, CoverOnce};

/// Buckets without a common key measure no more than all keys; where they measure just as much, each key
/// lies in one of them.
pub fn measures_cover()
    ensures bounded { (bs : List Low) → AllByRecursion IsBucket bs → CoverOnce bs → measure_of bs ≤ 2 ^ 58 }
    ensures whole { (bs : List Low) → AllByRecursion IsBucket bs → CoverOnce bs → measure_of bs ≡ 2 ^ 58
        → (key : ℕ) → key < 2 ^ 58 → times bs key ≡ 1 }
{}
