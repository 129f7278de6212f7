//! How joins and splits go through the rows as they stand; no function here does anything.

ghost use Rattle.std.specs.Prelude.{◌≡◌, ◌+◌, ◌<◌, ◌≤◌, ◌||◌, ℕ, Bool, suc, length, List, Some, slice_get};
ghost use Rattle.std.specs.List.{remove};
ghost use Rattle.bucket_ids.specs.Buckets.{Low, IsBucket};
ghost use Rattle.pieces.specs.Pieces.{same_bucket};
ghost use Rattle.pass_model.specs.Rows.{Settings, Row};
ghost use Rattle.pass_model.specs.Passes.{World, AllRows, In, CanJoin, Joins, NoPair, Splits, NotFull};
ghost use Rattle.pass_model.specs.Resting.{AreApart};
ghost use Rattle.pass_model.specs.Sweeps.{Rises, fewer, after_split, AreSplitBefore, after_join, NoPairAbove, AreJoinedBefore};

/// Row after row, from the first place on: one that isn't full stays, and the next place comes; one that is full
/// goes, and its halves stand behind all that were looked at. So there is one row less of as many bits, and
/// when all places are behind no row is full.
pub fn splits_sweep()
    ensures begins { (s : Settings) (w : World) → AreSplitBefore s w w 0 }
    ensures stays { (s : Settings) (before w : World) (at : ℕ) (r : Row) → AreSplitBefore s before w at
        → slice_get w.rows at ≡ Some r → NotFull s r → AreSplitBefore s before w (suc at) }
    ensures goes_on { (s : Settings) (before w : World) (at : ℕ) (r : Row) → AreSplitBefore s before w at
        → slice_get w.rows at ≡ Some r → r.bucket.bits < 58 → s.split_at < r.documents
        → IsBucket r.bucket → Rises 0 w.rows → AreSplitBefore s before (after_split s r at w) at }
    ensures fewer { (s : Settings) (w : World) (at : ℕ) (r : Row) → slice_get w.rows at ≡ Some r
        → suc (fewer (r.bucket.bits + 1) (after_split s r at w).rows) ≡ fewer (r.bucket.bits + 1) w.rows }
    ensures ends { (s : Settings) (before w : World) (at : ℕ) → AreSplitBefore s before w at
        → length w.rows ≤ at → Splits s before w × AllRows (NotFull s) w.rows }
{}

/// Rows of the most bits first, and of as many bits one after the other: the first of a pair is joined with the
/// second, which stands behind it, and the parent comes before its place. So there is one row less of as many
/// bits or fewer, and after the last place no pair of as many bits is left; in the end there is none.
pub fn joins_sweep()
    ensures begins { (s : Settings) (before w : World) (made now : Low → Bool) (bits : ℕ) → AreApart w.rows
        → Rises 0 w.rows → Joins s before made w now → NoPairAbove s bits w.rows
        → AreJoinedBefore s before w made now bits (fewer bits w.rows) }
    ensures stays { (s : Settings) (before w : World) (made now : Low → Bool) (bits at : ℕ) (r : Row)
        → AreJoinedBefore s before w made now bits at → slice_get w.rows at ≡ Some r
        → ((p : Low) (b : Row) → In b w.rows → CanJoin s p r b → r.bucket.bits ≡ bits → ⊥)
        → AreJoinedBefore s before w made now bits (suc at) }
    ensures never_second { (s : Settings) (before w : World) (made now : Low → Bool) (bits at : ℕ) (r : Row)
        → AreJoinedBefore s before w made now bits at → Rises 0 w.rows → slice_get w.rows at ≡ Some r
        → r.bucket.bits ≡ bits → (p : Low) (a : Row) → In a w.rows → CanJoin s p a r → ⊥ }
    ensures goes_on { (s : Settings) (before w : World) (made now : Low → Bool) (at other : ℕ) (p : Low) (a b : Row)
        → slice_get w.rows at ≡ Some a → slice_get (remove w.rows at) other ≡ Some b → at ≤ other
        → CanJoin s p a b → AreApart w.rows → Rises 0 w.rows → IsBucket p
        → AreJoinedBefore s before w made now a.bucket.bits at
        → AreJoinedBefore s before (after_join s p a b at other w) made (λ c. same_bucket c p || now c)
        a.bucket.bits (suc at) }
    ensures fewer { (s : Settings) (w : World) (at other : ℕ) (p : Low) (a b : Row) → slice_get w.rows at ≡ Some a
        → slice_get (remove w.rows at) other ≡ Some b → CanJoin s p a b
        → suc (fewer (p.bits + 2) (after_join s p a b at other w).rows) ≡ fewer (p.bits + 2) w.rows }
    ensures ends { (s : Settings) (before w : World) (made now : Low → Bool) (bits at : ℕ)
        → AreJoinedBefore s before w made now bits at → AreApart w.rows → Rises 0 w.rows
        → fewer (bits + 1) w.rows ≤ at
        → (p : Low) (a b : Row) → In a w.rows → In b w.rows → CanJoin s p a b → a.bucket.bits < bits }
    ensures none_left { (s : Settings) (rows : List Row) → 1 ≤ s.lane_bits
        → ((p : Low) (a b : Row) → In a rows → In b rows → CanJoin s p a b → a.bucket.bits < 2)
        → NoPair s rows }
{}
