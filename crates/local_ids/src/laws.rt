//! What rising lists are after a change; no function here does anything.

ghost use Rattle.std.specs.Prelude.{◌≡◌, ◌≢◌, ◌↔◌, ◌⊎◌, ℕ, List};
ghost use Rattle.std.specs.List.{Contains};
ghost use Rattle.std.specs.Ordering.{nat_cmp};
ghost use Rattle.std.specs.FinMap as fin;
ghost use Rattle.local_ids.specs.Rising.{IsRising, with_local, without_local, moved_local};

/// A list rises with an id more, and without an id.
pub fn lists_rise()
    ensures with { (x : ℕ) (xs : List ℕ) → IsRising xs → IsRising (with_local x xs) }
    ensures without { (x : ℕ) (xs : List ℕ) → IsRising xs → IsRising (without_local x xs) }
{}

/// An id more is that one and those before, an id less is those before but that one.
pub fn ids_are_told()
    ensures with { (x y : ℕ) (xs : List ℕ) → IsRising xs
        → (Contains (with_local x xs) y ↔ ((y ≡ x) ⊎ Contains xs y)) }
    ensures without { (x y : ℕ) (xs : List ℕ) → Contains (without_local x xs) y ↔ (Contains xs y × (y ≢ x)) }
    ensures moved { (x z y : ℕ) (xs : List ℕ) → IsRising xs → z ≢ x
        → (Contains (moved_local x z xs) y ↔ (((y ≡ z) × Contains xs x) ⊎ (Contains xs y × (y ≢ x)))) }
{}

/// The keys of a map with a value more, and without one.
pub fn keys_follow<T: Drop>()
    ensures rise { (m : fin.FinMap nat_cmp T) → IsRising (fin.keys m) }
    ensures with { (m : fin.FinMap nat_cmp T) (x : ℕ) (value : T)
        → fin.keys (fin.insert m x value) ≡ with_local x (fin.keys m) }
    ensures without { (m : fin.FinMap nat_cmp T) (x : ℕ) → fin.keys (fin.remove m x) ≡ without_local x (fin.keys m) }
{}
