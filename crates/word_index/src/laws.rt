//! What an index is as a set of pairs; no function here does anything.

ghost use Rattle.std.specs.Prelude.{◌≡◌, ◌≢◌, ◌↔◌, ◌⊎◌, ℕ, List};
ghost use Rattle.std.specs.List.{Contains};
ghost use Rattle.word_index.specs.Index.{Index, IsIndex, list_of, with_word, without_word};

/// With a word more of a document an index has that pair and those before, with one less those before but that one.
pub fn lists_are_pairs()
    ensures with { (index : Index) (word other : List ℕ) (x y : ℕ) → IsIndex index
        → (Contains (list_of other (with_word word x index)) y
        ↔ (((other ≡ word) × (y ≡ x)) ⊎ Contains (list_of other index) y)) }
    ensures without { (index : Index) (word other : List ℕ) (x y : ℕ)
        → Contains (list_of other (without_word word x index)) y
        ↔ (Contains (list_of other index) y × (other ≡ word → y ≢ x)) }
{}
