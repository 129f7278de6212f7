//! Laws of groups; no function here does anything.

ghost use Rattle.std.specs.Prelude.{◌≡◌, ℕ, ℤ, List, None, Some, if◌then◌else◌};
ghost use Rattle.std.specs.List.{AllByRecursion, list_any};
ghost use Rattle.std.specs.Int.Signed.{◌≤ℤ◌};
ghost use Rattle.std.specs.Ordering.{int_cmp, nat_cmp};
ghost use Rattle.std.specs.Cmp.Lexicographic.{slice_cmp};
ghost use Rattle.std.specs.FinMap as fin;
ghost use Rattle.doc_types.specs.declared.values.FieldValue.TheVariants.{Int, Text};
ghost use Rattle.doc_types.specs.declared.outputs.OutputKind.{OutputKind};
ghost use Rattle.documents.specs.Fields.{Contents};
ghost use Rattle.group_counts.specs.Numbers.{least, greatest};
ghost use Rattle.group_counts.specs.Keyed.{number_in, text_in, is_key, with_key, group_over, groups_by};

/// A number that some document has in the field has one group, that of the documents that have it; a number that none
/// has has no group. The same holds of texts.
pub fn groups_are_by_value()
    ensures numbers { (ks : List OutputKind) (field : List ℕ) (docs : List Contents) (z : ℤ)
        → fin.get (groups_by int_cmp Int ks (number_in field) docs) z
        ≡ (if list_any (λ d. is_key int_cmp z (number_in field d)) docs
        then Some (group_over ks (Int z) (with_key int_cmp (number_in field) z docs)) else None) }
    ensures texts { (ks : List OutputKind) (field : List ℕ) (docs : List Contents) (t : List ℕ)
        → fin.get (groups_by (slice_cmp nat_cmp) Text ks (text_in field) docs) t
        ≡ (if list_any (λ d. is_key (slice_cmp nat_cmp) t (text_in field d)) docs
        then Some (group_over ks (Text t) (with_key (slice_cmp nat_cmp) (text_in field) t docs)) else None) }
{}

/// A minimum is no greater than any of the numbers, and a maximum no less.
pub fn extremes_bound()
    ensures least { (zs : List ℤ) (m : ℤ) → least zs ≡ Some m → AllByRecursion (λ z. m ≤ℤ z) zs }
    ensures greatest { (zs : List ℤ) (m : ℤ) → greatest zs ≡ Some m → AllByRecursion (λ z. z ≤ℤ m) zs }
{}
