//! Laws of places; no function here does anything.

ghost use Rattle.std.specs.Prelude.{◌≡◌, ◌&&◌, ◌||◌, Bool, not};
ghost use Rattle.documents.specs.Fields.{Contents};
ghost use Rattle.document_rows.specs.Rows.{Rows};
ghost use Rattle.document_rows.specs.Reading.{places_where};
ghost use Rattle.match_views.specs.Merging.{joined, cut, lacking};

/// Of the places of documents that pass two tests, these are the places of those that pass either, both, and the
/// first and not the second.
pub fn places_are_tested()
    ensures joined { (p q : Contents → Bool) (rows : Rows)
        → joined (places_where p rows) (places_where q rows) ≡ places_where (λ d. p d || q d) rows }
    ensures cut { (p q : Contents → Bool) (rows : Rows)
        → cut (places_where p rows) (places_where q rows) ≡ places_where (λ d. p d && q d) rows }
    ensures lacking { (p q : Contents → Bool) (rows : Rows)
        → lacking (places_where p rows) (places_where q rows) ≡ places_where (λ d. p d && not (q d)) rows }
{}
