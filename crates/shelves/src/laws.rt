//! Laws of shelves; no function here does anything.

ghost use Rattle.std.specs.Prelude.{◌≡◌, List, [], ◌∷◌, ◌++◌};
ghost use Rattle.view_changes.specs.declared.change.LaneChange.{LaneChange};
ghost use Rattle.shelves.specs.Shelves.{ShowsFirst, TakesFirst, Holds};

use crate::shelf::Shelf;

/// What was appended is what is shown, and then what is pending.
pub fn shelves_hold<H: Shelf>()
    // An append adds its change, and a publication leaves all that was appended.
    ensures appended { (old new : H) (c : LaneChange) (all : List LaneChange)
        → ShowsFirst (H.shows old) (H.shows new) (H.pending old ++ c ∷ []) (H.pending new)
        → Holds (H.shows old) (H.pending old) all → Holds (H.shows new) (H.pending new) (all ++ c ∷ []) }
    ensures published { (old new : H) (all : List LaneChange)
        → ShowsFirst (H.shows old) (H.shows new) (H.pending old) (H.pending new)
        → Holds (H.shows old) (H.pending old) all → Holds (H.shows new) (H.pending new) all }

    // Changes that are kept for a shelf come behind what was appended, however many of them it took.
    ensures settled { (old new : H) (kept left all : List LaneChange)
        → (t : TakesFirst (H.shows old) (H.shows new) (H.pending old) (H.pending new) kept left)
        → Holds (H.shows old) (H.pending old) all
        → Holds (H.shows new) (H.pending new) (all ++ t.gone) × ((all ++ t.gone) ++ left ≡ all ++ kept) }

    // Where nothing is pending, all that was appended is shown.
    ensures shown { (shelf : H) (all : List LaneChange) → H.pending shelf ≡ []
        → Holds (H.shows shelf) (H.pending shelf) all → H.shows shelf all }
{}
