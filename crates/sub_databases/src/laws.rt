//! Laws of a node's parts; no function here does anything.

ghost use Rattle.std.specs.Prelude.{◌≡◌, ◌↔◌, ℕ, List, None, Some, true};
ghost use Rattle.std.specs.FinMap as fin;
ghost use Rattle.document_rows.specs.Rows.{has_row};
ghost use Rattle.sub_databases.specs.Parts.{Parts, AreParts, place_in};
ghost use Rattle.sub_databases.specs.declared.place.Place.TheVariants.{Ready, Nowhere};

/// The three parts together are the entries: a document is nowhere exactly where it has none. It is ready exactly where
/// the ready part has it.
pub fn parts_are_the_entries()
    ensures whole { (p : Parts) (id : List ℕ) → (place_in p id ≡ Nowhere) ↔ (fin.get p.entries id ≡ None) }
    ensures ready { (p : Parts) (id : List ℕ) → AreParts p → (place_in p id ≡ Ready) ↔ (has_row id p.rows ≡ true) }
{}
