//! Laws of rows; no function here does anything.

ghost use Rattle.std.specs.Prelude.{◌≡◌, ℕ, List, Some, None, true, false, if◌then◌else◌};
ghost use Rattle.std.specs.Str.{bytes_eq};
ghost use Rattle.documents.specs.Fields.{Contents};
ghost use Rattle.document_rows.specs.Rows.{Rows, has_row, document_of, replaced, without, put_free};

/// What a change of rows leaves.
pub fn rows_keep()
    ensures replaced { (d : Contents) (q : List ℕ) (rows : Rows) → has_row d.id rows ≡ true
        → document_of q (replaced d rows) ≡ (if bytes_eq d.id q then Some d else document_of q rows) }
    ensures put { (d : Contents) (q : List ℕ) (rows : Rows) → has_row d.id rows ≡ false
        → document_of q (put_free d rows) ≡ (if bytes_eq d.id q then Some d else document_of q rows) }
    ensures cleared { (id q : List ℕ) (rows : Rows)
        → document_of q (without id rows) ≡ (if bytes_eq id q then None else document_of q rows) }
{}
