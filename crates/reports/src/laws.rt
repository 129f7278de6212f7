//! Laws of reports; no function here does anything.

ghost use Rattle.std.specs.Prelude.{◌≡◌, ℕ, true, List};
ghost use Rattle.doc_types.specs.SchemaCodes.{Types};
ghost use Rattle.doc_types.specs.declared.outputs.OutputKind.{OutputKind};
ghost use Rattle.documents.specs.Fields.{FieldMap};
ghost use Rattle.query_groups.specs.declared.answers.Group.{Group};
ghost use Rattle.json_documents.specs.Json.{fields_json};
ghost use Rattle.reports.specs.GroupText.{group_members};
ghost use Rattle.reports.specs.ReportText.{members_of, report_text};
ghost use Rattle.reports.specs.Telling.{are_rising, IsCount, IsOneObject, CanBe, as_told};
ghost use Rattle.reports.specs.declared.answer.Answer.{Answer};

/// Each report is one JSON object, its keys and those of a document's fields and of each group in rising order, and a
/// line feed; two different answers that a line can have never print alike, but for the counts of groups that its
/// query doesn't ask.
pub fn reports_tell_answers()
    ensures one_object { (types : Types) (asked : List OutputKind) (line : ℕ) (a : Answer) → IsCount line → CanBe types asked a
        → IsOneObject (report_text line a) (members_of line a) }
    ensures fields_rise { (fields : FieldMap) → are_rising (fields_json fields) ≡ true }
    ensures groups_rise { (group : Group) → are_rising (group_members group) ≡ true }
    ensures different { (types : Types) (asked : List OutputKind) (line : ℕ) (a b : Answer) → IsCount line
        → CanBe types asked a → CanBe types asked b
        → report_text line a ≡ report_text line b → as_told a ≡ as_told b }
{}
