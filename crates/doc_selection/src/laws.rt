//! The law of selections; no function here does anything.

ghost use Rattle.std.specs.Prelude.{◌≡◌, ◌↔◌, ℕ, List, Some, None};
ghost use Rattle.doc_types.specs.SchemaCodes.{Types};
ghost use Rattle.doc_types.specs.declared.symbols.Language.TheVariants as language;
ghost use Rattle.conditions.specs.Readings.{IsText, IsRefusedAt};
ghost use Rattle.conditions.specs.Formulas.{Formula};
ghost use Rattle.doc_selection.specs.Grammar.{IsSelection};
ghost use Rattle.doc_selection.specs.Saying.{selection_in};
ghost use Rattle.doc_selection.specs.declared.terms.Term.{Term};

/// What a text says is what the grammar says of it, so a text says one selection at most; a text that is
/// refused somewhere says none.
pub fn selections_are_spelled()
    ensures spelled { (types : Types) (text : List ℕ) (formula : Formula Term)
        → (selection_in types text ≡ Some formula)
        ↔ IsText language.Selection (IsSelection types) text formula }
    ensures refused { (types : Types) (text : List ℕ) (offset : ℕ)
        → IsRefusedAt language.Selection (IsSelection types) text offset → selection_in types text ≡ None }
{}
