//! The law of queries; no function here does anything.

ghost use Rattle.std.specs.Prelude.{◌≡◌, ℕ, List};
ghost use Rattle.doc_types.specs.SchemaCodes.{Types};
ghost use Rattle.doc_types.specs.declared.symbols.Language.TheVariants as language;
ghost use Rattle.conditions.specs.Readings.{IsText, IsRefusedAt};
ghost use Rattle.query_text.specs.Grammar.{Said, IsQuery};

/// A text says one query at most, and it is refused at one place at most; one that is refused says none.
pub fn texts_say_one_query()
    ensures once { (types : Types) (text : List ℕ) (a b : Said) → IsText language.Query (IsQuery types) text a
        → IsText language.Query (IsQuery types) text b → a ≡ b }
    ensures refused { (types : Types) (text : List ℕ) (offset : ℕ) (said : Said)
        → IsRefusedAt language.Query (IsQuery types) text offset
        → IsText language.Query (IsQuery types) text said → ⊥ }
    ensures place { (types : Types) (text : List ℕ) (a b : ℕ) → IsRefusedAt language.Query (IsQuery types) text a
        → IsRefusedAt language.Query (IsQuery types) text b → a ≡ b }
{}
