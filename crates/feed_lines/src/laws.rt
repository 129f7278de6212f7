//! Laws of lines; no function here does anything.

ghost use Rattle.std.specs.Prelude.{◌≡◌, ◌==◌, ◌<◌, ◌≤◌, ◌^◌, ◌↔◌, ℕ, Bool, false, List, length, codes, Option, None, Some, Ok};
ghost use Rattle.std.specs.List.{list_any, AllByRecursion};
ghost use Rattle.node_sets.specs.Members.{has_node};
ghost use Rattle.carriers.specs.declared.fate.Fate.{Fate};
ghost use Rattle.serde_json.specs.Data.{Data};
ghost use Rattle.doc_types.specs.SchemaCodes.{Types};
ghost use Rattle.documents.specs.Fields.{Contents};
ghost use Rattle.doc_updates.specs.Updates.{Changes};
ghost use Rattle.conditions.specs.Formulas.{Formula};
ghost use Rattle.doc_selection.specs.declared.terms.Term.{Term};
ghost use Rattle.messages.specs.declared.operation.OpKind.TheVariants as kind;
ghost use Rattle.messages.specs.declared.operation.Operation.{Operation};
ghost use Rattle.feed_lines.specs.Lines.{Asks, IsLine, IsPut, IsUpdate, IsSearch, IsState, IsNodeLine, IsNet, IsBareLine};
ghost use Rattle.feed_lines.specs.Meaning.{data_said, line_said};
ghost use Rattle.feed_lines.specs.Values.{set_of, most_fates, IsFate};
ghost use Rattle.feed_lines.specs.declared.command.Command.TheVariants as command;
ghost use Rattle.feed_lines.specs.declared.keys.LineVerb.TheVariants as line;
ghost use Rattle.feed_lines.specs.declared.keys.Verb.TheVariants as verb;

/// A line asks for an operation exactly where all that its verb wants holds of it. A get has no condition
/// and no `create`, and a remove no `create`.
pub fn lines_are_operations()
    ensures put { (types : Types) (bits : ℕ) (d : Data) (id : List ℕ) (document : Contents)
        (condition : Option (Formula Term)) (create : Bool) (via : Option ℕ)
        → Asks types bits d id (kind.Put document) condition create via ↔ IsPut types d id document condition create via }
    ensures update { (types : Types) (bits : ℕ) (d : Data) (id : List ℕ) (changes : Changes)
        (condition : Option (Formula Term)) (create : Bool) (via : Option ℕ)
        → Asks types bits d id (kind.Update changes) condition create via ↔ IsUpdate types d id changes condition create via }
    ensures remove { (types : Types) (bits : ℕ) (d : Data) (id : List ℕ) (condition : Option (Formula Term))
        (create : Bool) (via : Option ℕ)
        → Asks types bits d id kind.Remove condition create via ↔ IsLine types verb.Remove d id condition create via }
    ensures get { (types : Types) (bits : ℕ) (d : Data) (id : List ℕ) (condition : Option (Formula Term)) (create : Bool) (via : Option ℕ)
        → Asks types bits d id kind.Get condition create via ↔ IsLine types verb.Get d id condition create via }

    ensures bare_get { (types : Types) (d : Data) (id : List ℕ) (condition : Option (Formula Term))
        (create : Bool) (via : Option ℕ)
        → IsLine types verb.Get d id condition create via → (condition ≡ None) × (create ≡ false) }
    ensures bare_remove { (types : Types) (d : Data) (id : List ℕ) (condition : Option (Formula Term))
        (create : Bool) (via : Option ℕ)
        → IsLine types verb.Remove d id condition create via → create ≡ false }
{}

/// A line asks a search exactly where the verb stands alone and its value is a text.
pub fn lines_are_searches()
    ensures query { (types : Types) (bits : ℕ) (d : Data) (text : List ℕ)
        → (data_said types bits d ≡ Ok (command.Search text)) ↔ IsSearch d text }
{}

/// A line asks for a state, a stop, a start, a plan of messages, upkeep or a barrier exactly where all that its verb wants
/// holds of it. The set of the distributors that don't hear has just the numbers of its list.
pub fn other_lines_are_settings()
    ensures state { (types : Types) (bits : ℕ) (d : Data) (text : List ℕ) (deaf : ℕ)
        → (data_said types bits d ≡ Ok (command.State text deaf)) ↔ IsState d text deaf }
    ensures stop { (types : Types) (bits : ℕ) (d : Data) (node : ℕ)
        → (data_said types bits d ≡ Ok (command.Stop node)) ↔ IsNodeLine line.Stop (codes "stop") d node }
    ensures start { (types : Types) (bits : ℕ) (d : Data) (node : ℕ)
        → (data_said types bits d ≡ Ok (command.Start node)) ↔ IsNodeLine line.Start (codes "start") d node }
    ensures net { (types : Types) (bits : ℕ) (d : Data) (lane : ℕ) (fates : List Fate)
        → (data_said types bits d ≡ Ok (command.Net lane fates)) ↔ IsNet bits d lane fates }
    ensures maintain { (types : Types) (bits : ℕ) (d : Data)
        → (data_said types bits d ≡ Ok command.Maintain) ↔ IsBareLine line.Maintain (codes "maintain") d }
    ensures barrier { (types : Types) (bits : ℕ) (d : Data)
        → (data_said types bits d ≡ Ok command.Barrier) ↔ IsBareLine line.Barrier (codes "barrier") d }

    ensures members { (nodes : List ℕ) (n : ℕ) → n < 32
        → has_node (set_of nodes) n ≡ list_any (λ node. n == node) nodes }
{}

/// What holds of each command, whatever its line: a put's document has the id of the operation, a get has no
/// condition, and each number is in its range.
pub fn commands_are_in_range()
    ensures own { (types : Types) (bits : ℕ) (bytes : List ℕ) (operation : Operation) (via : Option ℕ)
        (document : Contents) → line_said types bits bytes ≡ Ok (command.Feed operation via)
        → operation.kind ≡ kind.Put document → document.id ≡ operation.id }
    ensures plain { (types : Types) (bits : ℕ) (bytes : List ℕ) (operation : Operation) (via : Option ℕ)
        → line_said types bits bytes ≡ Ok (command.Feed operation via)
        → operation.kind ≡ kind.Get → operation.condition ≡ None }
    ensures via { (types : Types) (bits : ℕ) (bytes : List ℕ) (operation : Operation) (number : ℕ)
        → line_said types bits bytes ≡ Ok (command.Feed operation (Some number)) → number < 32 }
    ensures stop { (types : Types) (bits : ℕ) (bytes : List ℕ) (node : ℕ)
        → line_said types bits bytes ≡ Ok (command.Stop node) → node < 32 }
    ensures start { (types : Types) (bits : ℕ) (bytes : List ℕ) (node : ℕ)
        → line_said types bits bytes ≡ Ok (command.Start node) → node < 32 }
    ensures lane { (types : Types) (bits : ℕ) (bytes : List ℕ) (lane : ℕ) (fates : List Fate)
        → line_said types bits bytes ≡ Ok (command.Net lane fates) → bits < 8 → lane < 2 ^ bits }
    ensures fates { (types : Types) (bits : ℕ) (bytes : List ℕ) (lane : ℕ) (fates : List Fate)
        → line_said types bits bytes ≡ Ok (command.Net lane fates)
        → (length fates ≤ most_fates) × AllByRecursion IsFate fates }
{}
