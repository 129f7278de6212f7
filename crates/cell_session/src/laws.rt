//! Laws of what sessions read; no function here does anything.

ghost use Rattle.std.specs.Prelude.{◌≡◌, ℕ, List, length};
ghost use Rattle.doc_types.specs.SchemaCodes.{Types};
ghost use Rattle.session_cluster.specs.Asking.{IsAsked};
ghost use Rattle.cell_session.specs.Ends.{AreFirst};
ghost use Rattle.session_cluster.specs.declared.asked.Asked.{Asked};

use query_text::laws::texts_say_one_query;

/// The bytes of a line ask for one thing, so the first so many lines of a text ask for these things and no others.
pub fn lines_ask_for_one_thing()
    ensures line { (types : Types) (bits : ℕ) (bytes : List ℕ) (a b : Asked) → IsAsked types bits bytes a
        → IsAsked types bits bytes b → a ≡ b }
    ensures first { (types : Types) (bits : ℕ) (text : List ℕ) (cs ds : List Asked) → AreFirst types bits text cs
        → AreFirst types bits text ds → length cs ≡ length ds → cs ≡ ds }
{
    texts_say_one_query();
}
