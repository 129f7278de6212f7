ghost use Rattle.std.specs.Prelude.{◌≡◌, ℕ, List, Err};
ghost use Rattle.doc_types.specs.SchemaCodes.{Types};
ghost use Rattle.node_journal.specs.Journals.{recorded, IsDamaged};

use message_texts::laws::texts_are_messages;

/// Where a file is called damaged, a gate is open, and no whole record of a message stands behind it that the
/// schema allows.
pub fn damage_is_so()
    ensures { (schema : Types) (file : List ℕ) (at : ℕ)
        → recorded schema file ≡ Err at → IsDamaged schema file at }
{
    texts_are_messages();
}
