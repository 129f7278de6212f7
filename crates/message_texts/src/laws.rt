//! What a text says of messages; no function here does anything.

ghost use Rattle.std.specs.Prelude.{◌≡◌, ◌↔◌, ℕ, List, Some, None};
ghost use Rattle.doc_types.specs.SchemaCodes.{Types};
ghost use Rattle.messages.specs.declared.message.Message.{Message};
ghost use Rattle.message_texts.specs.Texts.{message_in, IsTextOf};

use document_ids::laws::ids_are_spelled;
use json_documents::laws::json_and_back;
use stamps::laws::texts_are_stamps;

/// A text is read as a message exactly where it is the text of that message and the schema allows it, and as
/// none exactly where it is the text of none.
pub fn texts_are_messages()
    ensures one { (types : Types) (text : List ℕ) (m : Message)
        → (message_in types text ≡ Some m) ↔ IsTextOf types m text }
    ensures none { (types : Types) (text : List ℕ)
        → (message_in types text ≡ None) ↔ ((m : Message) → IsTextOf types m text → ⊥) }
{
    ids_are_spelled();
    texts_are_stamps();
    json_and_back();
}
