ghost use Rattle.std.specs.Prelude.{◌≡◌, ◌^◌, codes, Some, None, IfOk, IfSome, IsErrOf, IsUtf8, option_map};
ghost use Rattle.messages.specs.declared.message.Message.{Message as Said};
ghost use Rattle.serde_json.specs.View.{view};
ghost use Rattle.doc_types.specs.SchemaCodes.{Types};
ghost use Rattle.message_texts.specs.Fitting.{Fits};
ghost use Rattle.message_texts.specs.Parts.{number_at};
ghost use Rattle.message_texts.specs.Texts.{message_data, text_of, said_by, value_in, message_in, IsTextOf};

use crate::bodies::{body_in, body_members};
use crate::fault::MessageFault;
use crate::laws::texts_are_messages;
use crate::parts;
use doc_types::Schema;
use document_ids::laws::ids_are_spelled;
use json_documents::laws::json_and_back;
use messages::Message;
use serde_json::Value;
use stamps::laws::texts_are_stamps;
use std::alloc::Global;
use value_lists::NoMemory;

/// A message as a value.
fn message_value(alloc: Global, message: &Message) -> Result<Value, NoMemory>
    ensures { IfOk result (λ value. view value ≡ message_data message.now) }
{
    let mut members = body_members(alloc, &message.body)?;
    let lane = parts::number(u64::from(message.lane));
    parts::put(alloc, &mut members, "lane", lane)?;
    let receiver = parts::number(u64::from(message.receiver));
    parts::put(alloc, &mut members, "receiver", receiver)?;
    let sender = parts::number(u64::from(message.sender));
    parts::put(alloc, &mut members, "sender", sender)?;
    let version = parts::number(u64::from(message.version));
    parts::put(alloc, &mut members, "version", version)?;
    Ok(Value::Object(members))
}

/// The text of a message.
pub fn message_text(alloc: Global, message: &Message) -> Result<Vec<u8>, NoMemory>
    ensures text { IfOk result (λ text. text.items ≡ text_of message.now) }
    ensures utf8 { IfOk result (λ text. IsUtf8 text.items) }
    ensures reads { IfOk result (λ text. (types : Types) → Fits types message.now
        → message_in types text.items ≡ Some message.now) }
{
    ids_are_spelled();
    texts_are_stamps();
    json_and_back();
    let value = message_value(alloc, message)?;
    let text = value.to_vec(alloc)?;
    Ok(text)
}

/// A number of 8 bits under a key.
fn byte_at(value: &Value, name: &str) -> Option<u8>
    ensures { result ≡ number_at (2 ^ 8) name.now (view value.now) }
{
    match parts::number_at(value, name, 1 << 8) {
        Some(number) => Some(number as u8),
        None => None,
    }
}

/// The version under its key.
fn version_at(value: &Value) -> Option<u32>
    ensures { result ≡ number_at (2 ^ 32) (codes "version") (view value.now) }
{
    match parts::number_at(value, "version", 1 << 32) {
        Some(number) => Some(number as u32),
        None => None,
    }
}

/// The message that a value says.
fn said_by(alloc: Global, schema: &Schema, value: &Value) -> Result<Option<Message>, NoMemory>
    ensures value { IfOk result (λ message. message ≡ said_by schema.now (view value.now)) }
    ensures fits { IfOk result (λ message. IfSome message (Fits schema.now)) }
{
    let Some(version) = version_at(value) else {
        return Ok(None);
    };
    let Some(lane) = byte_at(value, "lane") else {
        return Ok(None);
    };
    let Some(sender) = byte_at(value, "sender") else {
        return Ok(None);
    };
    let Some(receiver) = byte_at(value, "receiver") else {
        return Ok(None);
    };
    match body_in(alloc, schema, value)? {
        Some(body) => Ok(Some(Message {
            version,
            lane,
            sender,
            receiver,
            body,
        })),
        None => Ok(None),
    }
}

/// What a text says in JSON; nothing where it is none.
fn value_of(alloc: Global, text: &[u8]) -> Result<Option<Value>, NoMemory>
    ensures { IfOk result (λ value. option_map view value ≡ value_in text.now) }
{
    match Value::from_slice(alloc, text) {
        Ok(value) => Ok(Some(value)),
        Err(error) => {
            if error.is_memory() {
                Err(NoMemory)
            } else {
                Ok(None)
            }
        }
    }
}

/// The message that a text is read as.
#[tactic(auto, unfolding(crate::specs::Texts::message_in))]
fn message_in(alloc: Global, text: &[u8], schema: &Schema) -> Result<Message, MessageFault>
    ensures message { IfOk result (λ message. message_in schema.now text.now ≡ Some message) }
    ensures none { IsErrOf result MessageFault.BadMessage → message_in schema.now text.now ≡ None }
{
    let Some(value) = value_of(alloc, text)? else {
        return Err(MessageFault::BadMessage);
    };
    let Some(message) = said_by(alloc, schema, &value)? else {
        return Err(MessageFault::BadMessage);
    };
    let again = message_text(alloc, &message)?;
    if again.as_slice() == text {
        Ok(message)
    } else {
        Err(MessageFault::BadMessage)
    }
}

/// The message of a text, by a schema; a text that is none's is a `BadMessage`.
pub fn read_message(alloc: Global, text: &[u8], schema: &Schema) -> Result<Message, MessageFault>
    ensures message { IfOk result (λ message. IsTextOf schema.now message text.now) }
    ensures reads { IfOk result (λ message. message_in schema.now text.now ≡ Some message) }

    // where the text isn't that of a message that the schema allows
    ensures bad { IsErrOf result MessageFault.BadMessage → (m : Said) → IsTextOf schema.now m text.now → ⊥ }
    ensures none { IsErrOf result MessageFault.BadMessage → message_in schema.now text.now ≡ None }
{
    texts_are_messages();
    message_in(alloc, text, schema)
}
