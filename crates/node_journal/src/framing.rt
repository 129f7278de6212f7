ghost use Rattle.std.specs.Prelude.{◌≡◌, ◌<◌, ◌≤◌, ◌+◌, ◌^◌, [], ◌∷◌, ◌++◌, length, Some, IfOk, IfErr};
ghost use Rattle.doc_types.specs.SchemaCodes.{Types};
ghost use Rattle.message_texts.specs.Fitting.{Fits};
ghost use Rattle.message_texts.specs.Texts.{message_in, text_of};
ghost use Rattle.node_journal.specs.Files.{record_of};
ghost use Rattle.node_journal.specs.Taking.{IsNoRecord, IsFramed};

use crate::faults::JournalFault;
use message_texts::message_text;
use messages::Message;
use std::alloc::Global;

/// The byte of a gate that is open.
pub const OPEN: u8 = 1;

/// The byte of a closed gate.
pub const CLOSED: u8 = 0;

/// An open gate, the record of a message, and a closed gate, where the file has room for them at `end`.
pub fn framed(
    alloc: Global,
    message: &Message,
    end: u64,
    max_bytes: u64,
) -> Result<Vec<u8>, JournalFault>
    requires most { max_bytes < 2 ^ 32 }
    requires end { end < max_bytes }
    ensures framed { IfOk result (λ r. IsFramed (text_of message.now) end max_bytes r.items) }
    ensures reads { IfOk result (λ _. (types : Types) → Fits types message.now
        → message_in types (text_of message.now) ≡ Some message.now) }
    ensures none { IfErr result (IsNoRecord (text_of message.now) end max_bytes) }
{
    let text = message_text(alloc, message)?;
    let size = text.len() as u64;
    let room = max_bytes - end;
    if room < 6 {
        return Err(JournalFault::Full);
    }
    if room - 6 < size {
        return Err(JournalFault::Full);
    }
    let Ok(count) = u32::try_from(size) else {
        return Err(JournalFault::Full);
    };
    let mut frame = Vec::from_slice(alloc, &[OPEN])?;
    frame.extend_from_slice(&count.to_le_bytes())?;
    frame.extend_from_slice(&text)?;
    frame.push(CLOSED)?;
    Ok(frame)
}
