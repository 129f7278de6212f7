ghost use Rattle.std.specs.Prelude.{◌≡◌};
ghost use Rattle.message_texts.specs.declared.fault.MessageFault.TheVariants as reason;

use thiserror::Error;
use value_lists::NoMemory;

/// Why a text gives no message.
#[derive(Clone, Copy, Debug, PartialEq, Eq, Error)]
pub enum MessageFault {
    /// The text isn't that of a message that the schema allows.
    #[error("no message")]
    BadMessage,
    #[error("out of memory")]
    NoMemory,
}

impl From<NoMemory> for MessageFault {
    ghost from_gives = { λ _ e. e ≡ reason.NoMemory };

    fn from(_error: NoMemory) -> MessageFault {
        MessageFault::NoMemory
    }
}
