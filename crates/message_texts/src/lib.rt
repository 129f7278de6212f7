//! The text of a message: compact JSON with its keys in rising order, read again as that message alone.
//!
//! A contract sees a text as its bytes. `text_of` in `specs/Texts.antt` is the text of a message, `message_in` the message
//! of a text by a schema, and `Fits` in `specs/Fitting.antt` says which messages a schema allows. A reader decodes what
//! the JSON says, prints that again, and takes it only where the bytes are the same: so no other order of the keys, no
//! blank and no further key is read. `IsTextOf` says that a text in UTF-8 is that of a message that the schema allows;
//! `texts_are_messages` says that a text is read as a message exactly where it is its text, and as none exactly where it
//! is none's.
//!
//! ```text
//! let text = message_text(alloc, &message)?;     // {"body":"ask","lane":0,"receiver":3,"sender":0,"version":1}
//! read_message(alloc, &text, &schema)?           // the same message
//! ```
#![tactic(auto)]

mod bodies;
mod entries;
pub mod fault;
mod fitting;
pub mod laws;
mod listing;
pub mod message;
mod parts;

pub use fault::MessageFault;
pub use message::{message_text, read_message};
