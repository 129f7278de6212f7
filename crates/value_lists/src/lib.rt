//! Lists and texts that contracts see as plain lists, and copies that may want memory.
//!
//! A `Listed<T>` is a `Vec<T>` whose capacity no clause can see: a contract sees the list of its
//! items, with each item as contracts see that. A `TextValue` is a `String`, seen as its bytes.
//! Where a type holds one of these, two of its values are equal exactly where their items are.
//!
//! ```text
//! pub type StampList = Listed<Stamp>;
//! let stamps = StampList::of(vec![in alloc; first, second]?);
//! let again = stamps.copy(alloc)?;
//! ```
#![tactic(auto)]

pub mod copies;
pub mod listed;
pub mod no_memory;
pub mod texts;

pub use copies::{TryCopy, copy_all};
pub use listed::Listed;
pub use no_memory::NoMemory;
pub use texts::TextValue;
