//! A storage node's messages on a disk, so that it finds them again after a crash.
//!
//! The file begins with a gate byte. A record stands behind a gate: the length of its text as four bytes, the least first,
//! the text of a message (`message_texts`), and the next gate. A gate is open if it is 1, and the file stands for the
//! messages of its records up to the first gate that isn't open (`recorded` in `specs/Journals.antt`, over what a read of
//! the disk gives); what stands behind that gate is left over from a crash. A take writes the record with a closed next
//! gate, syncs, opens the gate before it, and syncs.
//!
//! A contract sees a `JournaledNode` as a `Journaled`: node, disk, schema, limit, the place of the gate behind its records,
//! and whether it is shut. `Holds` says that it took these messages from the start, in order, and that every crash leaves
//! a file that records just them; each call says what it makes of that and what a crash at any moment in it may leave.
//! `damage_is_so` says what stands where a file is called damaged.
//! `nothing_told_is_lost` (`specs/Histories.antt`) says of every history of openings, takes and crashes that the file
//! records all messages of which a take told so.
//!
//! ```text
//! let mut node = JournaledNode::open(alloc, &schema, disk, 1 << 20)?;
//! node.take(&message)?.reply        // at Ok it is on the disk, unless the reply is Newer or NoMemory
//! node.node().entries()
//! ```
#![tactic(auto)]

mod adding;
pub mod causes;
pub mod faults;
mod framing;
pub mod histories;
pub mod journaled_node;
pub mod laws;
mod records;
mod replaying;

pub use causes::OpenCause;
pub use faults::JournalFault;
pub use histories::nothing_told_is_lost;
pub use journaled_node::{JournaledNode, OpenFault};
