//! The view of a lane that many readers read with no lock, each one published beginning of its changes.
//!
//! A `SharedShelf` is a shelf with seats for readers: what is published is shown to all of them at once. A `Seat` that
//! enters becomes a `Guard`, whose view stands still until it leaves. The changes of a shelf are one history, which only
//! grows; a `Front` is a beginning of it that was reached, and takes no memory but for its length. A seat remembers the
//! front that it saw or learnt, and never sees less. A contract sees a seat or a guard as the shelf that it is of with the
//! changes that it saw (`Known` in `specs/Seats.antt`), and a front as a history with its changes (`Beginning`).
//!
//! ```text
//! let (mut shelf, mut places) = SharedShelf::new(alloc, rt, view, 4)?;
//! let seat = places.seat()?;
//! shelf.append(change)?;            // pending
//! shelf.publish()?;                 // shown; waits for guards
//! let guard = seat.enter()?;        // waits for nobody
//! guard.view()                      // the opening view after that change, whatever is published now
//! guard.generation()                // 1
//! let seat = guard.leave();
//! ```
#![tactic(auto)]

mod face;
mod history;
mod places;
mod rule;
mod seat;
mod shared_shelf;

pub use face::ShelfId;
pub use history::{Front, Note};
pub use places::Places;
pub use seat::{Guard, Seat};
pub use shared_shelf::SharedShelf;
