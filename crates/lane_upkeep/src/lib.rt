//! A pass of upkeep: what the owner of a lane does under the newest state so that the lane comes to rest.
//!
//! Every row is to be complete at its targets and nowhere else, active, ready for searches, and neither too large
//! nor too small. What comes next is said by the machine of `pass_machine`, over the owner's rows and what answers and
//! rounds told it. Here a lane is driven by it, step by step:
//!
//! ```text
//! maintain            opens the state, and makes the pass
//!   make_pass         takes one step after the other until the machine is finished
//!     next_of         which step comes, and that the lane permits it
//!     say             one message, dealt with by its fate (telling)
//!     decide          one decision, at the owner's part and in the journal (deciding)
//!     note_acceptance that an active node accepted
//!     round           a round of one row, and what it told (rounding)
//! ```
//!
//! What a missing answer stops is left out, and the pass goes on. A node that wants memory ends it at once, as does
//! want of memory of the lane itself. Whatever happens, the lane keeps its journal legal: `IsPassing` in
//! `specs/Passing.antt` says what holds between two steps, `PassesOn` that the journal grew by events of the pass, and
//! `IsUnderWay` in `specs/UnderWay.antt` that what the machine was told is what the journal says.
//!
//! Where nothing is lost or late, each step leaves the pass where it stands in the abstract (`StandsOn` in
//! `specs/Quiet.antt`, the clauses `quiet`), which is a pass of `pass_model` at its end, and so `maintain` leaves the lane
//! at rest (`rest_laws`).
#![tactic(auto)]

pub mod deciding;
pub mod maintaining;
pub mod owner;
pub mod pass;
pub mod rest_laws;
pub mod rounding;
pub mod row_places;
pub mod steps;
pub mod telling;

pub use maintaining::maintain;
pub use owner::Owner;
pub use pass::make_pass;
