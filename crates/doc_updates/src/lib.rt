//! Updates: what a line changes of a document, field by field.
//!
//! A contract sees an `Update` as a finite map from field names to changes (`Changes` in
//! `specs/Updates.antt`). `specs/Effects.antt` says what a change makes of one value, and
//! `specs/Updates.antt` what an update makes of a document's fields: they are taken in the order of
//! their names, and the first fault decides.
//!
//! ```text
//! let update = Update::of(alloc, changes)?;               // `json_documents` reads one from JSON
//! let document = update.apply(alloc, &document)?;
//! ```
#![tactic(auto)]

pub mod change;
mod effects;
pub mod fault;
pub mod update;

pub use change::Change;
pub use fault::UpdateFault;
pub use update::Update;
