//! When a lane is at rest: definitions, and what of them is plain.
//!
//! `IsAtRest` in `specs/Rest.antt` says it of a lane's journal: under the state that was published last, just the targets of
//! each row have it, all are complete, one is active, the first ones are ready, no row holds too many documents, and no two
//! rows are to be joined. `pass_model` has the laws on how a lane comes to rest.
//!
//! ```text
//! targets_are_first_or_active();      // of the ideal order, whatever else it has
//! rows_rest_with_what_they_have();    // as many documents as are allowed are not too many
//! ```
#![tactic(auto)]

pub mod laws;
