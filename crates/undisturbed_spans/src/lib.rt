//! Spans of a lane's journal in which nothing is lost or late, though messages may be taken twice, and a round in such a span, from
//! its beginning to what is noted of it; a crate of laws.
//!
//! `IsUndisturbed` of `upkeep_spans` says it of the events behind a journal; `GoesUndisturbed` in `specs/Undisturbed.antt` that a
//! script says which of their messages were taken twice. What is done in such a span is put together of what is done in its parts,
//! and what a message makes of the nodes there is what a pass says of it. `HasRounded` in `specs/Rounding.antt` says, message by
//! message, what a round made of the nodes: those that the union was sent to took it, and who was asked answered what it had before.
//!
//! ```text
//! undisturbed_spans_part();               // their parts are undisturbed
//! undisturbed_spans_have_scripts();       // a journal says which of its messages were taken twice
//! undisturbed_tellings_are_told();        // a message that a lane sends makes of the nodes what a pass says
//! undisturbed_reads_are_shown();          // a Read of a bucket changes none, and shows what its receiver has there
//! undisturbed_rounds_go_on();             // a round begins so and goes on so, and what all gave is the union
//! undisturbed_runs_round();               // so did the run of a round that a lane runs
//! undisturbed_rounds_are_noted();         // all answered, the targets took the union, and each node's pieces are shown
//! undisturbed_rounds_end();               // its targets took the union, and the owner knows how each node stood
//! ```
#![tactic(auto)]

pub mod ending;
pub mod noting;
pub mod rounds;
pub mod span_scripts;
pub mod spans;
pub mod tellings;
pub mod whole_runs;
