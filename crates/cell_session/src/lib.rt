//! The session: lines in, reports out, and the cluster that they leave.
//!
//! `run_one` is the top call; its clauses carry what the product promises, each at a name of its own.
//! A contract sees a `Cluster` as a `Cell`: the bits that tell its lanes apart, the states that were published,
//! what each lane is (its journal, newest event first, and the fates of its messages), how many lines were dealt
//! with, and how the upkeep went that lines asked for. `specs/Operations.antt` says what each line did, by the deeds of `specs/Deeds.antt`,
//! `specs/Upkeep.antt` what became of upkeep,
//! `specs/Output.antt` with which bytes it is answered, read off the lanes, and `specs/Ends.antt` what each
//! status says.
//!
//! ```text
//! let mut cluster = Cluster::empty(alloc);
//! let status = run_one(alloc, &words, &mut source, &mut sink, &mut PlanCarriers, &mut cluster);
//! ```
//!
//! `run_many` does the same with feeders in threads, where the words choose some: they run the lines of a segment at once,
//! and the caller deals with the line that ends it. `specs/FedLines.antt` says what the lines did then, by the parts of
//! `session_segments`, and `specs/FedEnds.antt` what each status says. `run_program` calls the one or the other.
#![tactic(auto)]

mod answering;
mod counts;
pub mod feeding;
pub mod laws;
pub mod limits;
mod next_command;
mod next_segment;
pub mod program;
mod reporting;
pub mod running;
mod segment_answering;
pub mod status;

pub use feeding::run_many;
pub use lane_lives::UpkeepSpan;
pub use program::{exit_code, run_program, words_of};
pub use running::run_one;
pub use session_cluster::{Asked, Cluster, LineSpans, SpanList};
pub use status::Status;
pub use upkeep_spans::Upkeep;
