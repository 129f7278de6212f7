//! A session at work, and the cluster that it leaves.
//!
//! A contract sees a `Cluster` as a `Cell`: the bits that tell its lanes apart, the states that were published, what each
//! lane is (its journal, newest event first, and the fates of its messages), how many lines were dealt with, how the
//! upkeep went that lines asked for, and how far searches read. Its lanes have no shelves. A `Session` is seen as a
//! `ShownCell`: the cell of the cluster that it would leave, and what the shelf of each lane has.
//!
//! `deal` deals with one line. A caller that deals with many at once takes the lanes out, puts them back, says up to which
//! line that dealt, and lets them settle; `answer` and `search_now` give the answers then.
//!
//! `specs/Steps.antt` says what one line makes of the cell, `specs/Deeds.antt` the same as deeds of each lane, and
//! `specs/Output.antt` with which bytes it is answered, read off the lanes.
//!
//! ```text
//! let mut session = open_session(alloc, &setting, &mut carriers)?;
//! session.deal(alloc, &setting, line, asked)?;
//! session.leave(&mut cluster);
//! ```
#![tactic(auto)]

pub mod asked;
pub mod cluster;
mod dealing;
mod every_lane;
mod maintaining;
pub mod searching;
pub mod session;

pub use asked::Asked;
pub use cluster::{Cluster, LineSpans, SpanList};
pub use searching::{FrontList, LineFronts};
pub use session::{Session, open_session};
