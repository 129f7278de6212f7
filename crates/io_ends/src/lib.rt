//! Bytes in and out: sources and sinks, their ends in memory and over std's readers and writers, and
//! the reader of lines.
//!
//! A `Source` may tell which bytes it has left, a `Sink` which bytes it took (`None` claims nothing);
//! both count their faults, and a call fails only where that count rose; where it has a `last` value it
//! may stand there. A `LineReader` is seen as a `Reading`: what it holds ahead, how much of the current
//! line it passed over, how many lines and bytes it gave, and its limits. Its contract speaks of the
//! text that it stands in (`StandsIn`).
//!
//! ```text
//! let mut reader = LineReader::new(alloc, 67_108_864, 50_000)?;
//! while let Next::Line { number } = reader.next(&mut source, &mut line) { .. }
//! ```
#![tactic(auto)]

pub mod ends;
mod fetching;
mod filling;
pub mod line_reader;
pub mod memory;
pub mod next;
pub mod sizes;
pub mod std_ends;
mod window;
pub mod writing;

pub use ends::{Failed, Sink, Source};
pub use line_reader::LineReader;
pub use memory::{MemorySink, MemorySource};
pub use next::{LimitKind, Next};
pub use sizes::{LONGEST, PIECE};
pub use std_ends::{StdSink, StdSource};
pub use writing::{WriteFault, write_all};
