//! Reports: the line of output that answers a line of input.
//!
//! An `Answer` says what a line is answered; `report` gives its bytes: one compact JSON object with its
//! keys in rising byte order, and a line feed. `specs/ReportText.antt` gives the members of each answer's
//! object, and `laws` says that different answers never print alike.
//!
//! ```text
//! report(alloc, 1, &Answer::Acked { stamp })?    // {"line":1,"result":"acked","stamp":"1:1"}
//! ```
#![tactic(auto)]

pub mod answer;
mod fields;
mod groups;
pub mod laws;
pub mod reports;

pub use answer::Answer;
pub use reports::{report, usage_report};
