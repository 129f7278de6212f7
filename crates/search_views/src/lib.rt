//! What a search answers over the views of several lanes: how many documents it found, how many keys it covered, and the
//! groups.
//!
//! `search_answer` (`specs/Answers.antt`) says it of a query, a version and a list of views: the documents of the nodes that
//! are at the version and aren't stopped, of which the query is true, in the order of views, nodes and local ids; how many
//! they are; the sum of the measures of these nodes' regions; and the groups of these documents. `SearchSum` takes one view
//! after the other, and `IsSummed` (`specs/Summed.antt`) says which it has.
//!
//! ```text
//! let mut sum = SearchSum::new(alloc, &query, 3);
//! sum.add(alloc, &view)?;     // of each lane
//! sum.finish(alloc)?          // SearchAnswer { version: 3, count: 2, covered: 288230376151711744, full: true, .. }
//! ```
#![tactic(auto)]

pub mod sums;

pub use sums::SearchSum;
