//! How the documents that a query finds are grouped, and what is said of each group; and what a search answers.
//!
//! ```text
//! group   = "|" "all" "(" "group" "(" field ")" "each" "(" "output" "(" output *( "," output ) ")" ")" ")"
//! output  = "count" "(" ")" / ( "sum" / "min" / "max" ) "(" field ")"
//! ```
//!
//! `specs/Groups.antt` says which lists of tokens are groups of documents of a type and what each says, and
//! `specs/Grouping.antt` how they are read token by token. That they are read exactly is proved here
//! (`proofs/GroupReading.antt` and its kin), and `query_text`, which reads a whole query, promises it.
//!
//! An answer is a plain value: a contract sees it as the record of its fields, and its lists as lists. What it has to be for
//! a query and the views of lanes is said where it is made, in `group_counts` and `search_views`.
//!
//! ```text
//! let grouping = Grouping::Opening(Opening::Bar);
//! group_next(alloc, &schema, "music", grouping, Lexeme::Word("all"))?    // Opening(Opening::All)
//! ```
#![tactic(auto)]

pub mod answers;
pub mod cues;
pub mod fields;
pub mod grouping;
pub mod groups;

pub use answers::{Group, GroupList, Output, OutputList, SearchAnswer};
pub use cues::{Cue, cue_of};
pub use doc_types::{OutputKind, OutputKinds};
pub use fields::has_groups;
pub use grouping::{Grouping, Opening, group_next, group_says};
pub use groups::{GroupBy, kept};
