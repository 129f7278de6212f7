//! What a search sees of a lane, and its journal: over each legal journal, the view after the changes that its
//! events give has just what is read off the journal. A crate of definitions and laws.
//!
//! `view_of` in `specs/JournalViews.antt` reads a view off a journal: of each node its version, whether it is
//! stopped, its region, and the documents of its store that lie there. `changes_of` of `lane_changes` lists the
//! changes that the events give, oldest first. The law says that both are one (`journals_are_shown`), also for each
//! prefix of the journal. So a search over prefixes of legal journals counts each document once at most, and at full
//! coverage as a current operation left it (`fronts_count_once`).
//!
//! ```text
//! Delivered { number, reply: Answer { .. } }, ..    // a node took a Store in its region:
//! LaneChange::Take { node, entry }, ..              // so this change is the journal's next one
//! ```
#![tactic(auto)]

pub mod laws;
