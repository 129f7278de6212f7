//! What a lane keeps beside its journal where its owner decides on its rows; a crate of laws.
//!
//! In a pass of upkeep the owner of a lane splits and joins rows, makes rows active, and takes copies from nodes
//! that are no targets. `IsDeciding` in `specs/Deciding.antt` says when it decides: it acts, and nothing is under
//! way in any row. For each decision a law says that it may come next, and that the changed rows of the owner's
//! part are what the longer journal says. Another says what the owner may tell the nodes of its rows.
//!
//! ```text
//! rows_are_split();         // the row goes, and its halves come
//! rows_are_joined();        // two siblings become one row
//! rows_are_activated();     // a row gets its active node
//! acceptances_are_kept();   // who accepted that is no matter of the journal
//! deletes_begin();          // a row gets a Delete
//! deletes_end();            // rows lose one
//! rows_are_told();          // Split, Join, Ready, Activate and Delete are sent
//! nodes_of_rows_serve();    // who is active, and who has a Delete
//! ```
#![tactic(auto)]

pub mod laws;
