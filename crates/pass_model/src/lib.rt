//! A pass of upkeep in the abstract, and that one which nothing disturbs brings a lane to rest; a crate of laws.
//!
//! `World` has nodes that take each message once or twice, and the rows as the owner knows them; `Passes` in
//! `specs/Passes.antt` says what a pass makes of them where each message is answered, whichever pair it joins and whichever row it
//! splits next. It begins from nodes and rows of whatever marks, buckets and entries (`HasBegun`), and leaves rest (`IsResting`).
//! `specs/Worlds.antt` says which nodes and rows are those of a journal, `settings` that a published state gives the
//! settings of a pass, and `shown_rows` what a round shows of its row in these words.
//!
//! `specs/Turns.antt` goes through the same pass turn by turn: where the machine may stand (`Doing`), and what one turn makes of
//! nodes and rows: a message to one node, a decision on one row, a round of one row, or just the next node, row or part of
//! the pass. From where it stands there is just one turn, so `turn` is a function. `specs/Messages.antt` says which message a
//! turn sends, and `specs/Orders.antt` what is asked of the rows where the turns begin.
//!
//! That the pass of a lane is such a one, where nothing is lost or late, is proved in `lane_upkeep`.
//!
//! ```text
//! a_pass_brings_rest();            // from wherever a pass may begin
//! passes_end();                    // and there is one from there
//! rest_is_read_off_the_journal();  // its rest is the lane's
//! splits_sweep();                  // rows in rising number are split until none is full
//! joins_sweep();                   // and joined until no pair is left
//! turns_are_a_pass();              // turns from the first round to the end are a pass
//! turns_end();                     // and there is an end
//! turns_follow();                  // a turn that is no round makes of the nodes what its message makes of them
//! ```
#![tactic(auto)]

pub mod laws;
pub mod settings;
pub mod shown_rows;
pub mod sweeps;
pub mod turns;
