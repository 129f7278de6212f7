//! What the words of a session choose: how many feeders run its lines, and its setting, with its schema.
//!
//! `read_choice` reads the words by `words_line`, the state's text by `cluster_states` and the schema by
//! `doc_types`. A contract says what they choose by the relation `Chooses` (`specs/Choices.antt`), and that
//! they choose nothing by `AreWrong`. Words choose one session at most. `choose_alone` takes just the words that choose
//! no feeders (`ChoosesAlone`), and `choose_fed` those that choose some (`ChoosesFed`).
//!
//! ```text
//! vespa_cell --acks 2 --redundancy 2 --state "version:1 distributor:1 storage:2"   // a setting and a schema
//! vespa_cell --acks 2 --redundancy 2     // WordsFault::Usage: the one node that is up is too few
//! ```
#![tactic(auto)]

pub mod choice;

pub use choice::{Choice, choose_alone, choose_fed, read_choice};
