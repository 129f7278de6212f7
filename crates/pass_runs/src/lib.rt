//! Laws of the machine of a pass over a whole pass; no function here does anything.
//!
//! `pass_machine` says what comes next where the machine stands, and that each of its turns is one or more of those that
//! `pass_model` makes of nodes and rows in the abstract. Here these are put one after the other. `Stands` in
//! `specs/Standing.antt` says where a pass stands: what is known of its rows by what the machine is doing, and that turns
//! of the abstract lead there from where the pass began. `passes_stand` says that it stands so where it begins, and behind
//! each step, be that a message, a decision, an acceptance or a round. Where the machine is finished, all of it was a pass
//! of the abstract (`passes_end`), which brings rest.
//!
//! What a step leaves (`specs/Steps.antt`) is said of rows, notes and nodes, so a lane has to show just that.
#![tactic(auto)]

pub mod laws;
