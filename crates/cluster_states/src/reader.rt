ghost use Rattle.std.specs.Prelude.{◌≡◌, []};
ghost use Rattle.cluster_states.specs.StateTexts.{IsStateText};
ghost use Rattle.cluster_states.specs.Scanning.{Scan, IsPlace, IsOutside, IsReached, Moves, Ends};
ghost use Rattle.cluster_states.specs.declared.places.Place.TheVariants.{Digits};

use crate::cluster_state::ClusterState;
use crate::counts::{in_digits, in_word, told_by_number};
use crate::groups::{at_counts, at_counts_space};
use crate::places::{Number, Place};
use crate::signs::{at_gap, at_space, in_sign};
use std::marker::Model;
use text_scanners::Scanner;

/// A reader of a state text: where it stands, and the state so far, in which all that has no mark yet
/// is up. What its place promises of the state is true of each.
#[derive(Clone, Copy)]
pub struct StateReader {
    place: Place,
    state: ClusterState,
}

impl Model for StateReader {
    ghost use Rattle.cluster_states.specs.Scanning.{Scan, IsScan};

    ghost Value = { Scan };

    ghost view = { λ r. record { place = r.place; state = r.state } };

    ghost invariant = { λ r. IsScan (record { place = r.place; state = r.state }) };

    ghost inverse = { λ r. record { place = r.place; state = r.state } };
}

impl StateReader {
    /// A reader of which nothing was read.
    #[tactic(auto, unfolding(crate::specs::StateTexts::state_text))]
    pub fn start() -> StateReader
        ensures { IsReached result [] }
    {
        let (number, at) = (Number::Version, 0);
        StateReader::at(Place::Word { number, at }, ClusterState::default())
    }

    /// A reader at this place.
    pub fn at(place: Place, state: ClusterState) -> StateReader
        requires { IsPlace place state }
        ensures { result ≡ record { place = place; state = state } }
    {
        StateReader { place, state }
    }

    /// Reads a letter.
    fn next(self, letter: u8) -> Option<StateReader>
        ensures { Moves self letter result }
    {
        match self.place {
            Place::Word { number, at } => in_word(self.state, number, at, letter),
            Place::Digits { number, value } => in_digits(self.state, number, value, letter),
            Place::Counts => at_counts(self.state, letter),
            Place::CountsSpace => at_counts_space(self.state, letter),
            Place::Sign { role, number, at } => in_sign(self.state, role, number, at, letter),
            Place::Gap { role, least } => at_gap(self.state, role, least, letter),
            Place::Space { role, least } => at_space(self.state, role, least, letter),
        }
    }

    /// Reads a letter behind a number.
    pub fn past_number(self, letter: u8) -> Option<StateReader>
        requires { IsOutside self }
        ensures { Moves self letter result }
    {
        match self.place {
            Place::Word { number, at } => in_word(self.state, number, at, letter),
            Place::Digits { .. } => None,
            Place::Counts => at_counts(self.state, letter),
            Place::CountsSpace => at_counts_space(self.state, letter),
            Place::Sign { role, number, at } => in_sign(self.state, role, number, at, letter),
            Place::Gap { role, least } => at_gap(self.state, role, least, letter),
            Place::Space { role, least } => at_space(self.state, role, least, letter),
        }
    }

    /// The state that a text says which ends here.
    fn told(self) -> Option<ClusterState>
        ensures { Ends self result }
    {
        match self.place {
            Place::Word { .. } => None,
            Place::Digits { number, value } => told_by_number(self.state, number, value),
            Place::Counts => Some(self.state),
            Place::CountsSpace => None,
            Place::Sign { .. } => None,
            Place::Gap { .. } => Some(self.state),
            Place::Space { .. } => None,
        }
    }

    /// The state that a text says which ends with a mark or behind the counts.
    pub fn told_outside(self) -> Option<ClusterState>
        requires { IsOutside self }
        ensures { Ends self result }
    {
        match self.place {
            Place::Word { .. } => None,
            Place::Digits { .. } => None,
            Place::Counts => Some(self.state),
            Place::CountsSpace => None,
            Place::Sign { .. } => None,
            Place::Gap { .. } => Some(self.state),
            Place::Space { .. } => None,
        }
    }
}

impl Scanner for StateReader {
    type Letter = u8;

    type Value = ClusterState;

    ghost language = { IsStateText };

    ghost reached = { IsReached };

    fn step(self, letter: u8) -> Option<StateReader> {
        self.next(letter)
    }

    fn value(self) -> Option<ClusterState> {
        self.told()
    }
}
