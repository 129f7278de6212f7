ghost use Rattle.std.specs.Prelude.{◌≡◌};
ghost use Rattle.cluster_states.specs.declared.places.Place.TheVariants.{Counts, CountsSpace};
ghost use Rattle.cluster_states.specs.Scanning.{IsPlace, Moves};

use crate::cluster_state::ClusterState;
use crate::places::{Number, Place, Role};
use crate::reader::StateReader;
use crate::signs::at_space;

/// Reads the space behind the counts.
pub fn at_counts(state: ClusterState, letter: u8) -> Option<StateReader>
    requires { IsPlace Counts state }
    ensures { Moves (record { place = Counts; state = state }) letter result }
{
    if letter == b' ' {
        Some(StateReader::at(Place::CountsSpace, state))
    } else {
        None
    }
}

/// Reads the first letter of the groups, or of the role of a mark where there is one group.
pub fn at_counts_space(state: ClusterState, letter: u8) -> Option<StateReader>
    requires { IsPlace CountsSpace state }
    ensures { Moves (record { place = CountsSpace; state = state }) letter result }
{
    if letter == b'g' {
        let (number, at) = (Number::Groups, 0);
        return Some(StateReader::at(Place::Word { number, at }, state));
    }
    at_space(state, Role::Distributor, 0, letter)
}
