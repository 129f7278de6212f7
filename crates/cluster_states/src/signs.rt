ghost use Rattle.std.specs.Prelude.{◌≡◌, ◌≤◌};
ghost use Rattle.cluster_states.specs.declared.places.Place.TheVariants.{Sign, Gap, Space};
ghost use Rattle.cluster_states.specs.Scanning.{IsPlace, Moves, mark_by, has_room, number_by};

use crate::cluster_state::ClusterState;
use crate::marks::Mark;
use crate::places::{Number, Place, Role};
use crate::reader::StateReader;

/// The mark that a letter stands for.
fn mark_by(role: Role, letter: u8) -> Option<Mark>
    ensures { result ≡ mark_by role letter }
{
    match (role, letter) {
        (_, b'd') => Some(Mark::Down),
        (Role::Storage, b'r') => Some(Mark::Retired),
        _ => None,
    }
}

/// Reads a letter of the sign behind a mark's number, or the mark itself.
pub fn in_sign(
    state: ClusterState,
    role: Role,
    number: u8,
    at: usize,
    letter: u8,
) -> Option<StateReader>
    requires { IsPlace (Sign role number at) state }
    ensures { Moves (record { place = Sign role number at; state = state }) letter result }
{
    match b".s:".get(at) {
        Some(expected) => {
            if *expected == letter {
                let at = at + 1;
                Some(StateReader::at(Place::Sign { role, number, at }, state))
            } else {
                None
            }
        }
        None => at_mark(state, role, number, at, letter),
    }
}

/// Reads the letter of a mark.
fn at_mark(
    state: ClusterState,
    role: Role,
    number: u8,
    at: usize,
    letter: u8,
) -> Option<StateReader>
    requires over { 3 ≤ at }
    requires place { IsPlace (Sign role number at) state }
    ensures { Moves (record { place = Sign role number at; state = state }) letter result }
{
    match mark_by(role, letter) {
        Some(mark) => {
            let least = number + 1;
            let state = state.with_mark(role, number, mark);
            Some(StateReader::at(Place::Gap { role, least }, state))
        }
        None => None,
    }
}

/// Reads the space before a mark, where there is room for one.
pub fn at_gap(state: ClusterState, role: Role, least: u8, letter: u8) -> Option<StateReader>
    requires { IsPlace (Gap role least) state }
    ensures { Moves (record { place = Gap role least; state = state }) letter result }
{
    if letter != b' ' {
        return None;
    }
    if !has_room(&state, role, least) {
        return None;
    }
    Some(StateReader::at(Place::Space { role, least }, state))
}

/// Whether there is room for a mark.
fn has_room(state: &ClusterState, role: Role, least: u8) -> bool
    ensures { result ≡ has_room role least state.now }
{
    match role {
        Role::Distributor => true,
        Role::Storage => least < state.marks_of(Role::Storage).len(),
    }
}

/// Reads the first letter of the role of a mark.
pub fn at_space(state: ClusterState, role: Role, least: u8, letter: u8) -> Option<StateReader>
    requires { IsPlace (Space role least) state }
    ensures { Moves (record { place = Space role least; state = state }) letter result }
{
    match number_by(&state, role, least, letter) {
        Some(number) => {
            let at = 0;
            Some(StateReader::at(Place::Word { number, at }, state))
        }
        None => None,
    }
}

/// The number of a mark whose role begins with this letter.
fn number_by(state: &ClusterState, role: Role, least: u8, letter: u8) -> Option<Number>
    ensures { result ≡ number_by role least state.now letter }
{
    match role {
        Role::Distributor => match letter {
            b'd' => {
                if least < state.marks_of(Role::Distributor).len() {
                    Some(Number::Marked { role, least })
                } else {
                    None
                }
            }
            b's' => Some(Number::Marked {
                role: Role::Storage,
                least: 0,
            }),
            _ => None,
        },
        Role::Storage => match letter {
            b's' => Some(Number::Marked { role, least }),
            _ => None,
        },
    }
}
