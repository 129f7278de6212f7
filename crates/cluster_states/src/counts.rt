ghost use Rattle.std.specs.Prelude.{◌≡◌, ◌+◌, ◌*◌, ◌^◌, ◌<◌, ◌≤◌, ◌⊎◌, length};
ghost use Rattle.cluster_states.specs.declared.places.Place.TheVariants.{Word, Digits};
ghost use Rattle.cluster_states.specs.Scanning.{word_of, least_of, end_of, can_begin, IsPlace, IsKnown, IsWithin, IsBehind, Moves, Ends, is_within, digits_of};

use crate::cluster_state::ClusterState;
use crate::places::{Number, Place, Role};
use crate::reader::StateReader;

/// What is read before a number.
fn word_of(number: Number) -> &'static [u8]
    ensures { result.now ≡ word_of number }
{
    match number {
        Number::Version => b"version:",
        Number::Distributors => b" distributor:",
        Number::Nodes => b" storage:",
        Number::Groups => b"roups:",
        Number::Marked { role, .. } => match role {
            Role::Distributor => b"istributor.",
            Role::Storage => b"torage.",
        },
    }
}

/// The least number that may stand there.
fn least_of(number: Number) -> u64
    ensures { result ≡ least_of number }
{
    match number {
        Number::Version => 0,
        Number::Distributors | Number::Nodes => 1,
        Number::Groups => 2,
        Number::Marked { least, .. } => u64::from(least),
    }
}

/// The first number that is too great there.
fn end_of(number: Number, state: &ClusterState) -> u64
    ensures { result ≡ end_of number state.now }
{
    match number {
        Number::Version => 1 << 32,
        Number::Distributors | Number::Nodes => 33,
        Number::Groups => 9,
        Number::Marked { role, .. } => u64::from(state.marks_of(role).len()),
    }
}

/// Whether a number of these bounds begins with this one's digits.
fn can_begin(least: u64, end: u64, value: u64) -> bool
    requires { value < 2 ^ 40 }
    ensures { result ≡ can_begin least end value }
{
    (least <= value && value < end) || (1 <= value && 10 * value < end && least <= 10 * value + 9)
}

/// Whether a number may end here.
fn is_within(state: &ClusterState, number: Number, value: u64) -> bool
    ensures { result ≡ is_within number state.now value }
{
    least_of(number) <= value && value < end_of(number, state)
}

/// The reader behind the digits of this number so far, where a number may begin so.
fn digits(state: ClusterState, number: Number, value: u64) -> Option<StateReader>
    requires known { IsKnown number state }
    requires small { value < 2 ^ 40 }
    ensures { result ≡ digits_of number state value }
{
    if can_begin(least_of(number), end_of(number, &state), value) {
        Some(StateReader::at(Place::Digits { number, value }, state))
    } else {
        None
    }
}

/// Reads a letter of the word before a number, or the number's first digit.
pub fn in_word(state: ClusterState, number: Number, at: usize, letter: u8) -> Option<StateReader>
    requires { IsPlace (Word number at) state }
    ensures { Moves (record { place = Word number at; state = state }) letter result }
{
    match word_of(number).get(at) {
        Some(expected) => {
            if *expected == letter {
                let at = at + 1;
                Some(StateReader::at(Place::Word { number, at }, state))
            } else {
                None
            }
        }
        None => first_digit(state, number, at, letter),
    }
}

/// Reads the first digit of a number.
fn first_digit(state: ClusterState, number: Number, at: usize, letter: u8) -> Option<StateReader>
    requires over { length (word_of number) ≤ at }
    requires place { IsPlace (Word number at) state }
    ensures { Moves (record { place = Word number at; state = state }) letter result }
{
    if letter.is_ascii_digit() {
        digits(state, number, u64::from(letter - b'0'))
    } else {
        None
    }
}

/// Reads a digit more of a number, or what is behind it.
pub fn in_digits(state: ClusterState, number: Number, value: u64, letter: u8) -> Option<StateReader>
    requires { IsPlace (Digits number value) state }
    ensures { Moves (record { place = Digits number value; state = state }) letter result }
{
    if letter.is_ascii_digit() {
        next_digit(state, number, value, letter)
    } else {
        past_digits(state, number, value, letter)
    }
}

/// Reads a digit more of a number; none follows a zero.
fn next_digit(state: ClusterState, number: Number, value: u64, letter: u8) -> Option<StateReader>
    requires low { 48 ≤ letter }
    requires high { letter < 58 }
    requires place { IsPlace (Digits number value) state }
    ensures { Moves (record { place = Digits number value; state = state }) letter result }
{
    if value == 0 {
        None
    } else {
        digits(state, number, 10 * value + u64::from(letter - b'0'))
    }
}

/// Reads what is behind a number, where it may end.
fn past_digits(state: ClusterState, number: Number, value: u64, letter: u8) -> Option<StateReader>
    requires other { letter < 48 ⊎ 58 ≤ letter }
    requires place { IsPlace (Digits number value) state }
    ensures { Moves (record { place = Digits number value; state = state }) letter result }
{
    if is_within(&state, number, value) {
        behind(state, number, value).past_number(letter)
    } else {
        None
    }
}

/// The reader behind a number that ends.
fn behind(state: ClusterState, number: Number, value: u64) -> StateReader
    requires known { IsKnown number state }
    requires within { IsWithin number state value }
    ensures { IsBehind number state value result }
{
    match number {
        Number::Version => {
            let (number, at) = (Number::Distributors, 0);
            StateReader::at(Place::Word { number, at }, state.with_version(value as u32))
        }
        Number::Distributors => {
            let (number, at) = (Number::Nodes, 0);
            let state = state.with_distributors(value as u8);
            StateReader::at(Place::Word { number, at }, state)
        }
        Number::Nodes => StateReader::at(Place::Counts, state.with_nodes(value as u8)),
        Number::Groups => {
            let (role, least) = (Role::Distributor, 0);
            StateReader::at(Place::Gap { role, least }, state.with_groups(value as u8))
        }
        Number::Marked { role, .. } => {
            let (number, at) = (value as u8, 0);
            StateReader::at(Place::Sign { role, number, at }, state)
        }
    }
}

/// The state that a text says which ends with a number.
pub fn told_by_number(state: ClusterState, number: Number, value: u64) -> Option<ClusterState>
    requires { IsPlace (Digits number value) state }
    ensures { Ends (record { place = Digits number value; state = state }) result }
{
    if is_within(&state, number, value) {
        behind(state, number, value).told_outside()
    } else {
        None
    }
}
