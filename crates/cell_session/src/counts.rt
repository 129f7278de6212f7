ghost use Rattle.std.specs.Prelude.{◌≡◌, ◌≤◌};
ghost use Rattle.cell_session.specs.Counting.{one_more, states_with, maintains_with, counts_with};
ghost use Rattle.cell_session.specs.declared.limits.TheConstants.{MOST_STATES, MOST_MAINTAINS};

use crate::limits::{MOST_MAINTAINS, MOST_STATES};
use io_ends::LimitKind;
use session_cluster::asked::Asked;

/// How many lines were read as states, and how many as upkeep.
#[derive(Clone, Copy, PartialEq, Eq)]
pub struct Counts {
    pub states: u8,
    pub maintains: u8,
}

/// One more than a count, unless that is the most.
fn one_more(most: u8, count: u8) -> Option<u8>
    requires { count ≤ most }
    ensures { result ≡ one_more most count }
{
    if count == most { None } else { Some(count + 1) }
}

/// With one line more that is read as a state.
fn states_with(counts: Counts) -> Result<Counts, LimitKind>
    requires { counts.states ≤ MOST_STATES }
    ensures { result ≡ states_with counts (one_more MOST_STATES counts.states) }
{
    match one_more(MOST_STATES, counts.states) {
        Some(states) => Ok(Counts {
            states,
            maintains: counts.maintains,
        }),
        None => Err(LimitKind::States),
    }
}

/// With one line more that is read as upkeep.
fn maintains_with(counts: Counts) -> Result<Counts, LimitKind>
    requires { counts.maintains ≤ MOST_MAINTAINS }
    ensures { result ≡ maintains_with counts (one_more MOST_MAINTAINS counts.maintains) }
{
    match one_more(MOST_MAINTAINS, counts.maintains) {
        Some(maintains) => Ok(Counts {
            states: counts.states,
            maintains,
        }),
        None => Err(LimitKind::Maintains),
    }
}

/// With this line; or the limit that it passes, where a session may not have so many of its kind.
pub fn counts_with(counts: Counts, command: &Asked) -> Result<Counts, LimitKind>
    requires states { counts.states ≤ MOST_STATES }
    requires maintains { counts.maintains ≤ MOST_MAINTAINS }
    ensures { result ≡ counts_with counts command.now }
{
    match command {
        Asked::State { .. } | Asked::BadState { .. } => states_with(counts),
        Asked::Maintain => maintains_with(counts),
        Asked::Blank
        | Asked::TooLong
        | Asked::Barrier
        | Asked::Bad { .. }
        | Asked::Feed { .. }
        | Asked::Stop { .. }
        | Asked::Start { .. }
        | Asked::Net { .. }
        | Asked::Search { .. }
        | Asked::BadQuery { .. } => Ok(counts),
    }
}
