ghost use Rattle.std.specs.Prelude.{◌≡◌, ◌≤◌, ℕ, List, ◌∷◌, length, None};
ghost use Rattle.carriers.specs.declared.fate.Fate.{Fate};
ghost use Rattle.lane_journals.specs.Readers.{or_else, only_if};
ghost use Rattle.lane_journals.specs.KeptJournals.{past};
ghost use Rattle.lane_journals.specs.declared.event.LaneEvent.{LaneEvent};
ghost use Rattle.lane_carriage.specs.Readers.{last_sent, fate_of};
ghost use Rattle.upkeep_spans.specs.Spans.{earlier};
ghost use Rattle.upkeep_spans.specs.Causes.{is_late, cause_of};
ghost use Rattle.upkeep_spans.specs.Watches.{KnowsAtOnce};
ghost use Rattle.upkeep_spans.specs.Scans.{ComesAt, ArePlaced, IsSeen};

use crate::answers::Upkeep;
use lane_journals::LaneEvent;

/// What is seen of a span so far.
#[derive(Clone, Copy, Debug)]
pub struct Seen {
    /// The number of the last message, be it sent in the span or before it.
    pub last: u64,
    /// Its receiver, if it was sent in the span and isn't returned.
    pub awaited: Option<u8>,
    /// The receiver of the first message before it in the span that wasn't returned.
    pub absent: Option<u8>,
    /// The first late message that was delivered.
    pub late: Option<u64>,
}

/// Whether a message that is delivered was late: it comes behind another one, or is known to come at once.
fn was_late(last: u64, number: u64, at_once: &[u64]) -> bool
    ensures { (given : List Fate) (first : ℕ) → first ≤ last → KnowsAtOnce first at_once.now given
        → ComesAt (fate_of number given) number last → result ≡ is_late (fate_of number given) }
{
    number != last || at_once.binary_search(&number).is_ok()
}

/// The first late message, with one more that is delivered.
fn late_next(late: Option<u64>, last: u64, number: u64, at_once: &[u64]) -> Option<u64>
    ensures { (given : List Fate) (first : ℕ) → first ≤ last → KnowsAtOnce first at_once.now given
        → ComesAt (fate_of number given) number last
        → result ≡ or_else late (only_if (is_late (fate_of number given)) number) }
{
    if late.is_none() && was_late(last, number, at_once) {
        return Some(number);
    }
    late
}

/// What is seen before the first event of a span.
fn seen_first(sent: u64) -> Seen
    ensures { result ≡ record { last = sent; awaited = None; absent = None; late = None } }
{
    Seen {
        last: sent,
        awaited: None,
        absent: None,
        late: None,
    }
}

/// What is seen with one event more.
fn seen_next(seen: Seen, event: &LaneEvent, at_once: &[u64]) -> Seen
    ensures { (given : List Fate) (from sent : ℕ) (J : List LaneEvent) → from ≤ length J
        → KnowsAtOnce sent at_once.now given → ArePlaced given (event.now ∷ J)
        → IsSeen given from sent J seen → IsSeen given from sent (event.now ∷ J) result }
{
    match event {
        LaneEvent::Sent {
            number,
            receiver,
            ..
        } => Seen {
            last: *number,
            awaited: Some(*receiver),
            absent: seen.absent.or(seen.awaited),
            late: seen.late,
        },
        LaneEvent::Returned { .. } => Seen {
            awaited: None,
            ..seen
        },
        LaneEvent::Delivered { number, .. } => Seen {
            late: late_next(seen.late, seen.last, *number, at_once),
            ..seen
        },
        _ => seen,
    }
}

/// What is seen of the events behind the first `from`, before which the last message was that of the number
/// `sent`.
pub fn seen_behind(journal: &[LaneEvent], from: usize, sent: u64, at_once: &[u64]) -> Seen
    requires inside { from ≤ length journal.now }
    ensures { sent ≡ last_sent (earlier from (past journal.now)) → (given : List Fate) → KnowsAtOnce sent at_once.now given → ArePlaced given (past journal.now)
        → IsSeen given from sent (past journal.now) result }
{
    let mut seen = seen_first(sent);
    for i in from..journal.len() {
        seen = seen_next(seen, &journal[i], at_once);
    }
    seen
}

/// The answer by what was seen of the whole span.
pub fn cause(seen: &Seen) -> Upkeep
    ensures { result ≡ cause_of seen.now.late (or_else seen.now.absent seen.now.awaited) }
{
    if let Some(message) = seen.late {
        return Upkeep::Disturbed { message };
    }
    match seen.absent.or(seen.awaited) {
        Some(absent) => Upkeep::Blocked { absent },
        None => Upkeep::Rested,
    }
}
