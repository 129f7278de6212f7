//! What the journal of a lane says of a line and of states, found by a walk over it.

ghost use Rattle.std.specs.Prelude.{◌≡◌, ◌∷◌, List, true, false, IfSome, IsSome};
ghost use Rattle.lane_journals.specs.KeptJournals.{past};
ghost use Rattle.lane_journals.specs.Meanings.{history};
ghost use Rattle.lane_journals.specs.declared.event.LaneEvent.{LaneEvent};
ghost use Rattle.lane_journals.specs.Places.{published_states};
ghost use Rattle.lane_keeping.specs.Lines.{IsFresh, IsNotOf};
ghost use Rattle.lane_keeping.specs.Tidings.{last_state};

use cluster_states::States;
use lane_journals::LaneEvent;

/// Whether an event is of the line.
fn is_of(event: &LaneEvent, line: u32) -> bool
    ensures { result ≡ false → IsNotOf line event.now }
{
    match event {
        LaneEvent::Begun { line: of, .. } => *of == line,
        LaneEvent::Refused { line: of, .. } => *of == line,
        LaneEvent::Prepared { line: of, .. } => *of == line,
        LaneEvent::Wrote { line: of, .. } => *of == line,
        LaneEvent::Closed { line: of, .. } => *of == line,
        _ => false,
    }
}

/// Whether no event is of the line.
pub fn has_no_event(journal: &[LaneEvent], line: u32) -> bool
    ensures { result ≡ true → IsFresh (history (past journal.now)) line }
{
    for at in 0..journal.len() {
        if is_of(&journal[at], line) {
            return false;
        }
    }
    true
}

/// Whether a state was published, with one event more.
fn published_next(before: bool, event: &LaneEvent) -> bool
    ensures { (J : List LaneEvent) → (before ≡ true → IsSome (last_state J)) → result ≡ true
        → IsSome (last_state (event.now ∷ J)) }
{
    match event {
        LaneEvent::Published { .. } => true,
        _ => before,
    }
}

/// Whether a state was published.
pub fn is_published(journal: &[LaneEvent]) -> bool
    ensures { result ≡ true → IsSome (last_state (past journal.now)) }
{
    let mut published = false;
    for at in 0..journal.len() {
        published = published_next(published, &journal[at]);
    }
    published
}

/// Notes the state that an event publishes; `false` where it is refused.
fn publish_of(states: &mut States, event: &LaneEvent) -> bool
    ensures acks { states.new.acks ≡ states.old.acks }
    ensures more { result ≡ true → (J : List LaneEvent) → states.old.states ≡ published_states J
        → states.new.states ≡ published_states (event.now ∷ J) }
{
    match event {
        LaneEvent::Published { state } => states.publish(state).is_ok(),
        _ => true,
    }
}

/// The states that were published; none where one of them is refused, which none is.
pub fn states_in(acks: u8, journal: &[LaneEvent]) -> Option<States>
    ensures { IfSome result (λ states. states ≡ record { acks = acks; states = published_states (past journal.now) }) }
{
    let mut states = States::new(acks);
    for at in 0..journal.len() {
        if !publish_of(&mut states, &journal[at]) {
            return None;
        }
    }
    Some(states)
}
