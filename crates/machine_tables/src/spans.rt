//! What an upkeep comes to by the events that it adds.

use crate::table::shown;
use crate::texts::{number, small};
use lane_journals::LaneEvent;
use messages::{NotedBody, NotedReply};
use std::alloc::Global;
use upkeep_spans::scan::{cause, seen_behind};

/// The number of the last message among events, or 0.
fn last_of(events: &[LaneEvent]) -> u64 {
    let mut last = 0;
    for event in events {
        if let LaneEvent::Sent { number, .. } = event {
            last = *number;
        }
    }
    last
}

/// The messages that come late right behind their own sending, the events, and where the span begins.
#[derive(Drop)]
struct Span {
    at_once: Vec<u64>,
    events: Vec<LaneEvent>,
    from: usize,
}

impl Span {
    /// Takes the event that a letter says with the rest of a word: `2>1` sends the second message to node 1, and a number is
    /// its delivery, its return, or a node that stops.
    fn take_event(&mut self, letter: &str, rest: &str) -> Option<()> {
        let (sent, receiver) = rest.split_once('>').unwrap_or((rest, "0"));
        let (number, node) = (number(sent, 0)?, small(receiver, 0)?);
        let event = match letter {
            "s" => LaneEvent::Sent {
                number,
                version: 1,
                sender: 0,
                receiver: node,
                body: NotedBody::Ask,
            },
            "d" => LaneEvent::Delivered {
                number,
                reply: NotedReply::NoBucket,
            },
            "r" => LaneEvent::Returned { number },
            "x" => LaneEvent::Stopped {
                node: small(rest, 0)?,
            },
            _ => return None,
        };
        self.events.push(event).ok()
    }

    /// Takes a word: a bar, behind which the events before the span or the span begin, a number or an event.
    fn take(&mut self, word: &str) -> bool {
        if word == "|" {
            self.from = self.events.len();
            return true;
        }
        match word.parse::<u64>() {
            Ok(number) => self.at_once.push(number).is_ok(),
            Err(_) => {
                let (letter, rest) = word.split_at_checked(1).unwrap_or(("", ""));
                self.take_event(letter, rest).is_some()
            }
        }
    }

    /// What an upkeep comes to that adds the span.
    fn cause(&self, alloc: Global) -> Option<String> {
        let (events, from) = (self.events.as_slice(), self.from);
        if from > events.len() {
            return None;
        }
        let sent = last_of(&events[..from]);
        shown(
            alloc,
            &cause(&seen_behind(events, from, sent, &self.at_once)),
        )
    }
}

/// What an upkeep comes to by the messages that come late right behind their own sending, a bar, the events before the
/// span, a bar, and the span.
pub fn say(alloc: Global, first: &str, rest: &str) -> Option<String> {
    let mut span = Span {
        at_once: Vec::new(alloc),
        events: Vec::new(alloc),
        from: 0,
    };
    let mut good = span.take(first);
    for word in rest.split_ascii_whitespace() {
        good &= span.take(word);
    }
    if good { span.cause(alloc) } else { None }
}
