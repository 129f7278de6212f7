//! One round, whose messages are sent and answered one after the other.

use crate::table::{done, shown};
use crate::words::{read_arrived, read_set};
use bucket_ids::Bucket;
use merge_rounds::Round;
use messages::{Message, Origin, Reply};
use node_sets::NodeSet;
use std::alloc::Global;

/// The round.
#[derive(Drop)]
pub struct Rounds {
    round: Round,
}

/// A round of a row, by readers and receivers.
fn new_round(alloc: Global, readers: NodeSet, receivers: NodeSet) -> Round {
    let origin = Origin {
        version: 2,
        lane: 0,
        sender: 5,
    };
    Round::new(alloc, origin, Bucket::new(4, 0), readers, receivers)
}

/// Whom a message asks, and what.
fn told(alloc: Global, message: &Message) -> Option<String> {
    shown(alloc, &(message.receiver, message.body.noted(alloc).ok()?))
}

/// Tells a round the reply to the message that it sent, and says whom that asked and what.
fn tell(
    alloc: Global,
    round: &mut Round,
    message: &Message,
    reply: Option<&Reply>,
) -> Option<String> {
    let node = message.receiver;
    if node >= 32 || round.awaited() != Some(node) {
        return None;
    }
    match round.answer(alloc, node, reply) {
        Ok(()) => told(alloc, message),
        Err(_) => None,
    }
}

/// Sends the next message and tells its reply, and says whom it asked and what.
fn step(alloc: Global, round: &mut Round, reply: Option<&Reply>) -> Option<String> {
    if round.awaited().is_some() {
        return None;
    }
    match round.send(alloc) {
        Ok(Some(message)) => tell(alloc, round, &message, reply),
        Ok(None) => String::from_str(alloc, "end").ok(),
        Err(_) => None,
    }
}

/// How many entries the union has, or 0.
fn union_len(round: &mut Round) -> Option<u64> {
    if round.is_whole() {
        round.entries().ok()
    } else {
        Some(0)
    }
}

/// Who has the union, whose answers had entries, how many pieces node 3 showed, and how many entries the union has.
fn found(alloc: Global, round: &mut Round) -> Option<String> {
    let entries = union_len(round)?;
    let (holders, givers) = (round.holders().bits(), round.givers().bits());
    shown(alloc, &(holders, givers, round.pieces_of(3).len(), entries))
}

impl Rounds {
    pub fn new(alloc: Global) -> Rounds {
        Rounds {
            round: new_round(alloc, NodeSet::none(), NodeSet::none()),
        }
    }

    /// Begins with another round.
    fn begin(&mut self, alloc: Global, words: &str) -> Option<()> {
        let (readers, receivers) = (read_set(words, 0)?, read_set(words, 1)?);
        self.round = new_round(alloc, readers, receivers);
        Some(())
    }

    /// What the round sends that gets a reply.
    fn reply(&mut self, alloc: Global, verb: &str, rest: &str) -> Option<String> {
        match read_arrived(alloc, verb, rest) {
            Some(reply) => step(alloc, &mut self.round, reply.as_ref()),
            None => None,
        }
    }

    /// What comes of a line.
    pub fn say(&mut self, alloc: Global, verb: &str, rest: &str) -> Option<String> {
        match verb {
            "begin" => done(alloc, self.begin(alloc, rest).is_some()),
            "found" => found(alloc, &mut self.round),
            verb => self.reply(alloc, verb, rest),
        }
    }
}
