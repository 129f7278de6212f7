//! One distributor's part in lane 0 of 16, whose distributor is 0.

use crate::table::{done, shown};
use crate::texts::{halves, number, small, word};
use crate::words::{read_arrived, read_bucket, read_node, read_place, read_set};
use bucket_ids::Bucket;
use cluster_states::ClusterState;
use distributor_part::{DistributorPart, Rules, Stage};
use entry_maps::EntryMap;
use ideal_nodes::owner;
use messages::{Job, Message, NodePieces, Step};
use node_sets::NodeSet;
use pieces::PieceList;
use std::alloc::Global;

/// The part.
#[derive(Drop)]
pub struct Parts {
    part: DistributorPart,
}

/// The part that has heard no state.
fn new_part(alloc: Global, redundancy: u8, acks: u8) -> DistributorPart {
    let rules = Rules {
        redundancy,
        acks,
        searchable: 1,
        split_at: 64,
    };
    DistributorPart::new(alloc, 0, Bucket::new(4, 0), rules)
}

/// The part that has heard a state of two nodes, by its redundancy and a number of acknowledgements.
fn read_part(alloc: Global, words: &str) -> Option<DistributorPart> {
    let (redundancy, acks) = (small(words, 0)?, small(words, 1)?);
    let state = ClusterState::parse("version:7 distributor:1 storage:2").ok()?;
    let mut part = new_part(alloc, redundancy, acks);
    part.hear(&state);
    Some(part)
}

/// A message by its receiver, its version and its body.
fn message_told(alloc: Global, message: &Message) -> Option<String> {
    let (node, version) = (message.receiver, message.version());
    shown(alloc, &(node, version, message.body.noted(alloc).ok()?))
}

/// A message, the buckets of the rows that are opened, a decision, or which nodes are missing at the end.
fn told(alloc: Global, step: &Step) -> Option<String> {
    match step {
        Step::Send(message) => message_told(alloc, message),
        Step::Open { rows } => shown(alloc, &rows.items()),
        Step::Decide(decision) => shown(alloc, decision),
        Step::Finished { missing } => shown(alloc, missing),
    }
}

/// The next step for a key.
fn next(alloc: Global, part: &mut DistributorPart, words: &str) -> Option<String> {
    let key = number(words, 0)?;
    let state = part.state()?;
    if owner(part.lane(), &state) != Some(part.number()) || part.awaited().is_some() {
        return None;
    }
    if key >= 1 << 58 || !part.lane().contains(key) {
        return None;
    }
    if let Stage::Running { .. } = &part.stage() {
        return None;
    }
    match part.next_step(alloc, Job::Prepare { key }) {
        Ok(step) => told(alloc, &step),
        Err(_) => None,
    }
}

/// Tells the reply that is awaited, or that none came.
fn reply(alloc: Global, part: &mut DistributorPart, words: &str) -> Option<()> {
    let (verb, rest) = halves(words);
    let awaited = part.awaited()?;
    match read_arrived(alloc, verb, rest) {
        Some(reply) => part.answer(alloc, awaited, reply.as_ref()).ok(),
        None => None,
    }
}

/// Tells that a round is over; node 1 answered its Read.
fn over(
    alloc: Global,
    part: &mut DistributorPart,
    complete: NodeSet,
    union: Option<&EntryMap>,
) -> Option<()> {
    let Stage::Running { .. } = &part.stage() else {
        return None;
    };
    let shown = NodePieces {
        node: 1,
        pieces: PieceList::of(Vec::new(alloc)),
        entries: false,
    };
    part.round_over(complete, union, &[shown]).ok()
}

/// Tells that a round found an empty union, which these nodes took.
fn whole(alloc: Global, part: &mut DistributorPart, words: &str) -> Option<()> {
    let nodes = read_set(words, 0)?;
    over(alloc, part, nodes, Some(&EntryMap::new(alloc)))
}

/// Tells that an operation on key 0 was acknowledged.
fn closed(part: &mut DistributorPart, words: &str) -> Option<()> {
    if !part.is_opened() || !part.lane().contains(0) {
        return None;
    }
    part.closed(0, read_set(words, 0)?);
    Some(())
}

/// Who answered, how many rows there are, and under which version.
fn found(alloc: Global, part: &DistributorPart) -> Option<String> {
    shown(
        alloc,
        &(part.answered().bits(), part.rows().len(), part.version()),
    )
}

/// To whom a round of the row of a place goes.
fn round(alloc: Global, part: &mut DistributorPart, words: &str) -> Option<String> {
    let at = read_place(words, part.rows().len())?;
    let Stage::Before = &part.stage() else {
        return None;
    };
    let _state = part.state()?;
    shown(alloc, &part.begin_round(at))
}

/// Which nodes are targets, which is to be active and which are to be ready.
fn asked(alloc: Global, part: &DistributorPart, words: &str) -> Option<String> {
    let at = read_place(words, part.rows().len())?;
    let _state = part.state()?;
    shown(
        alloc,
        &(
            part.targets(at),
            part.to_be_active(at),
            part.to_be_ready(at),
        ),
    )
}

/// Splits the row of a place or joins it with its sibling, where no round is under way.
fn reshape(part: &mut DistributorPart, verb: &str, words: &str) -> Option<()> {
    let at = read_place(words, part.rows().len())?;
    let Stage::Before = &part.stage() else {
        return None;
    };
    match verb {
        "split" if part.rows()[at].bucket.bits() < 58 => part.split_row(at).ok()?,
        "join" if part.can_join(at) => part.join_rows(at),
        _ => return None,
    }
    Some(())
}

/// A node becomes the active one of the row of a place, which accepts, or is to delete its piece of serial 9.
fn keep(part: &mut DistributorPart, verb: &str, words: &str) -> Option<()> {
    let at = read_place(word(words, 0), part.rows().len())?;
    match verb {
        "activate" => part.activate(at, read_node(word(words, 1))?),
        "accept" => part.accept(at),
        "delete" => part.delete_from(at, read_node(word(words, 1))?, 9),
        _ => return None,
    }
    Some(())
}

/// A node's Delete is over.
fn delete_over(part: &mut DistributorPart, words: &str) -> Option<()> {
    if !part.is_opened() {
        return None;
    }
    part.delete_over(read_bucket(word(words, 0))?, read_node(word(words, 1))?);
    Some(())
}

/// Begins with another part.
fn begin(alloc: Global, part: &mut DistributorPart, words: &str) -> bool {
    match read_part(alloc, words) {
        Some(other) => {
            *part = other;
            true
        }
        None => false,
    }
}

/// What happens in a line's operation or an opening, or what upkeep does to a row, and says nothing.
fn change(alloc: Global, part: &mut DistributorPart, verb: &str, rest: &str) -> bool {
    match verb {
        "begin" => return begin(alloc, part, rest),
        "give_up" => part.give_up(),
        "hear" => part.hear(&ClusterState::default()),
        "reply" => return reply(alloc, part, rest).is_some(),
        "whole" => return whole(alloc, part, rest).is_some(),
        "partial" => return over(alloc, part, NodeSet::none(), None).is_some(),
        verb => return keep_rows(part, verb, rest).is_some(),
    }
    true
}

/// What is done to rows.
fn keep_rows(part: &mut DistributorPart, verb: &str, rest: &str) -> Option<()> {
    match verb {
        "closed" => closed(part, rest),
        "split" | "join" => reshape(part, verb, rest),
        "over" => delete_over(part, rest),
        verb => keep(part, verb, rest),
    }
}

impl Parts {
    pub fn new(alloc: Global) -> Parts {
        Parts {
            part: new_part(alloc, 1, 1),
        }
    }

    /// What comes of a line.
    pub fn say(&mut self, alloc: Global, verb: &str, rest: &str) -> Option<String> {
        let part = &mut self.part;
        match verb {
            "next" => next(alloc, part, rest),
            "found" => found(alloc, part),
            "round" => round(alloc, part, rest),
            "asked" => asked(alloc, part, rest),
            "rows" => shown(alloc, &part.rows()),
            verb => done(alloc, change(alloc, part, verb, rest)),
        }
    }
}
