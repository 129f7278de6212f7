//! Calls of a pass of upkeep that succeed where there is memory, which no clause says.

use crate::table::shown;
use bucket_db::row::number_of;
use bucket_ids::Bucket;
use cluster_states::ClusterState;
use distributor_part::{DistributorPart, Rules};
use node_sets::NodeSet;
use pass_machine::{Doing, RowNote, Time, UpkeepPass, UpkeepStep};
use std::alloc::Global;

/// The part that has heard the state without nodes.
fn part_of(alloc: Global, rules: Rules) -> DistributorPart {
    let mut part = DistributorPart::new(alloc, 0, Bucket::new(4, 0), rules);
    part.hear(&ClusterState::default());
    part
}

fn rules() -> Rules {
    Rules {
        redundancy: 1,
        acks: 1,
        searchable: 1,
        split_at: 10,
    }
}

/// The note of a whole round that found 7 documents.
fn note_of(alloc: Global, bucket: Bucket) -> RowNote {
    RowNote {
        bucket,
        whole: true,
        holders: NodeSet::of(1),
        over: NodeSet::of(0),
        inside: NodeSet::of(0),
        exact: Vec::new(alloc),
        documents: 7,
    }
}

/// Whether a pass without rows is over at once.
fn first(alloc: Global) -> Option<String> {
    let rules = Rules {
        redundancy: 1,
        acks: 1,
        searchable: 1,
        split_at: 10,
    };
    let mut part = DistributorPart::new(alloc, 0, Bucket::new(4, 0), rules);
    part.hear(&ClusterState::default());
    let mut pass = UpkeepPass::new(alloc);
    let over = matches!(pass.next_step(&part, rules), UpkeepStep::Finished);
    shown(alloc, &over)
}

/// The documents of a row that has a note, and of the same row once that is forgotten.
fn kept(alloc: Global) -> Option<String> {
    let bucket = Bucket::new(4, 3);
    let mut pass = UpkeepPass::new(alloc);
    pass.notes.keep(note_of(alloc, bucket)).ok()?;
    let documents = pass.notes.documents(bucket);
    pass.notes.forget(bucket);
    shown(alloc, &(documents, pass.notes.documents(bucket)))
}

/// After a round of a row that the second joins made: the documents by its note, and whether it is kept that the row was
/// made.
fn rounded(alloc: Global) -> Option<String> {
    let parent = Bucket::new(4, 3);
    let mut pass = UpkeepPass::new(alloc);
    pass.doing = Doing::JoinRound {
        time: Time::Again,
        bits: 5,
        at: 0,
        parent,
    };
    pass.round_over(&part_of(alloc, rules()), note_of(alloc, parent))
        .ok()?;
    let made = pass.made.contains_key(&number_of(parent));
    shown(alloc, &(pass.notes.documents(parent), made))
}

/// Three short sessions, each of one word.
pub fn say(alloc: Global, verb: &str) -> Option<String> {
    match verb {
        "first" => first(alloc),
        "kept" => kept(alloc),
        "rounded" => rounded(alloc),
        _ => None,
    }
}
