//! All machines.

use crate::fates::Late;
use crate::maps::Maps;
use crate::marks::Marks;
use crate::node::Node;
use crate::parts::Parts;
use crate::rounds::Rounds;
use crate::{calls, notes, rows, runs, spans};
use std::alloc::Global;

/// The machines that lines speak to. Each stays as it is from line to line, until one says `begin` or `clear`.
#[derive(Drop)]
pub struct Machines {
    maps: Maps,
    marks: Marks,
    node: Node,
    rounds: Rounds,
    parts: Parts,
    late: Late,
}

impl Machines {
    /// The machines before any line.
    pub fn new(alloc: Global) -> Machines {
        Machines {
            maps: Maps::new(alloc),
            marks: Marks::new(),
            node: Node::new(alloc),
            rounds: Rounds::new(alloc),
            parts: Parts::new(alloc),
            late: Late::new(alloc),
        }
    }

    /// Does what a line of a table says, and tells what comes of it; none where it has no such words, where what they
    /// say can't be done, or where memory is wanted.
    pub fn say(&mut self, alloc: Global, table: &str, verb: &str, rest: &str) -> Option<String> {
        match table {
            "maps" => self.maps.say(alloc, verb, rest),
            "rows" => rows::say(alloc, verb, rest),
            "marks" => self.marks.say(alloc, verb, rest),
            "notes" => notes::say(alloc, verb, rest),
            "conversations" | "random_lists" => self.node.say(alloc, verb, rest),
            "rounds" => self.rounds.say(alloc, verb, rest),
            "runs" => runs::say(alloc, verb, rest),
            "parts" => self.parts.say(alloc, verb, rest),
            "fates" => self.late.say(alloc, verb, rest),
            "spans" => spans::say(alloc, verb, rest),
            "calls" => calls::say(alloc, verb),
            _ => None,
        }
    }
}
