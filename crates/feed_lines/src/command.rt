ghost use Rattle.std.specs.Prelude.{◌≡◌};
ghost use Rattle.feed_lines.specs.declared.command.LineFault.TheVariants as line_fault;

use carriers::FateList;
use messages::Operation;
use node_sets::NodeSet;
use std::alloc::AllocError;
use thiserror::Error;
use value_lists::{NoMemory, TextValue};

/// What a line asks for.
#[derive(Drop)]
pub enum Command {
    /// Nothing: it has at most 65,536 bytes, which are spaces, tabs and CR alone.
    Blank,
    /// An operation on one document, handed to this distributor, if one is named.
    Feed {
        operation: Operation,
        via: Option<u8>,
    },
    /// What the query of a text finds is counted.
    Search {
        text: TextValue,
    },
    /// The state that a text says is published, and these distributors don't hear of it.
    State {
        text: TextValue,
        deaf: NodeSet,
    },
    /// A node stops.
    Stop {
        node: u8,
    },
    /// A node starts.
    Start {
        node: u8,
    },
    /// What becomes of the coming messages of a lane.
    Net {
        lane: u8,
        fates: FateList,
    },
    /// Every lane is kept in order: upkeep.
    Maintain,
    /// What was asked before is answered before what comes behind begins.
    Barrier,
}

/// Why a line is bad; of the causes that a line has, the first in this order.
#[derive(Clone, Copy, Debug, PartialEq, Eq)]
pub enum Cause {
    /// The bytes aren't one JSON value, or aren't UTF-8.
    Json,
    /// The value isn't an object with exactly one verb.
    Object,
    /// A key isn't the verb's, or `fields`, `lane` or `fates` is missing.
    Key,
    /// The id isn't a text, or is no document id.
    Id,
    /// The schema hasn't the id's type.
    Type,
    /// A name in `fields` isn't a field of the type.
    Field,
    /// Another value has the wrong form, kind or range.
    Value,
    /// The document would have more than 65,536 bytes.
    Size,
    /// The text of `condition` is no selection under the schema.
    Condition,
}

/// Why a line gives no command.
#[derive(Clone, Copy, Debug, PartialEq, Eq, Error)]
pub enum LineFault {
    #[error("a bad line")]
    BadLine { cause: Cause },
    #[error("out of memory")]
    NoMemory,
}

impl From<NoMemory> for LineFault {
    ghost from_gives = { λ _ e. e ≡ line_fault.NoMemory };

    fn from(_error: NoMemory) -> LineFault {
        LineFault::NoMemory
    }
}

impl From<AllocError> for LineFault {
    ghost from_gives = { λ _ e. e ≡ line_fault.NoMemory };

    fn from(_error: AllocError) -> LineFault {
        LineFault::NoMemory
    }
}
