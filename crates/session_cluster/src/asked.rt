ghost use Rattle.std.specs.Prelude.{◌<◌, ℕ, IfOk};
ghost use Rattle.session_cluster.specs.Asking.{IsOfText, IsOfQuery, IsAskedBy, IsAsked, IsOwnAsked};
ghost use Rattle.feed_lines.specs.Meaning.{line_said};

use carriers::FateList;
use cluster_states::ClusterState;
use doc_types::Schema;
use feed_lines::laws::commands_are_in_range;
use feed_lines::{Cause, Command, LineFault, read_line};
use io_ends::LONGEST;
use line_values::ValueReader;
use messages::Operation;
use node_sets::NodeSet;
use query_text::parsed::Parsed;
use query_text::{Query, QueryFault};
use std::alloc::Global;
use value_lists::NoMemory;

/// What a line of a session asks for.
#[derive(Drop)]
pub enum Asked {
    /// Nothing: a number and no report.
    Blank,
    /// It has more than 65,536 bytes.
    TooLong,
    /// It is bad, for this cause.
    Bad {
        cause: Cause,
    },
    /// An operation on one document, handed to this distributor, if one is named.
    Feed {
        operation: Operation,
        via: Option<u8>,
    },
    /// The state is published, and these distributors don't hear of it.
    State {
        state: ClusterState,
        deaf: NodeSet,
    },
    /// A state is published, but the text is that of none, and of the front of one up to this place.
    BadState {
        offset: u32,
    },
    /// A node stops.
    Stop {
        node: u8,
    },
    /// A node starts.
    Start {
        node: u8,
    },
    /// What becomes of the coming messages of a lane.
    Net {
        lane: u8,
        fates: FateList,
    },
    /// Upkeep is made in every lane.
    Maintain,
    /// What was asked before is answered before what comes behind begins.
    Barrier,
    /// Documents are searched for.
    Search {
        query: Parsed,
    },
    /// Documents are searched for, but the text is no query; it is refused at this place.
    BadQuery {
        offset: u32,
    },
}

/// What a line asks for that publishes the state of a text.
fn of_text(text: &str, deaf: NodeSet) -> Asked
    ensures value { IsOfText text.now deaf result }
    ensures own { (bits : ℕ) → IsOwnAsked bits result }
{
    match ClusterState::parse(text) {
        Ok(state) => Asked::State { state, deaf },
        Err(bad) => Asked::BadState { offset: bad.offset },
    }
}

/// What a line asks for that searches by a text, under a schema.
fn of_query(alloc: Global, text: &str, schema: &Schema) -> Result<Asked, NoMemory>
    ensures value { IfOk result (λ a. IsOfQuery schema.now text.now a) }
    ensures own { IfOk result (λ a. (bits : ℕ) → IsOwnAsked bits a) }
{
    match Query::parse(alloc, text, schema) {
        Ok(query) => Ok(Asked::Search {
            query: Parsed::of(query),
        }),
        Err(QueryFault::BadQuery { offset }) => Ok(Asked::BadQuery { offset }),
        Err(QueryFault::NoMemory) => Err(NoMemory),
    }
}

/// What a line of at most 65,536 bytes asks for.
fn short_asked(
    alloc: Global,
    values: &mut ValueReader,
    schema: &Schema,
    bits: u8,
    bytes: &[u8],
) -> Result<Asked, NoMemory>
    requires { bits < 8 }
    ensures value { IfOk result (λ a. IsAskedBy schema.now (line_said schema.now bits bytes.now) a) }
    ensures own { IfOk result (λ a. IsOwnAsked bits a) }
{
    commands_are_in_range();
    match read_line(alloc, values, bytes, schema, bits) {
        Ok(Command::Blank) => Ok(Asked::Blank),
        Ok(Command::Feed { operation, via }) => Ok(Asked::Feed { operation, via }),
        Ok(Command::Search { text }) => of_query(alloc, text.text(), schema),
        Ok(Command::State { text, deaf }) => Ok(of_text(text.text(), deaf)),
        Ok(Command::Stop { node }) => Ok(Asked::Stop { node }),
        Ok(Command::Start { node }) => Ok(Asked::Start { node }),
        Ok(Command::Net { lane, fates }) => Ok(Asked::Net { lane, fates }),
        Ok(Command::Maintain) => Ok(Asked::Maintain),
        Ok(Command::Barrier) => Ok(Asked::Barrier),
        Err(LineFault::BadLine { cause }) => Ok(Asked::Bad { cause }),
        Err(LineFault::NoMemory) => Err(NoMemory),
    }
}

/// What a line asks for in a session of 2^bits lanes, from its bytes without the line feed.
pub fn asked_of(
    alloc: Global,
    values: &mut ValueReader,
    schema: &Schema,
    bits: u8,
    bytes: &[u8],
) -> Result<Asked, NoMemory>
    requires { bits < 8 }
    ensures value { IfOk result (λ a. IsAsked schema.now bits bytes.now a) }
    ensures own { IfOk result (λ a. IsOwnAsked bits a) }
{
    if bytes.len() > LONGEST {
        return Ok(Asked::TooLong);
    }
    short_asked(alloc, values, schema, bits, bytes)
}
