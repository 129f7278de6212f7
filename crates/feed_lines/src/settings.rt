ghost use Rattle.std.specs.Prelude.{◌≡◌, codes, IfOk};
ghost use Rattle.line_values.specs.View.{view};
ghost use Rattle.feed_lines.specs.Meaning.{search_said, state_said, stop_said, start_said, net_said, bare_said, Gives};
ghost use Rattle.feed_lines.specs.Tests.{search_in, state_in, deaf_in, node_in, lane_in, fates_in, is_true_in};

use crate::command::{Cause, Command, LineFault};
use crate::options::{bad, or_false};
use crate::shape::{in_net, text_at};
use crate::values::{fates_of, lane_of, node_of, set_said};
use carriers::FateList;
use line_values::LineValue;
use std::alloc::Global;
use value_lists::{NoMemory, TextValue};

/// The text whose query a line asks.
pub fn search_command(alloc: Global, line: &LineValue<'_>) -> Result<Command, LineFault>
    ensures { Gives result (search_said (search_in (view line.now))) }
{
    match text_at("search", line) {
        Some(text) => Ok(Command::Search {
            text: TextValue::of(String::from_str(alloc, text)?),
        }),
        None => Err(bad(Cause::Value)),
    }
}

/// The state that a line publishes.
pub fn state_command(alloc: Global, line: &LineValue<'_>) -> Result<Command, LineFault>
    ensures { Gives result (state_said (state_in (view line.now)) (deaf_in (view line.now))) }
{
    let Some(text) = text_at("state", line) else {
        return Err(bad(Cause::Value));
    };
    let Some(deaf) = set_said(line.get("deaf")) else {
        return Err(bad(Cause::Value));
    };
    let text = TextValue::of(String::from_str(alloc, text)?);
    Ok(Command::State { text, deaf })
}

/// The node whose number is the value of a verb.
fn node_in(key: &str, line: &LineValue<'_>) -> Option<u8>
    ensures { result ≡ node_in key.now (view line.now) }
{
    match line.get(key) {
        Some(value) => node_of(value),
        None => None,
    }
}

/// The node that a line stops.
pub fn stop_command(line: &LineValue<'_>) -> Result<Command, LineFault>
    ensures { Gives result (stop_said (node_in (codes "stop") (view line.now))) }
{
    match node_in("stop", line) {
        Some(node) => Ok(Command::Stop { node }),
        None => Err(bad(Cause::Value)),
    }
}

/// The node that a line starts.
pub fn start_command(line: &LineValue<'_>) -> Result<Command, LineFault>
    ensures { Gives result (start_said (node_in (codes "start") (view line.now))) }
{
    match node_in("start", line) {
        Some(node) => Ok(Command::Start { node }),
        None => Err(bad(Cause::Value)),
    }
}

/// The lane that a line plans messages for.
fn lane_in(bits: u8, line: &LineValue<'_>) -> Option<u8>
    ensures { result ≡ lane_in bits (view line.now) }
{
    match in_net("lane", line.get("net")) {
        Some(value) => lane_of(bits, value),
        None => None,
    }
}

/// The fates that a line plans.
fn fates_in(alloc: Global, line: &LineValue<'_>) -> Result<Option<FateList>, NoMemory>
    ensures { IfOk result (λ fates. fates ≡ fates_in (view line.now)) }
{
    match in_net("fates", line.get("net")) {
        Some(value) => fates_of(alloc, value),
        None => Ok(None),
    }
}

/// What a line plans for the messages of a lane.
pub fn net_command(alloc: Global, line: &LineValue<'_>, bits: u8) -> Result<Command, LineFault>
    ensures { Gives result (net_said (lane_in bits (view line.now)) (fates_in (view line.now))) }
{
    let Some(lane) = lane_in(bits, line) else {
        return Err(bad(Cause::Value));
    };
    match fates_in(alloc, line)? {
        Some(fates) => Ok(Command::Net { lane, fates }),
        None => Err(bad(Cause::Value)),
    }
}

/// Whether the value of a verb is the truth value true.
fn is_true_in(key: &str, line: &LineValue<'_>) -> bool
    ensures { result ≡ is_true_in key.now (view line.now) }
{
    match line.get(key) {
        Some(value) => or_false(value.as_bool()),
        None => false,
    }
}

/// What a line asks for whose verb has the value true, and nothing else.
pub fn bare_command(key: &str, asked: Command, line: &LineValue<'_>) -> Result<Command, LineFault>
    ensures { Gives result (bare_said asked (is_true_in key.now (view line.now))) }
{
    if is_true_in(key, line) {
        Ok(asked)
    } else {
        Err(bad(Cause::Value))
    }
}
