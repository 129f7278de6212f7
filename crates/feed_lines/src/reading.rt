ghost use Rattle.std.specs.Prelude.{◌≡◌, Some};
ghost use Rattle.std.specs.List.{list_all};
ghost use Rattle.serde_json.specs.Read.{read};
ghost use Rattle.line_values.specs.Order.{HasRising};
ghost use Rattle.line_values.specs.View.{view};
ghost use Rattle.feed_lines.specs.Meaning.{is_blank, is_blank_line, own_said, verb_said, data_said, json_said, text_said, line_said, Gives};

use crate::command::{Cause, Command, LineFault};
use crate::keys::LineVerb;
use crate::operations::feed_command;
use crate::options::bad;
use crate::settings::{
    bare_command, net_command, search_command, start_command, state_command, stop_command,
};
use crate::shape::{has_right_keys, verb_of};
use doc_types::Schema;
use io_ends::LONGEST;
use line_values::{LineValue, ReadFault, ValueReader};
use simdutf8::basic::from_utf8;
use std::alloc::Global;

fn is_blank_byte(byte: u8) -> bool
    ensures { result ≡ is_blank byte }
{
    byte == b' ' || byte == b'\t' || byte == b'\r'
}

fn all_blank(bytes: &[u8]) -> bool
    ensures { result ≡ list_all is_blank bytes.now }
{
    bytes.iter().all(|byte| is_blank_byte(*byte))
}

#[tactic(auto, unfolding(crate::specs::Meaning::is_blank_line))]
fn is_blank_line(bytes: &[u8]) -> bool
    ensures { result ≡ is_blank_line bytes.now }
{
    bytes.len() <= LONGEST && all_blank(bytes)
}

/// What a line with the right keys asks for.
fn own_command(
    alloc: Global,
    verb: LineVerb,
    line: &LineValue<'_>,
    schema: &Schema,
    bits: u8,
) -> Result<Command, LineFault>
    requires { HasRising (view line.now) }
    ensures { Gives result (own_said schema.now bits verb (view line.now)) }
{
    match verb {
        LineVerb::Feed(verb) => feed_command(alloc, verb, line, schema),
        LineVerb::Search => search_command(alloc, line),
        LineVerb::State => state_command(alloc, line),
        LineVerb::Stop => stop_command(line),
        LineVerb::Start => start_command(line),
        LineVerb::Net => net_command(alloc, line, bits),
        LineVerb::Maintain => bare_command("maintain", Command::Maintain, line),
        LineVerb::Barrier => bare_command("barrier", Command::Barrier, line),
    }
}

/// What a line of a verb asks for.
fn verb_command(
    alloc: Global,
    verb: LineVerb,
    line: &LineValue<'_>,
    schema: &Schema,
    bits: u8,
) -> Result<Command, LineFault>
    requires { HasRising (view line.now) }
    ensures { Gives result (verb_said schema.now bits (view line.now) (Some verb)) }
{
    if !has_right_keys(verb, line) {
        return Err(bad(Cause::Key));
    }
    own_command(alloc, verb, line, schema, bits)
}

/// What a JSON value asks for.
fn data_command(
    alloc: Global,
    line: &LineValue<'_>,
    schema: &Schema,
    bits: u8,
) -> Result<Command, LineFault>
    requires { HasRising (view line.now) }
    ensures { Gives result (data_said schema.now bits (view line.now)) }
{
    match verb_of(line) {
        Some(verb) => verb_command(alloc, verb, line, schema, bits),
        None => Err(bad(Cause::Object)),
    }
}

/// What a text asks for.
fn json_command(
    alloc: Global,
    values: &mut ValueReader,
    text: &str,
    schema: &Schema,
    bits: u8,
) -> Result<Command, LineFault>
    ensures { Gives result (json_said schema.now bits (read text.now)) }
{
    match values.read(alloc, text) {
        Ok(line) => data_command(alloc, &line, schema, bits),
        Err(ReadFault::Text) => Err(bad(Cause::Json)),
        Err(ReadFault::NoMemory) => Err(LineFault::NoMemory),
    }
}

/// What bytes ask for.
fn text_command(
    alloc: Global,
    values: &mut ValueReader,
    bytes: &[u8],
    schema: &Schema,
    bits: u8,
) -> Result<Command, LineFault>
    ensures { Gives result (text_said schema.now bits bytes.now) }
{
    match from_utf8(bytes) {
        Ok(text) => json_command(alloc, values, text, schema, bits),
        Err(_) => Err(bad(Cause::Json)),
    }
}

/// What a line asks for in a session of 2^bits lanes, from its bytes without the line feed; a bad line has the
/// first cause that holds of it. The caller keeps the reader of values from line to line.
#[tactic(auto, unfolding(crate::specs::Meaning::line_said))]
pub fn read_line(
    alloc: Global,
    values: &mut ValueReader,
    bytes: &[u8],
    schema: &Schema,
    bits: u8,
) -> Result<Command, LineFault>
    ensures { Gives result (line_said schema.now bits bytes.now) }
{
    if is_blank_line(bytes) {
        return Ok(Command::Blank);
    }
    text_command(alloc, values, bytes, schema, bits)
}
