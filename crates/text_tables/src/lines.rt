use crate::found::found;
use crate::texts::{byte, halves, number, shown, word};
use crate::world::World;
use carriers::Fate;
use doc_types::Schema;
use feed_lines::{Command, read_line};
use io_ends::{LineReader, MemorySource, Next};
use line_values::ValueReader;
use message_texts::{MessageFault, message_text, read_message};
use messages::{Message, OpKind, Operation};
use reports::{Answer, report};
use serde_json::Value;
use std::alloc::Global;
use words_line::read_words;

/// The JSON value that a text is, written without spaces and with its keys in order, or why it is none.
pub fn json_value(alloc: Global, values: &mut ValueReader, text: &str) -> Option<String> {
    match values.read(alloc, text) {
        Ok(_) => written(alloc, text),
        Err(fault) => shown(alloc, &fault),
    }
}

/// The JSON of a text's value, as `serde_json` reads and writes it.
fn written(alloc: Global, text: &str) -> Option<String> {
    match Value::from_str(alloc, text) {
        Ok(value) => value.to_string(alloc).ok(),
        Err(_) => None,
    }
}

/// What a line of a feed asks for, or its cause. In a text behind `%byte ` each `#` is the byte 255.
pub fn line_told(alloc: Global, world: &mut World, text: &str) -> Option<String> {
    match bytes_of(alloc, text) {
        Some(bytes) => bytes_told(alloc, world, &bytes),
        None => None,
    }
}

fn bytes_told(alloc: Global, world: &mut World, bytes: &[u8]) -> Option<String> {
    match read_line(alloc, &mut world.values, bytes, &world.standard, 4) {
        Ok(command) => command_told(alloc, &command),
        Err(fault) => shown(alloc, &fault),
    }
}

fn bytes_of(alloc: Global, text: &str) -> Option<Vec<u8>> {
    let mut bytes = Vec::new(alloc);
    let good = match text.strip_prefix("%byte ") {
        Some(rest) => put_bytes(&mut bytes, rest),
        None => bytes.extend_from_slice(text.as_bytes()).is_ok(),
    };
    if good { Some(bytes) } else { None }
}

fn put_bytes(bytes: &mut Vec<u8>, text: &str) -> bool {
    let mut good = true;
    for byte in text.bytes() {
        let byte = if byte == b'#' { 255 } else { byte };
        good &= bytes.push(byte).is_ok();
    }
    good
}

fn command_told(alloc: Global, command: &Command) -> Option<String> {
    match command {
        Command::Blank => shown(alloc, &"blank"),
        Command::Feed { operation, via } => shown(alloc, &(kind_of(operation), via)),
        Command::Search { text } => shown(alloc, &("search", text.text())),
        Command::State { text, deaf } => shown(alloc, &("state", text.text(), deaf.bits())),
        Command::Stop { node } => shown(alloc, &("stop", node)),
        Command::Start { node } => shown(alloc, &("start", node)),
        Command::Net { lane, fates } => fates_told(alloc, *lane, fates.items()),
        Command::Maintain => shown(alloc, &"upkeep"),
        Command::Barrier => shown(alloc, &"barrier"),
    }
}

fn fates_told(alloc: Global, lane: u8, fates: &[Fate]) -> Option<String> {
    let first = fates.get(..6).unwrap_or(fates);
    shown(alloc, &("fates", lane, fates.len(), first))
}

fn kind_of(operation: &Operation) -> &'static str {
    match operation.kind {
        OpKind::Put(_) => "put",
        OpKind::Update(_) => "update",
        OpKind::Remove => "remove",
        OpKind::Get => "get",
    }
}

/// What the words of the command say, behind the program's name; a word ends at `|`, and `none` are no words but
/// that, and `nothing` no words at all.
pub fn options_told(alloc: Global, asked: &str) -> Option<String> {
    let mut words = Vec::new(alloc);
    let good = match asked {
        "nothing" => true,
        "none" => put_word(alloc, &mut words, NAME),
        asked => put_word(alloc, &mut words, NAME) && put_words(alloc, &mut words, asked),
    };
    if good {
        shown(alloc, &read_words(alloc, &words))
    } else {
        None
    }
}

/// The program's name.
const NAME: &str = "vespa_cell";

fn put_words(alloc: Global, words: &mut Vec<String>, asked: &str) -> bool {
    let mut good = true;
    for word in asked.split('|') {
        good &= put_word(alloc, words, word);
    }
    good
}

fn put_word(alloc: Global, words: &mut Vec<String>, word: &str) -> bool {
    match String::from_str(alloc, word) {
        Ok(word) => words.push(word).is_ok(),
        Err(_) => false,
    }
}

/// What a reader gives for the text of the second half, where that call of its source fails which the first names: each
/// answer, and how long the line is.
pub fn lines_read(alloc: Global, asked: &str) -> Option<String> {
    match source_of(alloc, asked) {
        Some(mut source) => all_read(alloc, &mut source),
        None => None,
    }
}

fn source_of(alloc: Global, asked: &str) -> Option<MemorySource> {
    let (failing, text) = halves(asked);
    let bytes = bytes_of(alloc, text)?;
    match vec![in alloc; number(failing, 0)] {
        Ok(calls) => Some(MemorySource::new(bytes, calls)),
        Err(_) => None,
    }
}

fn all_read(alloc: Global, source: &mut MemorySource) -> Option<String> {
    let mut reader = LineReader::new(alloc, 100, 10).ok()?;
    let mut line = Vec::new(alloc);
    let mut told = Vec::new(alloc);
    let mut good = true;
    for _ in 0..4 {
        let next = reader.next(source, &mut line);
        good &= told.push((next, length_of(next, &line))).is_ok();
    }
    if good { shown(alloc, &told) } else { None }
}

/// The length of a line, where one is given.
fn length_of(next: Next, line: &[u8]) -> usize {
    match next {
        Next::Line { .. } => line.len(),
        _ => 0,
    }
}

/// The report of an answer: the line's number, what the answer is, and its numbers.
pub fn reported(alloc: Global, asked: &str) -> Option<String> {
    let (kind, numbers) = halves(asked);
    let line = word(numbers, 0);
    match kind {
        "Search" => search_told(alloc, line, numbers),
        _ => report_told(alloc, line, &answer_of(kind, numbers)),
    }
}

fn search_told(alloc: Global, line: u32, words: &str) -> Option<String> {
    match found(alloc, words) {
        Some(answer) => report_told(alloc, line, &Answer::Search { answer }),
        None => None,
    }
}

fn report_told(alloc: Global, line: u32, answer: &Answer) -> Option<String> {
    match report(alloc, line, answer) {
        Ok(bytes) => line_of(alloc, &bytes),
        Err(_) => None,
    }
}

/// The text of a line without its end.
fn line_of(alloc: Global, bytes: &[u8]) -> Option<String> {
    let text = str::from_utf8(bytes).unwrap_or("");
    let line = text.strip_suffix("\n").unwrap_or("no line");
    String::from_str(alloc, line).ok()
}

fn answer_of(kind: &str, numbers: &str) -> Answer {
    let (one, two, three) = (byte(numbers, 1), byte(numbers, 2), byte(numbers, 3));
    match kind {
        "TooManyOut" => Answer::TooManyOut {
            out: one,
            acks: two,
        },
        "TooFewUp" => Answer::TooFewUp { up: one, acks: two },
        "Stopped" => Answer::Stopped { node: one },
        "Started" => Answer::Started { node: one },
        "Planned" => Answer::Planned { taken: one == 1 },
        "Maintained" => Answer::Maintained {
            lanes: one,
            rested: two,
            blocked: three,
            disturbed: byte(numbers, 4),
        },
        "TooFew" => Answer::TooFew {
            answered: one,
            needed: two,
            absent: three,
        },
        "OwnedElsewhere" => Answer::OwnedElsewhere {
            owner: one,
            version: word(numbers, 2),
        },
        _ => answer_of_state(kind, word(numbers, 1)),
    }
}

fn answer_of_state(kind: &str, number: u32) -> Answer {
    match kind {
        "NotNewer" => Answer::NotNewer { have: number },
        "Published" => Answer::Published { version: number },
        "BadState" => Answer::BadState { offset: number },
        "BadQuery" => Answer::BadQuery { offset: number },
        "NoDistributor" => Answer::NoDistributor,
        "TooLong" => Answer::TooLong,
        "Barrier" => Answer::Barrier,
        _ => Answer::NoMemory,
    }
}

/// Whether a text is that of the message that it is read as.
pub fn message_read(alloc: Global, schema: &Schema, text: &str) -> Option<String> {
    match read_message(alloc, text.as_bytes(), schema) {
        Ok(message) => shown(alloc, &is_text(alloc, &message, text)?),
        Err(MessageFault::BadMessage) => shown(alloc, &false),
        Err(MessageFault::NoMemory) => None,
    }
}

fn is_text(alloc: Global, message: &Message, text: &str) -> Option<bool> {
    match message_text(alloc, message) {
        Ok(printed) => Some(printed.as_slice() == text.as_bytes()),
        Err(_) => None,
    }
}
