use crate::facts::is_fact;
use crate::fated::FirstLaneFates;
use crate::lines::{expand, number};
use crate::played::{Played, play};
use carriers::Fate;
use io_ends::{MemorySink, MemorySource};
use std::alloc::Global;
use value_lists::NoMemory;

/// A session as a story says it.
#[derive(Drop)]
pub struct Session {
    alloc: Global,
    /// The words, of which the first is the program's name.
    words: Vec<String>,
    /// The bytes that it reads.
    input: Vec<u8>,
    /// The calls of the source that fail, from 0.
    reads: Vec<u64>,
    /// The calls of the sink that fail.
    writes: Vec<u64>,
    /// The fates of the first messages of lane 0; all others are delivered.
    fates: Vec<Fate>,
}

/// What a session must come to.
#[derive(Drop)]
pub struct Wanted {
    /// The bytes that it must write.
    pub output: Vec<u8>,
    /// What must be so of the cluster that it leaves, one fact a line.
    pub facts: String,
    /// The exit status that it must end with.
    pub status: u8,
}

/// The two sides of a place where a word stands; all is before it where it doesn't stand.
fn cut<'a>(text: &'a str, word: &str) -> (&'a str, &'a str) {
    text.split_once(word).unwrap_or((text, ""))
}

impl Session {
    /// Reads what stands before the line of four dashes: a line of words, and the input.
    pub fn read(alloc: Global, text: &str) -> Result<Session, NoMemory> {
        let mut session = Session {
            alloc,
            words: Vec::new(alloc),
            input: Vec::new(alloc),
            reads: Vec::new(alloc),
            writes: Vec::new(alloc),
            fates: Vec::new(alloc),
        };
        session.take(text)?;
        Ok(session)
    }

    fn take(&mut self, text: &str) -> Result<(), NoMemory> {
        let (words, rest) = cut(text, "\n");
        let (input, _) = cut(rest, "----\n");
        put_words(self.alloc, &mut self.words, words)?;
        expand(self.alloc, &mut self.input, input)?;
        put_calls(&mut self.reads, input, "%source_fails ")?;
        put_calls(&mut self.writes, input, "%sink_fails ")?;
        put_fates(&mut self.fates, input)
    }

    /// Runs the session.
    pub fn play(self) -> Played {
        let sink = MemorySink::new(self.alloc, self.writes);
        let source = MemorySource::new(self.input, self.reads);
        play(
            self.alloc,
            self.words,
            source,
            sink,
            FirstLaneFates::new(self.fates),
        )
    }
}

impl Wanted {
    /// Reads what stands behind the line of four dashes: the output, facts of what is left, and a line with the status.
    pub fn read(alloc: Global, text: &str) -> Result<Wanted, NoMemory> {
        let (_, rest) = cut(text, "----\n");
        let rest = rest.trim_end();
        let (output, status) = rest.rsplit_once('\n').unwrap_or(("", rest));
        let mut wanted = Wanted {
            output: Vec::new(alloc),
            facts: String::new(alloc),
            status: status.parse::<u8>().unwrap_or(255),
        };
        expand(alloc, &mut wanted.output, output)?;
        put_facts(&mut wanted.facts, output)?;
        Ok(wanted)
    }
}

/// Appends the words of a line.
fn put_words(alloc: Global, words: &mut Vec<String>, line: &str) -> Result<(), NoMemory> {
    for word in line.split(' ') {
        words.push(word.replace(alloc, "+", " ")?)?;
    }
    Ok(())
}

/// Appends the lines that say facts.
fn put_facts(facts: &mut String, lines: &str) -> Result<(), NoMemory> {
    for line in lines.lines() {
        if is_fact(line) {
            facts.push_str(line)?;
            facts.push('\n')?;
        }
    }
    Ok(())
}

/// Appends the fates that the lines say which begin with `%fates`.
fn put_fates(fates: &mut Vec<Fate>, lines: &str) -> Result<(), NoMemory> {
    for line in lines.lines() {
        if let Some(rest) = line.strip_prefix("%fates ") {
            for word in rest.split(' ') {
                fates.push(fate_of(word))?;
            }
        }
    }
    Ok(())
}

fn fate_of(word: &str) -> Fate {
    match word {
        "deliver" => Fate::Deliver,
        "lose_request" => Fate::LoseRequest,
        "lose_reply" => Fate::LoseReply,
        "twice" => Fate::Twice,
        _ => Fate::Late(number(word, 0)),
    }
}

/// Appends the numbers of the lines that begin with a word.
fn put_calls(calls: &mut Vec<u64>, lines: &str, word: &str) -> Result<(), NoMemory> {
    for line in lines.lines() {
        if let Some(call) = line.strip_prefix(word) {
            calls.push(u64::from(number(call, 0)))?;
        }
    }
    Ok(())
}
