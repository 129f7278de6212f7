use crate::facts::is_fact;
use std::alloc::Global;
use value_lists::NoMemory;

/// The number that stands at a place among words, from 0; 0 where none does.
pub fn number(words: &str, place: usize) -> u32 {
    match words.split(' ').nth(place) {
        Some(word) => word.parse::<u32>().unwrap_or(0),
        None => 0,
    }
}

/// Appends the bytes of these lines. Of a line that begins with a word behind `%`:
///
/// - `%repeat N LINE` stands for N times this line;
/// - `%count N TEXT` for N lines of a text, each with its number from 1 in the place of `#`;
/// - `%long N` for a line of N letters x;
/// - `%bytes B ..` for these bytes, without a line feed;
/// - `%open` takes the last line feed away, so that the next line goes on there;
/// - `%source_fails N` and `%sink_fails N` stand for nothing: call N of that end fails;
/// - `%fates F ..` stands for nothing: the first messages of lane 0 have these fates, where a number is that
///   of a late one;
/// - a fact stands for nothing (`facts`).
pub fn expand(alloc: Global, bytes: &mut Vec<u8>, lines: &str) -> Result<(), NoMemory> {
    for line in lines.lines() {
        if let Some(rest) = line.strip_prefix("%repeat ") {
            put_repeated(bytes, rest)?;
        } else if let Some(rest) = line.strip_prefix("%count ") {
            put_counted(alloc, bytes, rest)?;
        } else {
            put(bytes, line)?;
        }
    }
    Ok(())
}

/// Appends a line as many times as the number in front of it says.
fn put_repeated(bytes: &mut Vec<u8>, rest: &str) -> Result<(), NoMemory> {
    let (count, repeated) = rest.split_once(' ').unwrap_or(("", rest));
    for _ in 0..number(count, 0) {
        put(bytes, repeated)?;
    }
    Ok(())
}

/// Appends a text as many times as the number in front of it says, each time with another number.
fn put_counted(alloc: Global, bytes: &mut Vec<u8>, rest: &str) -> Result<(), NoMemory> {
    let (count, text) = rest.split_once(' ').unwrap_or(("", rest));
    for before in 0..number(count, 0) {
        put_numbered(alloc, bytes, text, before + 1)?;
    }
    Ok(())
}

/// Appends what a line stands for that is neither repeated nor counted.
fn put(bytes: &mut Vec<u8>, line: &str) -> Result<(), NoMemory> {
    if let Some(count) = line.strip_prefix("%long ") {
        for _ in 0..number(count, 0) {
            bytes.push(b'x')?;
        }
        bytes.push(b'\n')?;
    } else if let Some(list) = line.strip_prefix("%bytes ") {
        for byte in list.split(' ') {
            bytes.push(byte.parse::<u8>().unwrap_or(0))?;
        }
    } else if line == "%open" {
        bytes.pop();
    } else if !stands_for_nothing(line) {
        bytes.extend_from_slice(line.as_bytes())?;
        bytes.push(b'\n')?;
    }
    Ok(())
}

fn stands_for_nothing(line: &str) -> bool {
    line.starts_with("%source_fails ")
        || line.starts_with("%sink_fails ")
        || line.starts_with("%fates ")
        || is_fact(line)
}

/// Appends a line, with a number in the place of each `#`.
fn put_numbered(
    alloc: Global,
    bytes: &mut Vec<u8>,
    text: &str,
    number: u32,
) -> Result<(), NoMemory> {
    let number = format!(in alloc; "{number}")?;
    let line = text.replace(alloc, "#", &number)?;
    bytes.extend_from_slice(line.as_bytes())?;
    bytes.push(b'\n')?;
    Ok(())
}
