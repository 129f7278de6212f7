//! The lines of a table, and what stands right of their equals sign.

use crate::parts::{Parts, shapes};
use crate::texts::{fits, halves};
use std::alloc::Global;
use std::fmt::Debug;
use std::{fs, io};

/// A value as `{:?}` prints it.
pub fn shown<T: Debug>(alloc: Global, value: &T) -> Option<String> {
    format!(in alloc; "{value:?}").ok()
}

/// The answer where there is nothing to tell, if it was done.
pub fn done(alloc: Global, is_done: bool) -> Option<String> {
    if is_done {
        String::from_str(alloc, "done").ok()
    } else {
        None
    }
}

/// What comes of the words left of the equals sign: none where a table has no such words, where what they say can't be
/// done, or where memory is wanted. The lines of `random_lists` name the table first.
fn answer(alloc: Global, parts: &mut Parts, table: &str, said: &str) -> Option<String> {
    let (table, said) = match table {
        "random_lists" => halves(said),
        table => (table, said),
    };
    let (verb, rest) = halves(said);
    if fits(shapes(table), verb, rest) {
        parts.say(alloc, table, verb, rest)
    } else {
        None
    }
}

/// Whether an answer is what is wanted.
fn is_wanted(came: &Option<String>, wanted: &str) -> bool {
    match came {
        Some(came) => came.trim_end() == wanted,
        None => false,
    }
}

/// Says a line, and prints it where something else comes of it.
fn judge(
    rt: &HostRuntime,
    parts: &mut Parts,
    table: &str,
    said: &str,
    wanted: &str,
) -> io::Result<bool> {
    let came = answer(rt.alloc(), parts, table, said);
    if is_wanted(&came, wanted) {
        return Ok(true);
    }
    println!(rt; "DIFFERS {said} = {wanted}\ncame {came:?}")?;
    Ok(false)
}

/// Says all lines of a table but its comments, and how many of them are right; true where one of them is wrong.
pub fn hold(rt: &HostRuntime, parts: &mut Parts, table: &str) -> io::Result<bool> {
    let text = fs::read_to_string(rt, table)?;
    hold_lines(rt, parts, table, &text)
}

fn hold_lines(rt: &HostRuntime, parts: &mut Parts, table: &str, text: &str) -> io::Result<bool> {
    let mut right = 0u64;
    let mut wrong = false;
    for line in text.lines() {
        if let Some((said, wanted)) = case_of(line) {
            if judge(rt, parts, table, said, wanted)? {
                right = right.wrapping_add(1);
            } else {
                wrong = true;
            }
        }
    }
    println!(rt; "{table}: {right} lines are right")?;
    Ok(wrong)
}

/// What a line says and what it wants, if it is no comment.
fn case_of(line: &str) -> Option<(&str, &str)> {
    if line.starts_with('#') {
        None
    } else {
        line.split_once(" = ")
    }
}
