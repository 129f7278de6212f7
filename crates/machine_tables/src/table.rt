//! The lines of a table, and what stands right of their equals sign.

use crate::machines::Machines;
use crate::texts::halves;
use std::alloc::Global;
use std::fmt::Debug;
use std::{fs, io};

/// A value as `{:?}` prints it.
pub fn shown<T: Debug>(alloc: Global, value: &T) -> Option<String> {
    format!(in alloc; "{value:?}").ok()
}

/// The answer where there is nothing to tell, if it was done.
pub fn done(alloc: Global, is_done: bool) -> Option<String> {
    if is_done {
        String::from_str(alloc, "done").ok()
    } else {
        None
    }
}

/// What comes of the words left of the equals sign.
fn answer(alloc: Global, machines: &mut Machines, table: &str, said: &str) -> Option<String> {
    let (verb, rest) = halves(said);
    machines.say(alloc, table, verb, rest)
}

/// Whether an answer is what is wanted.
fn is_wanted(came: &Option<String>, wanted: &str) -> bool {
    match came {
        Some(came) => came.trim_end() == wanted,
        None => false,
    }
}

/// Says a line, and prints it where something else comes of it.
fn judge(
    rt: &HostRuntime,
    machines: &mut Machines,
    table: &str,
    said: &str,
    wanted: &str,
) -> io::Result<bool> {
    let came = answer(rt.alloc(), machines, table, said);
    if is_wanted(&came, wanted) {
        return Ok(true);
    }
    println!(rt; "DIFFERS {said} = {wanted}\ncame {came:?}")?;
    Ok(false)
}

/// Says all lines of a table but its comments, and how many of them are right; true where one of them is wrong.
pub fn hold(rt: &HostRuntime, machines: &mut Machines, table: &str) -> io::Result<bool> {
    let text = fs::read_to_string(rt, table)?;
    hold_lines(rt, machines, table, &text)
}

fn hold_lines(
    rt: &HostRuntime,
    machines: &mut Machines,
    table: &str,
    text: &str,
) -> io::Result<bool> {
    let mut right = 0u64;
    let mut wrong = false;
    for line in text.lines() {
        if let Some((said, wanted)) = case_of(line) {
            if judge(rt, machines, table, said, wanted)? {
                right = right.wrapping_add(1);
            } else {
                wrong = true;
            }
        }
    }
    println!(rt; "{table}: {right} lines are right")?;
    Ok(wrong)
}

/// What a line says and what it wants, if it is no comment.
fn case_of(line: &str) -> Option<(&str, &str)> {
    if line.starts_with('#') {
        None
    } else {
        line.split_once(" = ")
    }
}
