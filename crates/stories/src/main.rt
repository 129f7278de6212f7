//! Runs the worked sessions of `data/` through the top call of the product, over ends in memory, and
//! prints one line for each, and then what a session leaves. `data/index` names them; a new story is a new
//! file and a line there.
#![tactic(auto)]

mod facts;
mod fated;
mod left;
mod lines;
mod played;
mod story;

use crate::facts::facts_of;
use crate::left::print_left;
use crate::played::Played;
use crate::story::{Session, Wanted};
use anyhow::Result;
use std::fs;
use std::process::ExitCode;

fn main(rt: HostRuntime) -> Result<ExitCode> {
    let mut failed = 0u8;
    let index = fs::read_to_string(&rt, "index")?;
    for name in index.lines() {
        if !tell(&rt, name)? {
            failed = 1;
        }
    }
    print_left(&rt)?;
    Ok(ExitCode::from(failed))
}

/// Runs the session of a story, and prints whether it came to what the story wants.
fn tell(rt: &HostRuntime, name: &str) -> Result<bool> {
    let text = fs::read_to_string(rt, name)?;
    let wanted = Wanted::read(rt.alloc(), &text)?;
    let played = Session::read(rt.alloc(), &text)?.play();
    let facts = facts_of(rt.alloc(), &played.cluster, &wanted.facts)?;
    print_compared(rt, name, &wanted, &played, &facts)
}

/// Prints whether what came is what is wanted, and both where they differ.
fn print_compared(
    rt: &HostRuntime,
    name: &str,
    wanted: &Wanted,
    played: &Played,
    facts: &str,
) -> Result<bool> {
    let (status, bytes) = (played.status, played.sink.bytes());
    if status == wanted.status
        && bytes == wanted.output.as_slice()
        && facts == wanted.facts.as_str()
    {
        println!(rt; "ok {name}")?;
        return Ok(true);
    }
    println!(rt; "DIFFERS {name}")?;
    println!(rt;
        "wanted status {} and\n{}{}",
        wanted.status,
        shown(&wanted.output),
        wanted.facts.as_str()
    )?;
    println!(rt; "came status {status} and\n{}{facts}", shown(bytes))?;
    Ok(false)
}

/// The bytes as text, where they are text.
fn shown(bytes: &[u8]) -> &str {
    str::from_utf8(bytes).unwrap_or("(not UTF-8)")
}
