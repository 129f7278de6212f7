//! Tables of what the machines of a cluster do: each file of `data/` is one table, and each of its lines says what is
//! done or asked, and behind an equals sign what comes of it. Prints for each table how many lines came as they are
//! written there, and each line that didn't. The words of a line are explained at the head of its file; an answer is
//! mostly a value as `{:?}` prints it, and `done` where there is nothing to tell.
//!
//! With three words (`rows` or `node`, a kind of work and a count) it does that work for `bench/rows` or `bench/node`.
#![tactic(auto)]

mod calls;
mod changes;
mod fates;
mod machines;
mod maps;
mod marks;
mod node;
mod node_work;
mod notes;
mod parts;
mod rounds;
mod row_work;
mod rows;
mod runs;
mod spans;
mod table;
mod texts;
mod versions;
mod words;

use crate::machines::Machines;
use crate::table::hold;
use std::alloc::Global;
use std::process::ExitCode;
use std::{env, io};

/// The tables, which are the files of `data/`.
const NAMES: &[&str] = &[
    "maps",
    "rows",
    "marks",
    "notes",
    "conversations",
    "random_lists",
    "rounds",
    "runs",
    "parts",
    "fates",
    "spans",
    "calls",
];

/// Holds all tables; true where a line is wrong.
fn hold_all(rt: &HostRuntime, machines: &mut Machines) -> io::Result<bool> {
    let mut wrong = false;
    for name in NAMES {
        wrong |= hold(rt, machines, name)?;
    }
    Ok(wrong)
}

/// The same with machines before any line.
fn hold_anew(rt: &HostRuntime) -> io::Result<bool> {
    let mut machines = Machines::new(rt.alloc());
    hold_all(rt, &mut machines)
}

/// Does the work that three words behind the program's name say, and tells how much was done.
fn work(alloc: Global, words: &[String]) -> Option<u64> {
    let [_, machine, kind, count] = words else {
        return None;
    };
    let count = count.parse::<u32>().ok()?;
    match machine.as_str() {
        "rows" => row_work::work(alloc, kind, count),
        "node" => node_work::work(alloc, kind, count),
        _ => None,
    }
}

/// Does the work of a bench.
fn bench(rt: &HostRuntime, words: &[String]) -> io::Result<()> {
    match work(rt.alloc(), words) {
        Some(done) => println!(rt; "{done} done"),
        None => println!(rt; "no such work"),
    }
}

fn main(rt: HostRuntime) -> io::Result<ExitCode> {
    let words: Vec<String> = env::args(&rt)?.collect(rt.alloc())?;
    let wrong = if words.len() > 1 {
        bench(&rt, &words)?;
        false
    } else {
        hold_anew(&rt)?
    };
    Ok(ExitCode::from(u8::from(wrong)))
}
