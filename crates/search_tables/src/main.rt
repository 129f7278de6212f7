//! Tables of what searches read: each file of `data/` is one table, and each of its lines says what is done or asked,
//! and behind an equals sign what comes of it. Prints for each table how many lines came as they are written there,
//! and each line that didn't. The words of a line are explained at the head of its file. Then what is held of seats.
#![tactic(auto)]

mod columns;
mod databases;
mod entries;
mod maps;
mod parts;
mod searches;
mod seats;
mod shelf;
mod stores;
mod table;
mod texts;
mod views;
mod words;

use crate::parts::Parts;
use crate::seats::hold_seats;
use crate::table::hold;
use std::io;
use std::process::ExitCode;

/// The tables, which are the files of `data/`.
const NAMES: &[&str] = &[
    "maps",
    "words",
    "stores",
    "columns",
    "views",
    "shelves",
    "searches",
    "databases",
    "random_lists",
    "random_views",
];

/// Holds all tables; true where a line is wrong.
fn hold_all(rt: &HostRuntime, parts: &mut Parts) -> io::Result<bool> {
    let mut wrong = false;
    for name in NAMES {
        wrong |= hold(rt, parts, name)?;
    }
    Ok(wrong)
}

/// The same with parts before any line.
fn hold_anew(rt: &HostRuntime) -> io::Result<bool> {
    let mut parts = Parts::new(rt.alloc());
    hold_all(rt, &mut parts)
}

fn main(rt: HostRuntime) -> io::Result<ExitCode> {
    let wrong = hold_anew(&rt)? | hold_seats(&rt, rt.alloc())?;
    Ok(ExitCode::from(u8::from(wrong)))
}
