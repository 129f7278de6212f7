//! Tables of texts and small values, told from outside: ids, keys, buckets, stamps, node sets and cluster states;
//! schemas, documents and updates; the texts of the two languages; JSON values, the lines of a feed, the words of
//! the command and reports; what a node finds on its disk. A file of `data/` is a table, and prints one line: how many
//! of its cases came right, and each that didn't.
//!
//! A line of a table is what is wanted, a tab, and what is asked; a line that begins with `#` is for the reader. In
//! what is asked `\t`, `\r` and `\n` are a tab and the two ends of lines, `\\` is a backslash, `\u{a0}` the character
//! of that hexadecimal number, and `\{64 not }` stands for 64 times `not `. `tables.rt` says what each table asks.
#![tactic(auto)]

mod fields;
mod found;
mod ids;
mod journals;
mod languages;
mod lines;
mod scanned;
mod states;
mod tables;
mod texts;
mod world;

use crate::tables::{TABLES, Table, answer};
use crate::texts::expanded;
use crate::world::World;
use std::alloc::Global;
use std::{fs, io};

/// What the tables speak of; none where it can't be read.
fn read_world(rt: &HostRuntime) -> io::Result<Option<World>> {
    let schemas = fs::read_to_string(rt, "schemas")?;
    let documents = fs::read_to_string(rt, "documents")?;
    Ok(World::read(rt.alloc(), &schemas, &documents))
}

fn main(rt: HostRuntime) -> io::Result<()> {
    match read_world(&rt)? {
        Some(mut world) => print_tables(&rt, &mut world),
        None => println!(rt; "schemas and documents: DIFFER"),
    }
}

fn print_tables(rt: &HostRuntime, world: &mut World) -> io::Result<()> {
    for (table, name) in &TABLES {
        print_table(rt, world, *table, name)?;
    }
    Ok(())
}

/// Prints how many lines of a table came right, and those that didn't.
fn print_table(rt: &HostRuntime, world: &mut World, table: Table, name: &str) -> io::Result<()> {
    let text = fs::read_to_string(rt, name)?;
    let mut right = 0u32;
    for line in text.lines() {
        if !line.starts_with('#') && came_right(rt, world, table, line)? {
            right = right.wrapping_add(1);
        }
    }
    println!(rt; "{name}: {right} right")
}

/// Whether what comes for a line is what it wants; prints both where they differ.
fn came_right(rt: &HostRuntime, world: &mut World, table: Table, line: &str) -> io::Result<bool> {
    let (wanted, asked) = line.split_once('\t').unwrap_or(("", line));
    let came = came_of(rt.alloc(), world, table, asked);
    if is_wanted(&came, wanted) {
        return Ok(true);
    }
    println!(rt; "DIFFERS at {line}\nwhere {came:?} came")?;
    Ok(false)
}

fn is_wanted(came: &Option<String>, wanted: &str) -> bool {
    match came {
        Some(came) => came.as_str() == wanted,
        None => false,
    }
}

/// What comes where a line asks; none where there is no memory.
fn came_of(alloc: Global, world: &mut World, table: Table, asked: &str) -> Option<String> {
    match expanded(alloc, asked) {
        Some(asked) => answer(alloc, world, table, &asked),
        None => None,
    }
}
