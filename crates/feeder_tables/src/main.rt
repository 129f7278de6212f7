//! Runs segments of lines in feeders, each in a thread of its own: each file of `data/` is one segment. Its first line
//! says how many feeders there are, which line is held before it begins, and the line behind whose answer it goes on; each
//! line below is a line of the segment, in a cluster of two lanes. Those behind a line of four dashes are no feeder's, so
//! they are run once all feeders are done. Prints for each line its lane, its feeder and how it ended, and whether the held
//! line went on as soon as the other was answered.
#![tactic(auto)]

ghost use Rattle.std.specs.Prelude.{◌<◌};

mod hold;
mod lines;
mod run;
mod setting;

use crate::hold::Hold;
use crate::run::run_lines;
use crate::setting::two_lanes;
use carriers::PerfectCarrier;
use lane_locks::{FedLane, Stage, feeder_of_key};
use messages::Outcome;
use shelves::PlainShelf;
use std::process::ExitCode;
use std::sync::Wait;
use std::thread::Threads;
use std::{fs, io};

/// The segments, which are the files of `data/`.
const NAMES: &[&str] = &["two_lanes", "one_lane", "left_lines", "many_lines"];

/// A lane of a segment that ran.
type Fed = FedLane<PerfectCarrier, PlainShelf>;

fn main(rt: HostRuntime) -> io::Result<ExitCode> {
    for name in NAMES {
        tell(&rt, &rt, name)?;
    }
    Ok(ExitCode::from(0))
}

/// The number that stands at a place among the words of a line, from 0; 0 where none does.
fn number_at(line: &str, place: usize) -> u32 {
    match line.split(' ').nth(place) {
        Some(word) => word.parse::<u32>().unwrap_or(0),
        None => 0,
    }
}

/// How many feeders the first line says: 1 to 8.
fn feeders_in(head: &str) -> u8
    ensures { 0 < result }
{
    let said = number_at(head, 0);
    if 1 <= said && said <= 8 {
        said as u8
    } else {
        1
    }
}

/// How it ended.
fn told(stage: &Stage) -> &'static str {
    match stage {
        Stage::Waiting => "left",
        Stage::Going | Stage::Ending => "under way",
        Stage::Answered { outcome } => match outcome {
            Outcome::Acked { .. } => "acked",
            Outcome::Found { .. } => "found",
            Outcome::Missing { .. } => "missing",
            Outcome::Nothing { .. } => "nothing",
            Outcome::ConditionFailed { .. } => "condition failed",
            _ => "other",
        },
    }
}

/// Prints how each line of a lane ended.
fn print_lane(rt: &HostRuntime, fed: &Fed, feeders: u8) -> io::Result<()>
    requires { 0 < feeders }
{
    for (line, stage) in fed.lines.iter().zip(fed.stages.iter()) {
        let feeder = feeder_of_key(line.key, feeders);
        println!(rt;
            "line {} lane {} feeder {feeder} {}",
            line.number,
            fed.number,
            told(stage)
        )?;
    }
    Ok(())
}

/// Runs the segment of a file, and prints what became of it.
fn tell<R: Threads + Wait + Sync>(rt: &HostRuntime, threads: &R, name: &str) -> io::Result<()> {
    let text = fs::read_to_string(rt, name)?;
    let (head, lines) = text.split_once('\n').unwrap_or(("", ""));
    let feeders = feeders_in(head);
    let hold = Hold::new(number_at(head, 3), number_at(head, 5));
    println!(rt; "{name}, {feeders} feeders")?;
    let Some(setting) = two_lanes(rt.alloc()) else {
        return println!(rt; "no setting");
    };
    let Ok(lanes) = run_lines(threads, rt.alloc(), &hold, &setting, feeders, lines) else {
        return println!(rt; "no memory");
    };
    for fed in lanes.iter() {
        print_lane(rt, fed, feeders)?;
    }
    println!(rt; "the held line: {}", hold.told())
}
