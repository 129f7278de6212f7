//! What stands against a call of a lane in which operations are under way, as tables.
//!
//! `specs/Tables.antt` has a law: three operations are under way, of the lines 1, 2 and 3, and a call is answered `Held` or
//! `Waits`, with the line that stands against it, exactly where the row says so: an operation of the same document, a state
//! that is heard in between, a round of a row in which another is prepared, a pass of upkeep.
//!
//! The program makes the calls that its input says, and prints their answers. Each script begins with the words of
//! a setting, parted by bars, behind an equals sign, and goes on with a call in each line, of one new lane:
//!
//! ```text
//! state version:2 ..    // publishes a state, of which nobody hears yet
//! hear 3                // a distributor hears the newest state
//! begin 1 {"put":..}    // begins an operation at the owner, or at the distributor that the line names
//! advance 1, close 1    // lets it go on, closes it
//! stop 2, start 2       // of a node
//! net {"net":..}        // plans the fates of the coming messages
//! upkeep                // makes a pass
//! show id:.. id:..      // what nodes have of these documents, and the rows of the owner
//! ```
//!
//! `.ci/interleavings` makes scripts, and from a plain model of its own what is to be printed.
#![tactic(auto)]

mod asking;
mod journals;
mod laws;
mod scripted;
mod stages;
mod telling;

use crate::asking::make_call;
use crate::scripted::ScriptedLane;
use line_values::ValueReader;
use std::io;
use std::process::ExitCode;

fn main(rt: HostRuntime) -> io::Result<ExitCode> {
    let mut values = ValueReader::new(rt.alloc());
    let mut lane: Option<ScriptedLane> = None;
    for line in rt.lines(rt.alloc()) {
        let line = line?;
        if let Some(words) = line.strip_prefix("= ") {
            lane = ScriptedLane::new(rt.alloc(), words);
            println!(rt; "= {}", if lane.is_some() { "a lane" } else { "no lane" })?;
        } else if let Some(lane) = &mut lane {
            make_call(&rt, &mut values, lane, &line)?;
        }
    }
    Ok(ExitCode::from(0))
}
