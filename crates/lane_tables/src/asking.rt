//! The calls that the lines of a script say.

use crate::scripted::ScriptedLane;
use crate::telling::{
    print_advance, print_begin, print_hear, print_node, print_outcome, print_published, print_row,
    print_upkeep,
};
use cluster_states::ClusterState;
use line_values::ValueReader;
use session_cluster::Asked;
use session_cluster::asked::asked_of;
use std::io;

/// The number that a word says; one that is no line's where it says none.
fn number_in(word: &str) -> u8 {
    word.parse::<u8>().unwrap_or(255)
}

/// Makes the call of a line, and prints its answer.
pub fn make_call(
    rt: &HostRuntime,
    values: &mut ValueReader,
    lane: &mut ScriptedLane,
    line: &str,
) -> io::Result<()> {
    let (verb, rest) = line.split_once(' ').unwrap_or((line, ""));
    match verb {
        "begin" => make_begin(rt, values, lane, rest),
        "advance" => print_advance(rt, lane.advance(number_in(rest))),
        "close" => print_outcome(rt, &lane.close(number_in(rest))),
        "hear" => print_hear(rt, lane.hear(number_in(rest))),
        "upkeep" => print_upkeep(rt, lane.upkeep()),
        "state" => make_state(rt, lane, rest),
        "stop" => println!(rt; "{}", lane.turn(number_in(rest), false)),
        "start" => println!(rt; "{}", lane.turn(number_in(rest), true)),
        "net" => make_plan(rt, values, lane, rest),
        "show" => show(rt, lane, rest),
        _ => println!(rt; "no call"),
    }
}

fn make_begin(
    rt: &HostRuntime,
    values: &mut ValueReader,
    lane: &mut ScriptedLane,
    rest: &str,
) -> io::Result<()> {
    let (number, text) = rest.split_once(' ').unwrap_or((rest, ""));
    let setting = lane.setting();
    match asked_of(
        rt.alloc(),
        values,
        &setting.schema,
        setting.bits,
        text.as_bytes(),
    ) {
        Ok(Asked::Feed { operation, via }) => {
            print_begin(rt, &lane.begin(number_in(number), &operation, via))
        }
        _ => println!(rt; "no operation"),
    }
}

fn make_state(rt: &HostRuntime, lane: &mut ScriptedLane, text: &str) -> io::Result<()> {
    match ClusterState::parse(text) {
        Ok(state) => print_published(rt, &state, lane.publish(&state)),
        Err(_) => println!(rt; "no state"),
    }
}

fn make_plan(
    rt: &HostRuntime,
    values: &mut ValueReader,
    lane: &mut ScriptedLane,
    text: &str,
) -> io::Result<()> {
    let setting = lane.setting();
    match asked_of(
        rt.alloc(),
        values,
        &setting.schema,
        setting.bits,
        text.as_bytes(),
    ) {
        Ok(Asked::Net { fates, .. }) => {
            let taken = lane.plan(fates.items());
            println!(rt; "{}", if taken { "planned" } else { "not planned" })
        }
        _ => println!(rt; "no fates"),
    }
}

/// Prints the rows of a distributor, and what the first so many nodes have of some documents.
fn show(rt: &HostRuntime, lane: &ScriptedLane, rest: &str) -> io::Result<()> {
    let (distributor, rest) = rest.split_once(' ').unwrap_or((rest, ""));
    let (nodes, ids) = rest.split_once(' ').unwrap_or((rest, ""));
    for row in lane.rows(number_in(distributor)).iter() {
        print_row(rt, row)?;
    }
    for number in 0..number_in(nodes) {
        print_node(rt, number, lane.node(number), ids)?;
    }
    Ok(())
}
