use crate::played::{Played, play};
use anyhow::Result;
use carriers::{PlanCarrier, PlanCarriers};
use cell_session::Cluster;
use io_ends::{MemorySink, MemorySource};
use lane_journals::LaneEvent;
use std::alloc::Global;
use value_lists::NoMemory;

/// What an event is.
fn name(event: &LaneEvent) -> &str {
    match event {
        LaneEvent::Published { .. } => "published",
        LaneEvent::Heard { .. } => "heard",
        LaneEvent::Begun { .. } => "begun",
        LaneEvent::Refused { .. } => "refused",
        LaneEvent::Opened { .. } => "opened",
        LaneEvent::Prepared { .. } => "prepared",
        LaneEvent::Wrote { .. } => "wrote",
        LaneEvent::Sent { .. } => "sent",
        LaneEvent::Delivered { .. } => "delivered",
        LaneEvent::Returned { .. } => "returned",
        LaneEvent::Closed { .. } => "closed",
        LaneEvent::Decided { .. } => "decided",
        LaneEvent::Stopped { .. } => "stopped",
        LaneEvent::Started { .. } => "started",
    }
}

/// The events of a journal behind the first 33: what each is.
fn told(alloc: Global, journal: &[LaneEvent]) -> Result<String, NoMemory> {
    let mut text = String::new(alloc);
    for event in journal.iter().skip(33) {
        put_name(&mut text, event)?;
    }
    Ok(text)
}

fn put_name(text: &mut String, event: &LaneEvent) -> Result<(), NoMemory> {
    text.push(' ')?;
    text.push_str(name(event))?;
    Ok(())
}

/// The session of a put and a get with two replicas.
fn session(alloc: Global) -> Result<Played, NoMemory> {
    let mut words = Vec::new(alloc);
    for word in [
        "vespa_cell",
        "--redundancy=2",
        "--acks=2",
        "--state=version:1 distributor:1 storage:2",
    ] {
        words.push(String::from_str(alloc, word)?)?;
    }
    let source = MemorySource::new(input(alloc)?, Vec::new(alloc));
    let sink = MemorySink::new(alloc, Vec::new(alloc));
    Ok(play(alloc, words, source, sink, PlanCarriers))
}

fn input(alloc: Global) -> Result<Vec<u8>, NoMemory> {
    let mut input = Vec::new(alloc);
    input.extend_from_slice(
        b"{\"put\":\"id:ns:music:n=0:a\",\"fields\":{}}\n{\"get\":\"id:ns:music:n=0:a\"}\n",
    )?;
    Ok(input)
}

/// Prints what the session of a put and a get with two replicas leaves.
pub fn print_left(rt: &HostRuntime) -> Result<()> {
    let alloc = rt.alloc();
    let empty: Cluster<PlanCarrier> = Cluster::empty(alloc);
    println!(rt; "empty: {}", empty.is_empty())?;
    let played = session(alloc)?;
    print_counts(rt, played.status, &played.cluster)?;
    print_journal(rt, &played.cluster, 0)?;
    print_journal(rt, &played.cluster, 1)?;
    println!(rt; "lane 16: {} events", played.cluster.journal(16).len())?;
    Ok(())
}

/// Prints the status, and how much there is of what in the cluster.
fn print_counts(rt: &HostRuntime, status: u8, cluster: &Cluster<PlanCarrier>) -> Result<()> {
    println!(rt;
        "status {status}, {} lanes, {} lines",
        cluster.lanes(),
        cluster.dealt()
    )?;
    println!(rt;
        "entries of nodes 0, 1 and 2: {}, {}, {}",
        cluster.store_size(0),
        cluster.store_size(1),
        cluster.store_size(2)
    )?;
    println!(rt;
        "rows of lanes 0 and 1: {}, {}",
        cluster.rows(0).len(),
        cluster.rows(1).len()
    )?;
    Ok(())
}

/// Prints the events of a lane's journal behind the first 33.
fn print_journal(rt: &HostRuntime, cluster: &Cluster<PlanCarrier>, lane: u8) -> Result<()> {
    println!(rt; "lane {lane}:{}", told(rt.alloc(), cluster.journal(lane))?)?;
    Ok(())
}
