//! What a story says of the cluster that its session leaves.
//!
//! - `%rows LANE BUCKET ..`: the rows of a lane, by its owner;
//! - `%entries NODE COUNT`: how many entries a node holds in all lanes;
//! - `%upkeep LINE LANE rested`, `.. blocked NODE` or `.. disturbed MESSAGE`: how the upkeep of a line went there;
//! - `%fronts LINE COUNT ..`, or `.. none`: how many changes a search read in each lane.

use crate::lines::number;
use bucket_ids::Bucket;
use carriers::PlanCarrier;
use cell_session::{Cluster, Upkeep};
use std::alloc::{AllocError, Global};
use value_lists::NoMemory;

/// Whether a line says such a fact.
pub fn is_fact(line: &str) -> bool {
    line.starts_with("%rows ")
        || line.starts_with("%entries ")
        || line.starts_with("%upkeep ")
        || line.starts_with("%fronts ")
}

/// The facts that these lines ask for, as the cluster has them.
pub fn facts_of(
    alloc: Global,
    cluster: &Cluster<PlanCarrier>,
    lines: &str,
) -> Result<String, NoMemory> {
    let mut facts = String::new(alloc);
    for line in lines.lines() {
        put_fact(alloc, &mut facts, cluster, line)?;
    }
    Ok(facts)
}

fn put_fact(
    alloc: Global,
    facts: &mut String,
    cluster: &Cluster<PlanCarrier>,
    line: &str,
) -> Result<(), NoMemory> {
    let first = number(line, 1);
    if line.starts_with("%rows ") {
        put_rows(alloc, facts, cluster, lane_of(first))?;
    } else if line.starts_with("%entries ") {
        let count = cluster.store_size(lane_of(first));
        write!(facts, "%entries {first} {count}")?;
    } else if line.starts_with("%fronts ") {
        put_fronts(facts, cluster, first)?;
    } else {
        put_upkeep(facts, cluster, first, lane_of(number(line, 2)))?;
    }
    facts.push('\n')?;
    Ok(())
}

/// A number as that of a lane or a node; one that is too large is 255, which none has.
fn lane_of(number: u32) -> u8 {
    u8::try_from(number).unwrap_or(255)
}

fn put_rows(
    alloc: Global,
    facts: &mut String,
    cluster: &Cluster<PlanCarrier>,
    lane: u8,
) -> Result<(), NoMemory> {
    write!(facts, "%rows {lane}")?;
    for row in cluster.rows(lane) {
        put_bucket(alloc, facts, row.bucket)?;
    }
    Ok(())
}

fn put_bucket(alloc: Global, facts: &mut String, bucket: Bucket) -> Result<(), NoMemory> {
    let bucket = bucket.print(alloc)?;
    facts.push(' ')?;
    facts.push_str(&bucket)?;
    Ok(())
}

fn put_fronts(
    facts: &mut String,
    cluster: &Cluster<PlanCarrier>,
    line: u32,
) -> Result<(), AllocError> {
    write!(facts, "%fronts {line}")?;
    let Some(fronts) = cluster.fronts(line) else {
        return facts.push_str(" none");
    };
    for front in fronts {
        write!(facts, " {front}")?;
    }
    Ok(())
}

fn put_upkeep(
    facts: &mut String,
    cluster: &Cluster<PlanCarrier>,
    line: u32,
    lane: u8,
) -> Result<(), AllocError> {
    write!(facts, "%upkeep {line} {lane} ")?;
    match upkeep_of(cluster, line, lane) {
        Some(Upkeep::Rested) => facts.push_str("rested"),
        Some(Upkeep::Blocked { absent }) => write!(facts, "blocked {absent}"),
        Some(Upkeep::Disturbed { message }) => write!(facts, "disturbed {message}"),
        _ => facts.push_str("that made no pass"),
    }
}

fn upkeep_of(cluster: &Cluster<PlanCarrier>, line: u32, lane: u8) -> Option<Upkeep> {
    let spans = cluster.upkeeps(line)?;
    let span = spans.get(usize::from(lane))?;
    Some(span.answer)
}
