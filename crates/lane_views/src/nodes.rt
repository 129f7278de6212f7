//! The nodes of a view, and what a change makes of them.

ghost use Rattle.std.specs.Prelude.{◌≡◌, ◌<◌, ◌^◌, ◌||◌, [], length, IfNone, IfSome, IfOk, OnOk, OnErr, if◌then◌else◌};
ghost use Rattle.std.specs.List.{list_any};
ghost use Rattle.bucket_ids.specs.Buckets.{IsBucket};
ghost use Rattle.coverage.specs.Covering.{measure_of};
ghost use Rattle.view_changes.specs.Views.{new_node, node_at, nodes_after, adopted, stopped_as, taken, activated, is_barred, is_in_the_way};
ghost use Rattle.view_changes.specs.Opening.{new_nodes};
ghost use Rattle.view_changes.specs.Serving.{serves_at, node_regions};
ghost use Rattle.view_changes.specs.Kept.{AreNodes, HasBucket};
ghost use Rattle.lane_views.specs.Typed.{AreTyped, nodes_of, step_at, alike};

use crate::node::SeenNode;
use bucket_ids::Bucket;
use documents::SharedEntry;
use entry_maps::EntryMap;
use node_rows::{NodeRows, SharedSchema};
use std::alloc::Global;
use value_lists::NoMemory;
use view_changes::LaneChange;

/// So many nodes of which nothing was heard.
pub fn new_nodes(alloc: Global, schema: &SharedSchema, many: u8) -> Result<Vec<SeenNode>, NoMemory>
    ensures { IfOk result (λ nodes. nodes.items ≡ alike many (record { types = schema.now; node = new_node })) }
{
    let mut nodes = Vec::new(alloc);
    for _ in 0..many {
        nodes.push(SeenNode::new(alloc, schema)?)?;
    }
    Ok(nodes)
}

/// A node stops, or runs again.
fn stop_at(nodes: &mut [SeenNode], node: u8, stopped: bool)
    ensures { nodes.new ≡ step_at node (λ types. stopped_as stopped) nodes.old }
{
    let at = usize::from(node);
    if at < nodes.len() {
        nodes[at].stop(stopped);
    }
}

/// A node takes a version.
fn adopt_at(
    alloc: Global,
    schema: &SharedSchema,
    nodes: &mut [SeenNode],
    node: u8,
    version: u32,
) -> Result<(), NoMemory>
    requires { AreTyped schema.now nodes.old }
    ensures ok { OnOk result (nodes.new ≡ step_at node (λ types. adopted version) nodes.old) }
    ensures err { OnErr result (nodes.new ≡ nodes.old) }
{
    let at = usize::from(node);
    if at < nodes.len() {
        nodes[at].adopt(alloc, schema, version)?;
    }
    Ok(())
}

/// A node kept an entry.
fn take_at(
    alloc: Global,
    nodes: &mut [SeenNode],
    node: u8,
    entry: &SharedEntry,
) -> Result<(), NoMemory>
    ensures ok { OnOk result (nodes.new ≡ step_at node (λ types. taken types entry.now) nodes.old) }
    ensures err { OnErr result (nodes.new ≡ nodes.old) }
{
    let at = usize::from(node);
    if at < nodes.len() {
        nodes[at].take(alloc, entry)?;
    }
    Ok(())
}

/// Whether a node is at a version and has a region that meets a bucket.
fn are_in_the_way(nodes: &[SeenNode], version: u32, bucket: Bucket) -> bool
    ensures { result ≡ list_any (λ t. is_in_the_way version bucket t.node) nodes.now }
{
    nodes.iter().any(|node| node.is_in_the_way(version, bucket))
}

/// Whether another node than this one is.
fn is_barred(nodes: &[SeenNode], at: usize, bucket: Bucket) -> bool
    requires { at < length nodes.now }
    ensures { result ≡ is_barred at (node_at at (nodes_of nodes.now)).version bucket (nodes_of nodes.now) }
{
    let version = nodes[at].version();
    are_in_the_way(&nodes[..at], version, bucket)
        || are_in_the_way(&nodes[at + 1..], version, bucket)
}

/// A bucket is a region of a node, with these entries, unless it meets a region of another at that version.
fn activate_at(
    alloc: Global,
    nodes: &mut [SeenNode],
    node: u8,
    bucket: Bucket,
    entries: &EntryMap,
) -> Result<(), NoMemory>
    requires { AreNodes (nodes_of nodes.old) }
    ensures ok { OnOk result (nodes.new
        ≡ (if is_barred node (node_at node (nodes_of nodes.old)).version bucket (nodes_of nodes.old) then nodes.old
        else step_at node (λ types. activated types bucket entries.now) nodes.old)) }
    ensures err { OnErr result (nodes.new ≡ nodes.old) }
    ensures valid { IsBucket bucket }
{
    let _ = bucket.bits();
    let at = usize::from(node);
    if at >= nodes.len() {
        return Ok(());
    }
    if is_barred(nodes, at, bucket) {
        return Ok(());
    }
    nodes[at].activate(alloc, bucket, entries)?;
    Ok(())
}

/// A change comes.
pub fn change_nodes(
    alloc: Global,
    schema: &SharedSchema,
    nodes: &mut [SeenNode],
    change: &LaneChange,
) -> Result<(), NoMemory>
    requires typed { AreTyped schema.now nodes.old }
    requires nodes { AreNodes (nodes_of nodes.old) }
    ensures ok { OnOk result (nodes_of nodes.new ≡ nodes_after schema.now change.now (nodes_of nodes.old)) }
    ensures err { OnErr result (nodes.new ≡ nodes.old) }
    ensures typed { OnOk result (AreTyped schema.now nodes.new) }
    ensures bucket { HasBucket change.now }
{
    match change {
        LaneChange::Adopt { node, version } => adopt_at(alloc, schema, nodes, *node, *version),
        LaneChange::Activate {
            node,
            bucket,
            entries,
        } => activate_at(alloc, nodes, *node, *bucket, entries),
        LaneChange::Take { node, entry } => take_at(alloc, nodes, *node, entry),
        LaneChange::Stop { node } => {
            stop_at(nodes, *node, true);
            Ok(())
        }
        LaneChange::Start { node } => {
            stop_at(nodes, *node, false);
            Ok(())
        }
    }
}

/// The sum of the measures of the regions of the nodes that serve at a version.
pub fn measure_at(nodes: &[SeenNode], version: u32) -> u64
    requires { measure_of (node_regions version (nodes_of nodes.now)) < 2 ^ 64 }
    ensures { result ≡ measure_of (node_regions version (nodes_of nodes.now)) }
{
    let mut sum = 0;
    for node in nodes {
        if node.serves(version) {
            sum += node.measure();
        }
    }
    sum
}

/// Whether a node is at a version, and isn't stopped.
pub fn serves_at(nodes: &[SeenNode], node: u8, version: u32) -> bool
    ensures { result ≡ serves_at node version (nodes_of nodes.now) }
{
    let at = usize::from(node);
    if at < nodes.len() {
        nodes[at].serves(version)
    } else {
        false
    }
}

/// The documents of a node, where there is such a node.
pub fn rows_at(nodes: &[SeenNode], node: u8) -> Option<&NodeRows>
    ensures some { IfSome result (λ r. r.now.rows ≡ (node_at node (nodes_of nodes.now)).rows) }
    ensures none { IfNone result ((node_at node (nodes_of nodes.now)).rows ≡ []) }
{
    let at = usize::from(node);
    if at < nodes.len() {
        Some(nodes[at].rows())
    } else {
        None
    }
}
