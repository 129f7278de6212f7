ghost use Rattle.std.specs.Prelude.{◌≡◌, ◌↔◌, ◌⊎◌, ℕ, ◌<◌, true, false, take, Some, None, IfSome, IfNone};
ghost use Rattle.node_sets.specs.Members.{has_node};
ghost use Rattle.ideal_nodes.specs.Scores.{Has, IsRanked};
ghost use Rattle.ideal_nodes.specs.Placement.{IsIdeal, Precedes};
ghost use Rattle.distributor_part.specs.Targets.{AreTargets, AreSmall, IsFirstMember, IsFirstComplete, IsToBeActive, LacksComplete, AreToBeReady};

use bucket_db::Row;
use bucket_ids::Bucket;
use cluster_states::ClusterState;
use ideal_nodes::laws::state_has_one_list;
use ideal_nodes::{NodeList, ideal};
use node_sets::NodeSet;

/// The first nodes of a list, so many where there are as many.
fn first_nodes(list: &NodeList, count: u8) -> NodeSet
    requires { AreSmall list.now }
    ensures { (node : ℕ) → (has_node result node ≡ true) ↔ Has node (take count list.now) }
{
    let mut nodes = NodeSet::none();
    for place in 0..list.len().min(count) {
        nodes = nodes.with(list.at(place));
    }
    nodes
}

/// A set with a node too, where there is one.
fn with_active(nodes: NodeSet, active: Option<u8>) -> NodeSet
    requires { IfSome active (λ node. node < 32) }
    ensures { (node : ℕ) → (has_node result node ≡ true) ↔ ((has_node nodes node ≡ true) ⊎ (active ≡ Some node)) }
{
    match active {
        Some(node) => nodes.with(node),
        None => nodes,
    }
}

/// The targets of a row by its ideal order.
fn targets_in(redundancy: u8, state: &ClusterState, list: &NodeList, row: &Row) -> NodeSet
    requires ideal { IsIdeal row.now.bucket state.now list.now }
    requires small { IfSome row.now.active (λ node. node < 32) }
    ensures { AreTargets redundancy state.now row.now.bucket row.now.active result }
{
    let _version = state.version();
    state_has_one_list();
    with_active(first_nodes(list, redundancy), row.active)
}

/// The targets of a row: the first nodes of its ideal order, which may be kept, and its active node.
pub fn targets_of(
    redundancy: u8,
    state: &ClusterState,
    kept: Option<&NodeList>,
    row: &Row,
) -> NodeSet
    requires kept { IfSome kept (λ list. IsIdeal row.now.bucket state.now list.now) }
    requires small { IfSome row.now.active (λ node. node < 32) }
    ensures { AreTargets redundancy state.now row.now.bucket row.now.active result }
{
    match kept {
        Some(list) => targets_in(redundancy, state, list, row),
        None => targets_in(redundancy, state, &ideal(row.bucket, state), row),
    }
}

/// The first node of a bucket's ideal list under a state that is a member.
fn first_member(
    bucket: Bucket,
    state: &ClusterState,
    list: &NodeList,
    members: NodeSet,
) -> Option<u8>
    requires { IsRanked (Precedes bucket state.now) list.now }
    ensures some { IfSome result (IsFirstMember bucket state.now list.now members) }
    ensures none { IfNone result ((node : ℕ) → Has node list.now → has_node members node ≡ false) }
{
    for place in 0..list.len() {
        let node = list.at(place);
        if members.has(node) {
            return Some(node);
        }
    }
    None
}

/// The first complete member of a row in its ideal order.
fn first_complete(state: &ClusterState, list: &NodeList, row: &Row) -> Option<u8>
    requires { IsIdeal row.now.bucket state.now list.now }
    ensures some { IfSome result (IsFirstComplete state.now row.now.bucket row.now.complete) }
    ensures none { IfNone result (LacksComplete state.now row.now.bucket row.now.complete) }
{
    state_has_one_list();
    first_member(row.bucket, state, list, row.complete)
}

/// The active node of a row, or else the one that is to be active by its ideal order.
fn active_in(state: &ClusterState, list: &NodeList, row: &Row) -> Option<u8>
    requires { IsIdeal row.now.bucket state.now list.now }
    ensures some { IfSome result (IsToBeActive state.now row.now.bucket row.now.complete row.now.active) }
    ensures inactive { IfNone result (row.now.active ≡ None) }
    ensures lacks { IfNone result (LacksComplete state.now row.now.bucket row.now.complete) }
{
    match row.active {
        Some(node) => Some(node),
        None => first_complete(state, list, row),
    }
}

/// The active node of a row, or else the one that is to be active, if one can be, by its ideal order, which may be kept.
pub fn to_be_active(state: &ClusterState, kept: Option<&NodeList>, row: &Row) -> Option<u8>
    requires { IfSome kept (λ list. IsIdeal row.now.bucket state.now list.now) }
    ensures some { IfSome result (IsToBeActive state.now row.now.bucket row.now.complete row.now.active) }
    ensures inactive { IfNone result (row.now.active ≡ None) }
    ensures lacks { IfNone result (LacksComplete state.now row.now.bucket row.now.complete) }
{
    match kept {
        Some(list) => active_in(state, list, row),
        None if row.active.is_some() => row.active,
        None => first_complete(state, &ideal(row.bucket, state), row),
    }
}

/// The nodes of a row that are to be ready, by its ideal order.
fn ready_in(searchable: u8, state: &ClusterState, list: &NodeList, row: &Row) -> NodeSet
    requires ideal { IsIdeal row.now.bucket state.now list.now }
    requires small { IfSome row.now.active (λ node. node < 32) }
    ensures { AreToBeReady searchable state.now row.now.bucket row.now.complete row.now.active result }
{
    let _version = state.version();
    state_has_one_list();
    with_active(first_nodes(list, searchable), active_in(state, list, row))
}

/// The nodes of a row that are to be ready, by its ideal order, which may be kept.
pub fn to_be_ready(
    searchable: u8,
    state: &ClusterState,
    kept: Option<&NodeList>,
    row: &Row,
) -> NodeSet
    requires kept { IfSome kept (λ list. IsIdeal row.now.bucket state.now list.now) }
    requires small { IfSome row.now.active (λ node. node < 32) }
    ensures { AreToBeReady searchable state.now row.now.bucket row.now.complete row.now.active result }
{
    match kept {
        Some(list) => ready_in(searchable, state, list, row),
        None => ready_in(searchable, state, &ideal(row.bucket, state), row),
    }
}
