ghost use Rattle.std.specs.Prelude.{◌≡◌, ◌<◌, ℕ, Some, None, length, slice_get, nat_lt, if◌then◌else◌};
ghost use Rattle.bucket_db.specs.declared.row.Row.{Row as OneRow};
ghost use Rattle.distributor_part.specs.Parts.{rows_of};
ghost use Rattle.node_sets.specs.Members.{has_node};
ghost use Rattle.pass_machine.specs.Settling.{serial_to_lose};
ghost use Rattle.pass_machine.specs.Turns.{View, Sees, to_be_active, is_asked, is_target};

use crate::notes::RowNote;
use crate::settling;
use bucket_db::Row;
use cluster_states::ClusterState;
use distributor_part::DistributorPart;
use node_sets::NodeSet;

/// The active node of the row of a place, or else the complete member that is to be active, if there is one.
pub fn to_be_active(part: &DistributorPart, state: &ClusterState, at: usize) -> Option<u8>
    requires heard { part.now.state ≡ Some state.now }
    requires place { at < length (rows_of part.now.rows) }
    ensures { (v : View) → Sees part.now v → (row : OneRow) → slice_get v.rows at ≡ Some row
        → result ≡ to_be_active v row }
{
    part.to_be_active(at)
}

/// The nodes that are to be ready in the row of a place, and serve.
pub fn asked_of(part: &DistributorPart, state: &ClusterState, at: usize) -> NodeSet
    requires heard { part.now.state ≡ Some state.now }
    requires place { at < length (rows_of part.now.rows) }
    ensures { (v : View) → Sees part.now v → (row : OneRow) → slice_get v.rows at ≡ Some row
        → (n : ℕ) → has_node result n ≡ is_asked v row n }
{
    state.serving().intersection(part.to_be_ready(at))
}

/// Whether a node is to be ready in the row of a place, and serves.
pub fn is_asked(part: &DistributorPart, state: &ClusterState, at: usize, node: u8) -> bool
    requires heard { part.now.state ≡ Some state.now }
    requires place { at < length (rows_of part.now.rows) }
    ensures { (v : View) → Sees part.now v → (row : OneRow) → slice_get v.rows at ≡ Some row
        → result ≡ is_asked v row node }
{
    // the ideal order is asked for only where that tells anything
    state.serving().has(node) && part.to_be_ready(at).has(node)
}

/// The targets of the row of a place.
pub fn targets_of(part: &DistributorPart, state: &ClusterState, at: usize) -> NodeSet
    requires heard { part.now.state ≡ Some state.now }
    requires place { at < length (rows_of part.now.rows) }
    ensures { (v : View) → Sees part.now v → (row : OneRow) → slice_get v.rows at ≡ Some row
        → (n : ℕ) → has_node result n ≡ is_target v row n }
{
    part.targets(at)
}

/// Whether a node is a target of the row of a place.
fn is_target(part: &DistributorPart, state: &ClusterState, at: usize, node: u8) -> bool
    requires heard { part.now.state ≡ Some state.now }
    requires place { at < length (rows_of part.now.rows) }
    ensures { (v : View) → Sees part.now v → (row : OneRow) → slice_get v.rows at ≡ Some row
        → result ≡ is_target v row node }
{
    part.targets(at).has(node)
}

/// The serial of the piece of the row of a place that a node is to delete, if it is to.
pub fn serial_at(
    part: &DistributorPart,
    state: &ClusterState,
    at: usize,
    row: &Row,
    note: &RowNote,
    acks: u8,
    node: u8,
) -> Option<u64>
    requires heard { part.now.state ≡ Some state.now }
    requires place { at < length (rows_of part.now.rows) }
    ensures { (v : View) → Sees part.now v → slice_get v.rows at ≡ Some row.now → result
        ≡ (if nat_lt node 32 then serial_to_lose row.now note.now (is_target v row.now node) acks node else None) }
{
    // most nodes showed no such piece, and then nothing is asked about the targets
    if 32 <= node || settling::serial_at(note, node).is_none() {
        return None;
    }
    let target = is_target(part, state, at, node);
    settling::serial_to_lose(row, note, target, acks, node)
}
