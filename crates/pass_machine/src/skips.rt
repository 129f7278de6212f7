ghost use Rattle.std.specs.Prelude.{◌≡◌, ◌&&◌, not, ◌<◌, ◌≤◌, ℕ, Some, None, true, false, length, slice_get, IsSome, is_some, if◌then◌else◌};
ghost use Rattle.std.specs.BTreeMap.{BTreeMap};
ghost use Rattle.bucket_db.specs.declared.row.Row.{Row as OneRow};
ghost use Rattle.bucket_ids.specs.Buckets.{Low};
ghost use Rattle.distributor_part.specs.Parts.{rows_of};
ghost use Rattle.node_sets.specs.Members.{has_node};
ghost use Rattle.pass_machine.specs.Going.{GoesOver};
ghost use Rattle.pass_machine.specs.Notes.{note_for, whole_in};
ghost use Rattle.pass_machine.specs.Settling.{alignment_in, serial_among};
ghost use Rattle.pass_machine.specs.Turns.{View, Sees, is_asked, is_target};
ghost use Rattle.pass_machine.specs.declared.doing.Doing.TheVariants.{Settling};
ghost use Rattle.pass_machine.specs.declared.doing.Time.{Time as AnyTime};
ghost use Rattle.pass_machine.specs.declared.notes.RowNote.{RowNote as Note};

use crate::asked::{asked_of, targets_of};
use crate::doing::{Doing, Settle};
use crate::notes::{Notes, RowNote};
use crate::settling::serial_at;
use bucket_db::Row;
use cluster_states::ClusterState;
use distributor_part::DistributorPart;
use node_sets::NodeSet;

/// The first member of a set from a number on; without one 32, or the number where that is greater.
fn first_from(set: NodeSet, node: u8) -> u8
    ensures from { node ≤ result }
    ensures passed { (n : ℕ) → node ≤ n → n < result → has_node set n ≡ false }
    ensures within { (n : ℕ) → node ≤ n → n < result → n < 32 }
{
    for at in node..32 {
        if set.has(at) {
            return at;
        }
    }
    node.max(32)
}

/// The nodes that serve and are to be brought in line with a row.
fn askew(note: &RowNote, serving: NodeSet) -> NodeSet
    ensures { (b : Low) (n : ℕ) → has_node result n ≡ false
        → (if has_node serving n then alignment_in b note.now n else None) ≡ None }
{
    let nodes = note.over.union(note.inside);
    serving.intersection(nodes).difference(note.holders)
}

/// The nodes that showed just the row.
fn exact_nodes(note: &RowNote) -> NodeSet
    ensures { (n : ℕ) → n < 32 → has_node result n ≡ is_some (serial_among note.now.exact.items n) }
{
    let mut nodes = NodeSet::none();
    for node in 0..32 {
        if serial_at(note, node).is_some() {
            nodes = nodes.with(node);
        }
    }
    nodes
}

/// The nodes that showed just the row of a place and are none of its targets.
fn spare(part: &DistributorPart, state: &ClusterState, at: usize, note: &RowNote) -> NodeSet
    requires heard { part.now.state ≡ Some state.now }
    requires place { at < length (rows_of part.now.rows) }
    ensures { (v : View) → Sees part.now v → (row : OneRow) → slice_get v.rows at ≡ Some row → (n : ℕ) → n < 32
        → has_node result n ≡ (is_some (serial_among note.now.exact.items n) && not (is_target v row n)) }
{
    exact_nodes(note).difference(targets_of(part, state, at))
}

/// Past the nodes to which nothing is said as a row is settled.
fn past_silent(
    part: &DistributorPart,
    state: &ClusterState,
    at: usize,
    row: &Row,
    note: &RowNote,
    next: Settle,
) -> Settle
    requires heard { part.now.state ≡ Some state.now }
    requires place { at < length (rows_of part.now.rows) }
    ensures { (v : View) → Sees part.now v → slice_get v.rows at ≡ Some row.now
        → (made : BTreeMap ℕ (Unit {0})) (notes : BTreeMap ℕ Note)
        → whole_in (note_for row.now.bucket notes) ≡ Some note.now
        → (time : AnyTime) → GoesOver v made notes (Settling time at next) (Settling time at result) }
{
    match next {
        Settle::Aligning { node, any } => Settle::Aligning {
            node: first_from(askew(note, state.serving()), node),
            any,
        },
        Settle::Readying { node, ready } => Settle::Readying {
            node: first_from(asked_of(part, state, at), node),
            ready,
        },
        Settle::Deleting { node } => Settle::Deleting {
            node: first_from(spare(part, state, at, note), node),
        },
        _ => next,
    }
}

/// Where the machine stands past the nodes to which nothing is said, with the row and its note looked up once for all
/// of them.
pub fn skipped(part: &DistributorPart, notes: &Notes, doing: Doing) -> Doing
    requires heard { IsSome part.now.state }
    ensures { (v : View) → Sees part.now v → (made : BTreeMap ℕ (Unit {0}))
        → GoesOver v made notes.now.by_number doing result }
{
    let Doing::Settling { time, at, next } = doing else {
        return doing;
    };
    let Some(state) = part.state() else {
        unreachable!();
    };
    let Some(row) = part.rows().get(at) else {
        return doing;
    };
    let Some(note) = notes.whole(row.bucket) else {
        return doing;
    };
    Doing::Settling {
        time,
        at,
        next: past_silent(part, &state, at, row, note, next),
    }
}
