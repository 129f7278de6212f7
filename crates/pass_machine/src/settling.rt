ghost use Rattle.std.specs.Prelude.{◌≡◌, ◌<◌, ◌&&◌, ◌^◌, not, ℕ, false, true, is_some, IfSome, None};
ghost use Rattle.node_sets.specs.Members.{has_node};
ghost use Rattle.bucket_db.specs.declared.row.Row.{Row as OneRow};
ghost use Rattle.pass_machine.specs.Settling.{alignment_in, next_row, next_node, aligning, readying, deciding, activating, accepting, serial_among, serial_to_lose, are_enough, deleting, unanswered, delete_told, delete_over};

use crate::doing::{Doing, Settle, Time, Turn, UpkeepStep};
use crate::notes::RowNote;
use bucket_db::{Deleting, Row};
use bucket_ids::Bucket;
use messages::{Body, Decision};
use node_sets::NodeSet;

// ---- align

/// What a node is told by what it showed in the row's last round; nothing if it took that round's union, since the row
/// is its piece.
fn alignment(bucket: Bucket, note: &RowNote, node: u8) -> Option<Body>
    ensures { result ≡ alignment_in bucket note.now node }
{
    if note.holders.has(node) {
        None
    } else if note.over.has(node) {
        Some(Body::Split { bucket })
    } else if note.inside.has(node) {
        Some(Body::Join { bucket })
    } else {
        None
    }
}

/// The next node is brought in line with the row, or all were.
pub fn aligning(
    time: Time,
    at: usize,
    bucket: Bucket,
    note: &RowNote,
    serves: bool,
    node: u8,
    any: bool,
) -> Turn
    ensures { result ≡ aligning time at bucket note.now serves node any }
{
    if 32 <= node {
        let next = if any {
            Settle::AlignRound
        } else {
            Settle::Readying {
                node: 0,
                ready: false,
            }
        };
        return Turn::Over(Doing::Settling { time, at, next });
    }
    if serves {
        if let Some(body) = alignment(bucket, note, node) {
            return Turn::Says(UpkeepStep::Tell { node, body });
        }
    }
    let next = Settle::Aligning {
        node: node + 1,
        any,
    };
    Turn::Over(Doing::Settling { time, at, next })
}

// ---- ready and active

/// The next node is made ready, if it is asked, or all were.
pub fn readying(time: Time, at: usize, bucket: Bucket, asked: bool, node: u8, ready: bool) -> Turn
    ensures { result ≡ readying time at bucket asked node ready }
{
    if 32 <= node {
        let next = Settle::Deciding { ready };
        return Turn::Over(Doing::Settling { time, at, next });
    }
    if asked {
        return Turn::Says(UpkeepStep::Tell {
            node,
            body: Body::Ready { bucket },
        });
    }
    let next = Settle::Readying {
        node: node + 1,
        ready,
    };
    Turn::Over(Doing::Settling { time, at, next })
}

/// The node that is to be active becomes so, where it is ready and none is active yet.
pub fn deciding(time: Time, at: usize, row: &Row, to_be: Option<u8>, ready: bool) -> Turn
    ensures { result ≡ deciding time at row.now to_be ready }
{
    if ready && row.active.is_none() {
        if let Some(node) = to_be {
            let decision = Decision::ActiveOn {
                bucket: row.bucket,
                node,
            };
            return Turn::Says(UpkeepStep::Decide { at, decision });
        }
    }
    Turn::Over(Doing::Settling {
        time,
        at,
        next: Settle::Activating,
    })
}

/// The active node is told so, if it serves and hasn't accepted yet.
pub fn activating(time: Time, at: usize, row: &Row, serving: NodeSet) -> Turn
    ensures { result ≡ activating time at row.now (has_node serving) }
{
    if let Some(node) = row.active {
        if !row.accepted && serving.has(node) {
            return Turn::Says(UpkeepStep::Tell {
                node,
                body: Body::Activate { bucket: row.bucket },
            });
        }
    }
    Turn::Over(Doing::Settling {
        time,
        at,
        next: Settle::Deleting { node: 0 },
    })
}

/// It is noted where that node accepted.
pub fn accepting(time: Time, at: usize, answered: bool) -> Turn
    ensures { result ≡ accepting time at answered }
{
    if answered {
        return Turn::Says(UpkeepStep::Accept { at });
    }
    Turn::Over(Doing::Settling {
        time,
        at,
        next: Settle::Deleting { node: 0 },
    })
}

// ---- delete

/// The serial of the piece by which a node showed just the row, if it did.
pub fn serial_at(note: &RowNote, node: u8) -> Option<u64>
    ensures { result ≡ serial_among note.now.exact.items node }
{
    for exact in &note.exact {
        if exact.node == node {
            return Some(exact.serial);
        }
    }
    None
}

/// Whether as many complete members but the node took the union of the row's last round as a write needs.
fn are_enough(row: &Row, note: &RowNote, acks: u8, node: u8) -> bool
    requires { node < 32 }
    ensures { result ≡ are_enough acks row.now note.now node }
{
    let keepers = row.complete.intersection(note.holders).without(node);
    keepers.has_at_least(acks)
}

/// The serial of the piece that a node is to delete, if it is to.
pub fn serial_to_lose(row: &Row, note: &RowNote, target: bool, acks: u8, node: u8) -> Option<u64>
    requires { node < 32 }
    ensures { result ≡ serial_to_lose row.now note.now target acks node }
{
    if row.deleting.is_some() || target || !are_enough(row, note, acks, node) {
        return None;
    }
    serial_at(note, node)
}

/// The next node, or behind the last one the next row.
fn next_node(time: Time, at: usize, node: u8) -> Doing
    requires { at < 2 ^ 63 }
    ensures { result ≡ next_node time at node }
{
    if node < 32 {
        let next = Settle::Deleting { node: node + 1 };
        return Doing::Settling { time, at, next };
    }
    Doing::Settling {
        time,
        at: at + 1,
        next: Settle::Beginning,
    }
}

/// The node deletes its piece with this serial, if it is to.
pub fn deleting(time: Time, at: usize, bucket: Bucket, serial: Option<u64>, node: u8) -> Turn
    requires { at < 2 ^ 63 }
    ensures { result ≡ deleting time at bucket serial node }
{
    if let Some(serial) = serial {
        let decision = Decision::DeleteFrom {
            bucket,
            node,
            serial,
        };
        return Turn::Says(UpkeepStep::Decide { at, decision });
    }
    Turn::Over(next_node(time, at, node))
}

/// The unanswered Delete of the row.
fn unanswered(row: &Row, node: u8) -> Option<Deleting>
    ensures { result ≡ unanswered row.now node }
{
    if node < 32 { row.deleting } else { None }
}

/// It is sent, if its node serves.
pub fn delete_told(time: Time, at: usize, row: &Row, serving: NodeSet, node: u8) -> Turn
    requires { at < 2 ^ 63 }
    ensures { result ≡ delete_told time at row.now (has_node serving) node }
{
    if let Some(delete) = unanswered(row, node) {
        if serving.has(delete.node) {
            let body = Body::Delete {
                bucket: delete.bucket,
                serial: delete.serial,
            };
            return Turn::Says(UpkeepStep::Tell {
                node: delete.node,
                body,
            });
        }
    }
    Turn::Over(next_node(time, at, node))
}

/// And then it is over.
pub fn delete_over(time: Time, at: usize, row: &Row, node: u8) -> Turn
    requires { at < 2 ^ 63 }
    ensures { result ≡ delete_over time at row.now node }
{
    if let Some(delete) = unanswered(row, node) {
        let decision = Decision::DeleteOver {
            bucket: delete.bucket,
            node: delete.node,
        };
        return Turn::Says(UpkeepStep::Decide { at, decision });
    }
    Turn::Over(next_node(time, at, node))
}
