ghost use Rattle.std.specs.Prelude.{◌≡◌, ◌&&◌, not, ℕ, ◌+◌, ◌<◌, ◌≤◌, false, ◌++◌, ◌∷◌, [], vec_len, vec_capacity, OnOk, IfSome, IfNone, IfOk};
ghost use Rattle.node_sets.specs.Members.{has_node};
ghost use Rattle.bucket_db.specs.Rows.{buckets_of};
ghost use Rattle.distributor_part.specs.Steps.{IsLowest, did_show, buckets_shown, all_shown};

use bucket_db::Row;
use bucket_ids::Bucket;
use messages::{BucketList, NodePieces};
use node_sets::NodeSet;
use pieces::{Piece, PieceList};
use std::alloc::Global;
use value_lists::{Listed, NoMemory};

/// The lowest member of a set.
pub fn lowest_of(nodes: NodeSet) -> Option<u8>
    ensures some { IfSome result (IsLowest nodes) }
    ensures none { IfNone result ((node : ℕ) → has_node nodes node ≡ false) }
{
    for node in 0..32 {
        if nodes.has(node) {
            return Some(node);
        }
    }
    None
}

/// The nodes that are to be asked: they serve, haven't answered and weren't asked in this job.
pub fn to_ask(serving: NodeSet, answered: NodeSet, asked: NodeSet) -> NodeSet
    ensures { (node : ℕ) → has_node result node
        ≡ ((has_node serving node && not (has_node answered node)) && not (has_node asked node)) }
{
    serving.difference(answered).difference(asked)
}

/// Adds a bucket where there is room for it.
fn add_reserved(shown: &mut Vec<Bucket>, bucket: Bucket)
    requires { vec_len shown.old < vec_capacity shown.old }
    ensures items { shown.new.items ≡ shown.old.items ++ bucket ∷ [] }
    ensures room { vec_capacity shown.old ≤ vec_capacity shown.new }
{
    let Ok(()) = shown.push(bucket) else {
        unreachable!();
    };
}

/// Adds the buckets of pieces.
fn add_buckets(buckets: &mut Vec<Bucket>, pieces: &[Piece]) -> Result<(), NoMemory>
    ensures { OnOk result (buckets.new.items ≡ buckets.old.items ++ buckets_shown pieces.now) }
{
    buckets.reserve(pieces.len())?;
    for piece in pieces {
        add_reserved(buckets, piece.bucket);
    }
    Ok(())
}

/// The buckets of all that was shown, answer by answer.
pub fn all_buckets(alloc: Global, shown: &[PieceList]) -> Result<Vec<Bucket>, NoMemory>
    ensures { IfOk result (λ buckets. buckets.items ≡ all_shown shown.now) }
{
    let mut buckets = Vec::new(alloc);
    for pieces in shown {
        add_buckets(&mut buckets, pieces.items())?;
    }
    Ok(buckets)
}

/// Adds what one more answer showed, for which there is a place.
pub fn add_shown(shown: &mut Vec<PieceList>, pieces: PieceList)
    requires { vec_len shown.old + 1 ≤ vec_capacity shown.old }
    ensures { shown.new.items ≡ shown.old.items ++ pieces ∷ [] }
{
    let Ok(()) = shown.push(pieces) else {
        unreachable!();
    };
}

/// The buckets of rows.
pub fn buckets_of(alloc: Global, rows: &[Row]) -> Result<BucketList, NoMemory>
    ensures { IfOk result (λ buckets. buckets ≡ buckets_of rows.now) }
{
    let mut buckets = Vec::with_capacity(alloc, rows.len())?;
    for row in rows {
        buckets.push(row.bucket)?;
    }
    Ok(Listed::of(buckets))
}

/// Whether a node's answer is among those shown.
fn did_show(shown: &[NodePieces], node: u8) -> bool
    ensures { result ≡ did_show shown.now node }
{
    shown.iter().any(|seen| seen.node == node)
}

/// The nodes whose answers were shown.
fn shown_by(shown: &[NodePieces]) -> NodeSet
    ensures { (node : ℕ) → node < 32 → has_node result node ≡ did_show shown.now node }
{
    let mut nodes = NodeSet::none();
    for node in 0..32 {
        if did_show(shown, node) {
            nodes = nodes.with(node);
        }
    }
    nodes
}

/// The serving nodes whose answers weren't shown.
pub fn silent(serving: NodeSet, shown: &[NodePieces]) -> NodeSet
    ensures { (node : ℕ) → has_node result node ≡ (has_node serving node && not (did_show shown.now node)) }
{
    serving.difference(shown_by(shown))
}
