use crate::tables::Table;
use crate::texts::{byte, halves, number, shown, word};
use bucket_ids::{Bucket, path_of};
use document_ids::DocId;
use global_ids::{Gid, lane_of};
use ideal_nodes::NodeList;
use ideal_nodes::scores::score;
use md5::{Digest, Md5};
use node_sets::NodeSet;
use stamps::Stamp;
use std::alloc::Global;

/// Why a text is no document id, if it is none; of an id its text, type, number and group; or its location.
pub fn id_told(alloc: Global, table: Table, text: &str) -> Option<String> {
    match DocId::parse(alloc, text) {
        Ok(id) => match table {
            Table::IdParts => shown(alloc, &(id.text(), id.type_name(), id.number(), id.group())),
            Table::Locations => location_told(alloc, Gid::of(&id)),
            _ => String::from_str(alloc, "None").ok(),
        },
        Err(fault) if matches!(table, Table::Ids) => shown(alloc, &Some(fault)),
        Err(fault) => shown(alloc, &fault),
    }
}

/// The MD5 digest of a text, as one number.
pub fn digest(alloc: Global, text: &str) -> Option<String> {
    let number = u128::from_be_bytes(Md5::digest(text));
    format!(in alloc; "{number:032x}").ok()
}

/// The location of a document id, by its global id's bytes and by its key, and its lane of 16.
fn location_told(alloc: Global, gid: Gid) -> Option<String> {
    let [a, b, c, d, ..] = gid.bytes();
    let key = gid.key();
    shown(
        alloc,
        &(
            u32::from_le_bytes([a, b, c, d]),
            key % (1 << 32),
            lane_of(key, 4),
        ),
    )
}

/// The bucket that a text is printed of; that of bit 0 where it is of none.
fn bucket_named(text: &str) -> Bucket {
    Bucket::parse(text).unwrap_or(Bucket::new(1, 0))
}

/// How the bucket of so many bits and these low bits is printed.
pub fn bucket_printed(alloc: Global, asked: &str) -> Option<String> {
    let bits = byte(asked, 0);
    let low = number(asked, 1);
    if bits < 1 || bits > 58 || low >= 1u64 << bits {
        return shown(alloc, &"no bucket");
    }
    Bucket::new(bits, low).print(alloc).ok()
}

/// The bucket that a text is printed of, or that there is none.
pub fn bucket_read(alloc: Global, text: &str) -> Option<String> {
    shown(alloc, &Bucket::parse(text))
}

/// The two children of a bucket; its parent and sibling; or how many keys it has, its run, and the path of its low bits.
pub fn bucket_told(alloc: Global, table: Table, text: &str) -> Option<String> {
    let bucket = bucket_named(text);
    match table {
        Table::Children if bucket.bits() < 58 => shown(alloc, &bucket.children()),
        Table::Children => shown(alloc, &"no children"),
        Table::Kin if bucket.bits() > 1 => shown(alloc, &(bucket.parent(), bucket.sibling())),
        Table::Kin => shown(alloc, &"no parent"),
        _ => shown(
            alloc,
            &(bucket.measure(), bucket.run(), path_of(bucket.low())),
        ),
    }
}

/// Whether a bucket has the key of a document id, a key, or all that another has; or the score of a node for it.
pub fn bucket_held(alloc: Global, table: Table, asked: &str) -> Option<String> {
    let (bucket, other) = halves(asked);
    let bucket = bucket_named(bucket);
    match table {
        Table::BucketsOfIds => has_id(alloc, bucket, other),
        Table::Keys => shown(alloc, &bucket.contains(number(other, 0))),
        Table::Covers => shown(alloc, &bucket.covers(bucket_named(other))),
        _ => {
            let score = score(b"ideal", bucket, byte(other, 0));
            format!(in alloc; "{score:016x}").ok()
        }
    }
}

/// Whether a bucket has the key of a document id.
fn has_id(alloc: Global, bucket: Bucket, text: &str) -> Option<String> {
    match DocId::parse(alloc, text) {
        Ok(id) => shown(alloc, &bucket.contains(Gid::of(&id).key())),
        Err(fault) => shown(alloc, &fault),
    }
}

/// How the stamp after one is printed; or whether a stamp comes before another, is less, and is at most that.
pub fn stamp_told(alloc: Global, table: Table, asked: &str) -> Option<String> {
    let one = Stamp {
        version: word(asked, 0),
        count: number(asked, 1),
    };
    let two = Stamp {
        version: word(asked, 2),
        count: number(asked, 3),
    };
    match table {
        Table::StampOrders => shown(alloc, &(one.is_before(two), one < two, one <= two)),
        _ if one.count == u64::MAX => shown(alloc, &"no next"),
        _ => one.next().print(alloc).ok(),
    }
}

/// The members of a set of nodes, one after the other; whether it has a node, and at least so many; how many nodes below
/// an end it has with a node, and which it has without; or what it has with another set.
pub fn set_told(alloc: Global, table: Table, asked: &str) -> Option<String> {
    let nodes = NodeSet::of(word(asked, 0));
    let (node, end) = (byte(asked, 1), byte(asked, 2));
    match table {
        Table::SetMembers => set_members(alloc, nodes),
        Table::SetHas => shown(alloc, &(nodes.has(node), nodes.has_at_least(node))),
        Table::SetPairs => set_pair(alloc, nodes, NodeSet::of(word(asked, 1))),
        _ if node < 32 && end <= 32 => shown(
            alloc,
            &(nodes.with(node).len_below(end), nodes.without(node).bits()),
        ),
        _ => shown(alloc, &"no node"),
    }
}

fn set_members(alloc: Global, nodes: NodeSet) -> Option<String> {
    let mut members = Vec::new(alloc);
    let mut good = true;
    for index in 0..nodes.len() {
        good &= members.push(nodes.at(index)).is_ok();
    }
    if good { shown(alloc, &members) } else { None }
}

/// What two sets share, what the first alone has, how many both have together, and whether the first is within the
/// second.
fn set_pair(alloc: Global, one: NodeSet, two: NodeSet) -> Option<String> {
    shown(
        alloc,
        &(
            one.intersection(two).bits(),
            one.difference(two).bits(),
            one.union(two).len(),
            one.is_within(two),
        ),
    )
}

/// The nodes of a list; none where there is no memory.
pub fn nodes_of(alloc: Global, list: &NodeList) -> Option<Vec<u8>> {
    let mut nodes = Vec::new(alloc);
    let mut good = true;
    for index in 0..list.len() {
        good &= nodes.push(list.at(index)).is_ok();
    }
    if good { Some(nodes) } else { None }
}
