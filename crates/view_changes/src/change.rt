use bucket_ids::Bucket;
use documents::SharedEntry;
use entry_maps::EntryMap;

/// What changes of what is seen of a lane.
#[derive(Drop)]
pub enum LaneChange {
    /// A node took a greater version.
    Adopt {
        node: u8,
        version: u32,
    },
    /// A bucket is an active region of a node, with these entries.
    Activate {
        node: u8,
        bucket: Bucket,
        entries: EntryMap,
    },
    /// A node kept an entry in an active region.
    Take {
        node: u8,
        entry: SharedEntry,
    },
    /// A node stopped.
    Stop {
        node: u8,
    },
    /// A node runs again.
    Start {
        node: u8,
    },
}
