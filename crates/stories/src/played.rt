use carriers::{Carriers, PlanCarrier};
use cell_session::{Cluster, run_one};
use io_ends::{MemorySink, MemorySource};
use std::alloc::Global;

/// What a session came to: its exit status, its output, and the cluster that it leaves.
#[derive(Drop)]
pub struct Played {
    pub status: u8,
    pub sink: MemorySink,
    pub cluster: Cluster<PlanCarrier>,
}

/// Runs a session.
pub fn play<C: Carriers<One = PlanCarrier> + Drop>(
    alloc: Global,
    words: Vec<String>,
    mut source: MemorySource,
    mut sink: MemorySink,
    mut carriers: C,
) -> Played {
    let mut cluster = Cluster::empty(alloc);
    let status = run_one(
        alloc,
        &words,
        &mut source,
        &mut sink,
        &mut carriers,
        &mut cluster,
    );
    Played {
        status: status.number(),
        sink,
        cluster,
    }
}
