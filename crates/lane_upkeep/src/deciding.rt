ghost use Rattle.std.specs.Prelude.{◌≡◌, ◌<◌, List, length, OnOk, OnErr, IfSome, slice_get};
ghost use Rattle.bucket_db.specs.declared.row.Row.{Row};
ghost use Rattle.carriers.specs.declared.fate.Fate.{Fate};
ghost use Rattle.distributor_part.specs.Upkeep.{CanJoinAt};
ghost use Rattle.lane_journals.specs.Meanings.{history};
ghost use Rattle.lane_journals.specs.declared.event.LaneEvent.TheVariants.{Decided};
ghost use Rattle.lane_states.specs.Accepting.{HasAccepted};
ghost use Rattle.lane_states.specs.LaneStates.{journal_of, log_of, part_of, IsKept, HasRoom};
ghost use Rattle.row_keeping.specs.Deciding.{MayActivate, MayDelete};
ghost use Rattle.lane_upkeep.specs.Deciding.{DecidesNothing, DidSplit, DidJoin, DidActivate, DidAccept, DidBeginDelete, DidEndDelete, HasEnded};
ghost use Rattle.lane_upkeep.specs.Noted.{StaysKnown};
ghost use Rattle.lane_upkeep.specs.Passing.{IsPassing, Passes, PassesOn, rows_in, HasRow};

use crate::owner::Owner;
use bucket_ids::Bucket;
use lane_journals::LaneEvent;
use lane_states::LaneState;
use lane_states::event_log::push_within;
use messages::Decision;
use row_keeping::laws::{
    acceptances_are_kept, deletes_begin, deletes_end, rows_are_activated, rows_are_joined,
    rows_are_split,
};
use upkeep_spans::laws::upkeep_leaves_lines;
use value_lists::NoMemory;

/// Makes room for one decision.
fn room_for_decision(lane: &mut LaneState) -> Result<(), NoMemory>
    requires keeps { IsKept lane.old }
    requires spare { HasRoom 0 lane.old }
    ensures spare { HasRoom 0 lane.new }
    ensures same { lane.new.journal.events.items ≡ lane.old.journal.events.items }
    ensures told { log_of lane.new ≡ log_of lane.old }
    ensures after { lane.new ≡ record lane.old { journal = lane.new.journal } }
    ensures room { OnOk result (HasRoom 1 lane.new) }
{
    lane.journal.events.reserve(lane.spare.saturating_add(1))?;
    Ok(())
}

/// The event that the owner decides.
fn decided(owner: &Owner, decision: Decision) -> LaneEvent
    ensures { result ≡ Decided owner.now.distributor owner.now.state.version decision }
{
    LaneEvent::Decided {
        distributor: owner.distributor,
        version: owner.state.version(),
        decision,
    }
}

/// Splits a row.
pub fn split_row(lane: &mut LaneState, owner: &Owner, at: usize) -> Result<(), NoMemory>
    requires passing { Passes lane.old owner.now }
    requires place { at < length (rows_in lane.old owner.now) }
    requires fewer { IfSome (slice_get (rows_in lane.old owner.now) at) (λ row. row.bucket.bits < 58) }
    ensures passing { (given : List Fate) → IsPassing lane.old owner.now given → IsPassing lane.new owner.now given }
    ensures on { PassesOn lane.old lane.new owner.now }
    ensures known { StaysKnown lane.old lane.new owner.now }
    ensures did { OnOk result (DidSplit lane.old lane.new owner.now at) }
    ensures err { OnErr result (DecidesNothing lane.old lane.new owner.now) }
    ensures same { OnErr result (rows_in lane.new owner.now ≡ rows_in lane.old owner.now) }
{
    rows_are_split();
    upkeep_leaves_lines();
    room_for_decision(lane)?;
    let part = &mut lane.parts[usize::from(owner.distributor)];
    let bucket = part.rows()[at].bucket;
    part.split_row(at)?;
    push_within(
        &mut lane.journal.events,
        decided(owner, Decision::RowSplit { bucket }),
    );
    Ok(())
}

/// Joins a row with its sibling.
pub fn join_rows(lane: &mut LaneState, owner: &Owner, at: usize) -> Result<(), NoMemory>
    requires passing { Passes lane.old owner.now }
    requires place { at < length (rows_in lane.old owner.now) }
    requires joinable { CanJoinAt (part_of lane.old owner.now.distributor) at }
    ensures passing { (given : List Fate) → IsPassing lane.old owner.now given → IsPassing lane.new owner.now given }
    ensures on { PassesOn lane.old lane.new owner.now }
    ensures known { StaysKnown lane.old lane.new owner.now }
    ensures did { OnOk result (DidJoin lane.old lane.new owner.now at) }
    ensures err { OnErr result (DecidesNothing lane.old lane.new owner.now) }
    ensures same { OnErr result (rows_in lane.new owner.now ≡ rows_in lane.old owner.now) }
{
    rows_are_joined();
    upkeep_leaves_lines();
    room_for_decision(lane)?;
    let part = &mut lane.parts[usize::from(owner.distributor)];
    let bucket = part.rows()[at].bucket;
    part.join_rows(at);
    let parent = bucket.parent();
    push_within(
        &mut lane.journal.events,
        decided(owner, Decision::RowsJoined { parent }),
    );
    Ok(())
}

/// Activates a row on a node.
pub fn activate(lane: &mut LaneState, owner: &Owner, at: usize, node: u8) -> Result<(), NoMemory>
    requires passing { Passes lane.old owner.now }
    requires place { at < length (rows_in lane.old owner.now) }
    requires small { node < 32 }
    requires may { (row : Row) → HasRow lane.old owner.now at row
        → MayActivate (history (journal_of lane.old)) owner.now.state row node }
    ensures passing { (given : List Fate) → IsPassing lane.old owner.now given → IsPassing lane.new owner.now given }
    ensures on { PassesOn lane.old lane.new owner.now }
    ensures known { StaysKnown lane.old lane.new owner.now }
    ensures did { OnOk result (DidActivate lane.old lane.new owner.now at node) }
    ensures err { OnErr result (DecidesNothing lane.old lane.new owner.now) }
    ensures same { OnErr result (rows_in lane.new owner.now ≡ rows_in lane.old owner.now) }
{
    rows_are_activated();
    upkeep_leaves_lines();
    room_for_decision(lane)?;
    let part = &mut lane.parts[usize::from(owner.distributor)];
    let bucket = part.rows()[at].bucket;
    part.activate(at, node);
    push_within(
        &mut lane.journal.events,
        decided(owner, Decision::ActiveOn { bucket, node }),
    );
    Ok(())
}

/// Notes that the active node of a row accepted its activation, which is no decision.
pub fn accept(lane: &mut LaneState, owner: &Owner, at: usize)
    requires passing { Passes lane.old owner.now }
    requires place { at < length (rows_in lane.old owner.now) }
    requires accepted { (row : Row) → HasRow lane.old owner.now at row
        → HasAccepted owner.now.state.version (history (journal_of lane.old)) row }
    ensures passing { (given : List Fate) → IsPassing lane.old owner.now given → IsPassing lane.new owner.now given }
    ensures on { PassesOn lane.old lane.new owner.now }
    ensures known { StaysKnown lane.old lane.new owner.now }
    ensures did { DidAccept lane.old lane.new owner.now at }
{
    acceptances_are_kept();
    lane.parts[usize::from(owner.distributor)].accept(at);
}

/// Deletes the copy of a row from a node that is no target.
pub fn delete_from(
    lane: &mut LaneState,
    owner: &Owner,
    at: usize,
    node: u8,
    serial: u64,
) -> Result<(), NoMemory>
    requires passing { Passes lane.old owner.now }
    requires place { at < length (rows_in lane.old owner.now) }
    requires small { node < 32 }
    requires may { (row : Row) → HasRow lane.old owner.now at row
        → MayDelete lane.old.rules (history (journal_of lane.old)) owner.now.state row node serial }
    ensures passing { (given : List Fate) → IsPassing lane.old owner.now given → IsPassing lane.new owner.now given }
    ensures on { PassesOn lane.old lane.new owner.now }
    ensures known { StaysKnown lane.old lane.new owner.now }
    ensures did { OnOk result (DidBeginDelete lane.old lane.new owner.now at node serial) }
    ensures err { OnErr result (DecidesNothing lane.old lane.new owner.now) }
    ensures same { OnErr result (rows_in lane.new owner.now ≡ rows_in lane.old owner.now) }
{
    deletes_begin();
    upkeep_leaves_lines();
    room_for_decision(lane)?;
    let part = &mut lane.parts[usize::from(owner.distributor)];
    let bucket = part.rows()[at].bucket;
    part.delete_from(at, node, serial);
    push_within(
        &mut lane.journal.events,
        decided(
            owner,
            Decision::DeleteFrom {
                bucket,
                node,
                serial,
            },
        ),
    );
    Ok(())
}

/// Ends the Delete of a bucket to a node, after a reply that ends it.
pub fn delete_over(
    lane: &mut LaneState,
    owner: &Owner,
    bucket: Bucket,
    node: u8,
) -> Result<(), NoMemory>
    requires passing { Passes lane.old owner.now }
    requires over { HasEnded lane.old owner.now bucket node }
    ensures passing { (given : List Fate) → IsPassing lane.old owner.now given → IsPassing lane.new owner.now given }
    ensures on { PassesOn lane.old lane.new owner.now }
    ensures known { StaysKnown lane.old lane.new owner.now }
    ensures did { OnOk result (DidEndDelete lane.old lane.new owner.now bucket node) }
    ensures err { OnErr result (DecidesNothing lane.old lane.new owner.now) }
    ensures same { OnErr result (rows_in lane.new owner.now ≡ rows_in lane.old owner.now) }
{
    deletes_end();
    upkeep_leaves_lines();
    room_for_decision(lane)?;
    lane.parts[usize::from(owner.distributor)].delete_over(bucket, node);
    push_within(
        &mut lane.journal.events,
        decided(owner, Decision::DeleteOver { bucket, node }),
    );
    Ok(())
}
