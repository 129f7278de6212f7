ghost use Rattle.std.specs.Prelude.{◌≡◌, ◌<◌, ℕ, Some, IsSome, length, slice_get};
ghost use Rattle.bucket_db.specs.declared.row.Row.{Row as OneRow};
ghost use Rattle.distributor_part.specs.Parts.{rows_of};
ghost use Rattle.pass_machine.specs.Turns.{View, Sees, resending_delete, resent_delete, resending_activate, resent_activate};

use crate::doing::{Doing, Turn, UpkeepStep};
use crate::places::was_sent;
use distributor_part::DistributorPart;
use messages::{Body, Decision};

/// The unanswered Delete of the row of a place is sent again, if its node serves and it wasn't sent again before.
pub fn resending_delete(part: &DistributorPart, at: usize) -> Turn
    requires heard { IsSome part.now.state }
    ensures { (v : View) → Sees part.now v → result ≡ resending_delete v at (slice_get v.rows at) }
{
    let Some(state) = part.state() else {
        unreachable!();
    };
    let rows = part.rows();
    let Some(row) = rows.get(at) else {
        return Turn::Over(Doing::ResendingActivate { at: 0 });
    };
    if let Some(delete) = row.deleting {
        if !was_sent(rows, at, &delete) && state.serving().has(delete.node) {
            let body = Body::Delete {
                bucket: delete.bucket,
                serial: delete.serial,
            };
            return Turn::Says(UpkeepStep::Tell {
                node: delete.node,
                body,
            });
        }
    }
    Turn::Over(Doing::ResendingDelete { at: at + 1 })
}

/// And then it is over.
pub fn resent_delete(part: &DistributorPart, at: usize) -> Turn
    ensures { (v : View) → Sees part.now v → result ≡ resent_delete v at (slice_get v.rows at) }
{
    let Some(row) = part.rows().get(at) else {
        return Turn::Over(Doing::ResendingActivate { at: 0 });
    };
    if let Some(delete) = row.deleting {
        let decision = Decision::DeleteOver {
            bucket: delete.bucket,
            node: delete.node,
        };
        return Turn::Says(UpkeepStep::Decide { at, decision });
    }
    Turn::Over(Doing::ResendingDelete { at: at + 1 })
}

/// The active node of the row of a place is told so again, if it serves and hasn't accepted yet.
pub fn resending_activate(part: &DistributorPart, at: usize) -> Turn
    requires heard { IsSome part.now.state }
    ensures { (v : View) → Sees part.now v → result ≡ resending_activate v at (slice_get v.rows at) }
{
    let Some(state) = part.state() else {
        unreachable!();
    };
    let Some(row) = part.rows().get(at) else {
        return Turn::Over(Doing::Rounding { at: 0 });
    };
    if let Some(node) = row.active {
        if !row.accepted && state.serving().has(node) {
            return Turn::Says(UpkeepStep::Tell {
                node,
                body: Body::Activate { bucket: row.bucket },
            });
        }
    }
    Turn::Over(Doing::ResendingActivate { at: at + 1 })
}

/// It is noted where that node accepted.
pub fn resent_activate(part: &DistributorPart, at: usize, answered: bool) -> Turn
    ensures { (v : View) → Sees part.now v → result ≡ resent_activate at answered (slice_get v.rows at) }
{
    if part.rows().len() <= at {
        return Turn::Over(Doing::Rounding { at: 0 });
    }
    if answered {
        return Turn::Says(UpkeepStep::Accept { at });
    }
    Turn::Over(Doing::ResendingActivate { at: at + 1 })
}
