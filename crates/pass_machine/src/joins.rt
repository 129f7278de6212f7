ghost use Rattle.std.specs.Prelude.{◌≡◌, ◌<◌, ◌≤◌, ◌^◌, ◌+◌, ℕ, true, Some, IsSome, length, slice_get};
ghost use Rattle.bucket_db.specs.declared.row.Row.{Row as OneRow};
ghost use Rattle.distributor_part.specs.Parts.{rows_of};
ghost use Rattle.messages.specs.declared.body.Body.TheVariants.{Join, Split};
ghost use Rattle.pass_machine.specs.declared.doing.Doing.TheVariants.{Joining, JoinTold, JoinRound, SplitTold, SplitFirst};
ghost use Rattle.pass_machine.specs.Places.{next_place};
ghost use Rattle.pass_machine.specs.Turns.{View, Sees, begin_joins, end_joins, fewer_bits, does_join, joining, tell_all, round_of};

use crate::doing::{Doing, Settle, Time, Turn, UpkeepStep};
use crate::notes::Notes;
use crate::places::{are_small, can_join, first_with, is_first_half, next_place, place_of};
use bucket_db::Row;
use bucket_ids::Bucket;
use distributor_part::{DistributorPart, Rules};
use messages::{Body, Decision};

/// The rows of the most bits are joined first.
pub fn begin_joins(part: &DistributorPart, time: Time) -> Doing
    ensures { (v : View) → Sees part.now v → result ≡ begin_joins v time }
{
    Doing::Joining {
        time,
        bits: 58,
        at: first_with(part, 58),
    }
}

/// What comes behind the joins.
fn end_joins(time: Time) -> Doing
    ensures { result ≡ end_joins time }
{
    match time {
        Time::First => Doing::Splitting { at: 0 },
        Time::Again => Doing::Settling {
            time: Time::Again,
            at: 0,
            next: Settle::Beginning,
        },
    }
}

/// Then come those of one bit less; a row of one bit has no sibling in the lane.
pub fn fewer_bits(part: &DistributorPart, time: Time, bits: u8) -> Doing
    ensures { (v : View) → Sees part.now v → result ≡ fewer_bits v time bits }
{
    if bits <= 2 {
        return end_joins(time);
    }
    let bits = bits - 1;
    Doing::Joining {
        time,
        bits,
        at: first_with(part, bits),
    }
}

/// Whether the row of a place has so many bits, is the first half of one, and is to be joined with the other half.
fn does_join(
    part: &DistributorPart,
    rules: Rules,
    notes: &Notes,
    bits: u8,
    at: usize,
    row: &Row,
) -> bool
    requires rules { rules ≡ part.now.rules }
    requires place { at < length (rows_of part.now.rows) }
    requires row { slice_get (rows_of part.now.rows) at ≡ Some row.now }
    ensures is { (v : View) → Sees part.now v → result ≡ does_join v notes.now.by_number bits row.now }
    ensures some { result ≡ true → 1 < row.now.bucket.bits }
{
    let bucket = row.bucket;
    if bucket.bits() != bits || bits < 2 || !is_first_half(bucket) {
        return false;
    }
    can_join(part, at) && are_small(notes, bucket, rules.split_at)
}

/// The row of a place is joined with its sibling, if they are to be one.
fn joining_row(
    part: &DistributorPart,
    rules: Rules,
    notes: &Notes,
    time: Time,
    bits: u8,
    at: usize,
    row: &Row,
) -> Turn
    requires rules { rules ≡ part.now.rules }
    requires place { at < length (rows_of part.now.rows) }
    requires row { slice_get (rows_of part.now.rows) at ≡ Some row.now }
    requires fits { at < 2 ^ 63 }
    ensures { (v : View) → Sees part.now v → result ≡ joining v notes.now.by_number time bits at (Some row.now) }
{
    if bits < row.bucket.bits() {
        return Turn::Over(fewer_bits(part, time, bits));
    }
    if !does_join(part, rules, notes, bits, at, row) {
        return Turn::Over(Doing::Joining {
            time,
            bits,
            at: at + 1,
        });
    }
    let decision = Decision::RowsJoined {
        parent: row.bucket.parent(),
    };
    Turn::Says(UpkeepStep::Decide { at, decision })
}

/// The same of a place where there may be a row.
pub fn joining(
    part: &DistributorPart,
    rules: Rules,
    notes: &Notes,
    time: Time,
    bits: u8,
    at: usize,
) -> Turn
    requires rules { rules ≡ part.now.rules }
    ensures { (v : View) → Sees part.now v
        → result ≡ joining v notes.now.by_number time bits at (slice_get v.rows at) }
{
    let Some(row) = part.rows().get(at) else {
        return Turn::Over(fewer_bits(part, time, bits));
    };
    joining_row(part, rules, notes, time, bits, at, row)
}

/// The next node is told something, if it serves, or all were.
pub fn tell_all(part: &DistributorPart, node: u8, body: Body, next: Doing, last: Doing) -> Turn
    requires heard { IsSome part.now.state }
    ensures { (v : View) → Sees part.now v → result ≡ tell_all v node body next last }
{
    let Some(state) = part.state() else {
        unreachable!();
    };
    if 32 <= node {
        return Turn::Over(last);
    }
    if state.serving().has(node) {
        return Turn::Says(UpkeepStep::Tell { node, body });
    }
    Turn::Over(next)
}

/// A round of the row of a bucket.
pub fn round_of(part: &DistributorPart, bucket: Bucket, next: Doing) -> Turn
    ensures { (v : View) → Sees part.now v → result ≡ round_of v bucket next }
{
    let at = place_of(part, bucket);
    if part.rows().len() <= at {
        return Turn::Over(next);
    }
    Turn::Says(UpkeepStep::Round { at })
}

/// The next node is told of the row that a join made, or there is a round of it.
pub fn join_told(
    part: &DistributorPart,
    time: Time,
    bits: u8,
    at: usize,
    parent: Bucket,
    node: u8,
) -> Turn
    requires heard { IsSome part.now.state }
    ensures { (v : View) → Sees part.now v → result
        ≡ tell_all v node (Join parent) (JoinTold time bits at parent (node + 1)) (JoinRound time bits at parent) }
{
    let last = Doing::JoinRound {
        time,
        bits,
        at,
        parent,
    };
    let next = Doing::JoinTold {
        time,
        bits,
        at,
        parent,
        node: node.saturating_add(1),
    };
    tell_all(part, node, Body::Join { bucket: parent }, next, last)
}

/// That round, and then come the rows behind the place.
pub fn join_round(part: &DistributorPart, time: Time, bits: u8, at: usize, parent: Bucket) -> Turn
    ensures { (v : View) → Sees part.now v
        → result ≡ round_of v parent (Joining time bits (next_place (length v.rows) at)) }
{
    let next = Doing::Joining {
        time,
        bits,
        at: next_place(part, at),
    };
    round_of(part, parent, next)
}

/// The next node is told of the split of a row, or there is a round of its first half.
pub fn split_told(
    part: &DistributorPart,
    at: usize,
    first: Bucket,
    second: Bucket,
    node: u8,
) -> Turn
    requires heard { IsSome part.now.state }
    ensures { (v : View) → Sees part.now v → result
        ≡ tell_all v node (Split first) (SplitTold at first second (node + 1)) (SplitFirst at first second) }
{
    let last = Doing::SplitFirst { at, first, second };
    let next = Doing::SplitTold {
        at,
        first,
        second,
        node: node.saturating_add(1),
    };
    tell_all(part, node, Body::Split { bucket: first }, next, last)
}
