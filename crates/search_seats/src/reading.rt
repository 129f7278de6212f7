//! What a search reads of seats, one after the other.

ghost use Rattle.std.specs.Prelude.{◌≡◌, ◌≤◌, ◌<◌, ◌+◌, [], length, IfOk, IfSome};
ghost use Rattle.search_seats.specs.Searches.{KeepsSeat, KeepSeats, ReadsSeat, ReadsAt, IsReadFrom};

use generation_guard::{Front, Seat};
use query_groups::SearchAnswer;
use query_text::Query;
use search_views::SearchSum;
use std::alloc::Global;
use value_lists::{Listed, NoMemory};

/// How far a search read in each lane, in lane order.
pub type Fronts = Listed<Front>;

/// What a search found, and how far it read.
#[derive(Drop)]
pub struct Searched {
    pub answer: SearchAnswer,
    pub fronts: Fronts,
}

/// The view of a seat is added to a sum; nothing is read where there is no seat, or it isn't let in. The seat is back
/// after every answer.
fn read(
    alloc: Global,
    seat: &mut Option<Seat>,
    sum: &mut SearchSum<'_>,
) -> Result<Option<Front>, NoMemory>
    requires few { sum.old.groups.views < 64 }
    ensures keeps { KeepsSeat seat.old seat.new }
    ensures read { IfOk result (λ o. IfSome o (λ front. ReadsSeat seat.new front sum.old sum.new)) }
{
    let Some(own) = seat.take() else {
        return Ok(None);
    };
    match own.enter() {
        Ok(guard) => {
            let added = sum.add(alloc, guard.view());
            let front = guard.front();
            *seat = Some(guard.leave());
            match added {
                Ok(()) => Ok(Some(front)),
                Err(e) => Err(e),
            }
        }
        Err(own) => {
            *seat = Some(own);
            Ok(None)
        }
    }
}

/// The same of the seat of a lane.
fn read_at(
    alloc: Global,
    seats: &mut Vec<Option<Seat>>,
    lane: usize,
    sum: &mut SearchSum<'_>,
) -> Result<Option<Front>, NoMemory>
    requires at { lane < length seats.old.items }
    requires few { sum.old.groups.views < 64 }
    ensures keeps { KeepSeats seats.old.items seats.new.items }
    ensures many { length seats.new.items ≡ length seats.old.items }
    ensures read { IfOk result (λ o. IfSome o (λ front. ReadsAt lane seats.old.items seats.new.items front sum.old sum.new)) }
{
    read(alloc, &mut seats[lane], sum)
}

/// What all seats show of a query under a version; nothing where one of them can't be read.
pub fn read_all(
    alloc: Global,
    seats: &mut Vec<Option<Seat>>,
    query: &Query,
    version: u32,
) -> Result<Option<Searched>, NoMemory>
    requires few { length seats.old.items ≤ 64 }
    ensures keeps { KeepSeats seats.old.items seats.new.items }
    ensures many { length seats.new.items ≡ length seats.old.items }
    ensures read { IfOk result (λ o. IfSome o (λ searched. IsReadFrom query.now version seats.new.items searched)) }
{
    let mut fronts = Vec::new(alloc);
    let mut sum = SearchSum::new(alloc, query, version);
    for lane in 0..seats.len() {
        let Some(front) = read_at(alloc, seats, lane, &mut sum)? else {
            return Ok(None);
        };
        fronts.push(front)?;
    }
    let answer = sum.finish(alloc)?;
    Ok(Some(Searched {
        answer,
        fronts: Fronts::of(fronts),
    }))
}
