//! The seats of one reader.

ghost use Rattle.std.specs.Prelude.{◌≡◌, ◌≤◌, ◌<◌, length, IfOk, IfSome};
ghost use Rattle.std.specs.Option.{ForSome};
ghost use mathlib.Core.List.{IsPrefix};
ghost use Rattle.generation_guard.specs.Seats.{IsOfShelf};
ghost use Rattle.search_seats.specs.Searches.{KeepsSeat, KeepSeats, IsReadFrom, seat_at};

use crate::reading::{Searched, read_all};
use generation_guard::{Note, Seat};
use query_text::Query;
use std::alloc::Global;
use std::marker::Model;
use value_lists::NoMemory;

/// A seat, or none, for each lane.
#[derive(Drop)]
pub struct Seats {
    seats: Vec<Option<Seat>>,
}

impl Model for Seats {
    ghost use Rattle.std.specs.Prelude.{List, Option, ◌≤◌, length};
    ghost use Rattle.std.specs.Coded.{coded_list, coded_option};
    ghost use Rattle.generation_guard.specs.Known.{Known, known_code};

    ghost Value = { List (Option Known) };

    ghost coded = { coded_list (coded_option known_code) };

    ghost view = { λ s. s.seats.items };

    ghost invariant = { λ s. length s.seats.items ≤ 64 };
}

/// A seat, if it is one, learns what a note of its shelf tells.
fn learn(seat: &mut Option<Seat>, note: Note)
    requires { ForSome seat.old (λ s. IsOfShelf s.shelf note) }
    ensures keeps { KeepsSeat seat.old seat.new }
    ensures told { IfSome seat.new (λ s. IsPrefix note.changes s.seen) }
{
    if let Some(own) = seat {
        own.learn(note);
    }
}

impl Seats {
    /// The seats of the lanes, in order.
    pub fn of(seats: Vec<Option<Seat>>) -> Seats
        requires few { length seats.items ≤ 64 }
        ensures { result ≡ seats.items }
    {
        Seats { seats }
    }

    /// What the lanes show of a query under a version; nothing where one of them has no seat or its seat isn't let in:
    /// no clause ties that. After every answer each seat is back and keeps what it saw. Waits for nobody.
    pub fn search(
        &mut self,
        alloc: Global,
        query: &Query,
        version: u32,
    ) -> Result<Option<Searched>, NoMemory>
        ensures keeps { KeepSeats self.old self.new }
        ensures read { IfOk result (λ o. IfSome o (λ searched. IsReadFrom query.now version self.new searched)) }
    {
        read_all(alloc, &mut self.seats, query, version)
    }

    /// The seat of a lane, where it has one, learns what a note of its shelf tells.
    pub fn learn(&mut self, lane: u8, note: Note)
        requires { ForSome (seat_at self.old lane) (λ s. IsOfShelf s.shelf note) }
        ensures keeps { KeepSeats self.old self.new }
        ensures told { IfSome (seat_at self.new lane) (λ s. IsPrefix note.changes s.seen) }
    {
        let at = usize::from(lane);
        if at < self.seats.len() {
            learn(&mut self.seats[at], note);
        }
    }
}
