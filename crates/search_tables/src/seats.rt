//! What seats see of a shelf while it takes changes and publishes them, and what a search reads of them. Change n gives
//! node 0 version n.

ghost use Rattle.std.specs.Prelude.{◌≡◌, ◌<◌, ◌∷◌, [], IfSome};
ghost use Rattle.std.specs.Option.{ForSome};
ghost use Rattle.search_seats.specs.Searches.{seat_at};

use crate::entries::schema;
use crate::views::{opening, read_change};
use generation_guard::{Guard, Places, Seat, SharedShelf};
use query_text::Query;
use search_seats::{Searched, Seats};
use shelves::Shelf;
use std::alloc::Global;
use std::io;
use std::sync::Wait;
use std::thread::{Threads, join};
use view_changes::{LaneChange, Lists};

/// What is held of seats, each by a function.
const CASES: &[&str] = &[
    "seats see what is shown",
    "seats see what they learnt",
    "seats see rising views beside a writer",
    "a search reads seats",
    "a search finds nothing without a seat",
];

/// Two documents in a bucket that becomes active.
const ACTIVATED: &str = "0 0400000000000001 id:ns:music:n=5:a;year=1999 id:ns:music:n=7:b;year=-3";

/// Appends a change, and publishes it where that is said; whether there was memory for it.
fn give<R: Wait + Drop>(shelf: &mut SharedShelf<R>, version: u32, shown: bool) -> bool
    ensures { shelf.new.shelf ≡ shelf.old.shelf }
{
    let change = LaneChange::Adopt { node: 0, version };
    if shelf.append(change).is_err() {
        return false;
    }
    !shown || shelf.publish().is_ok()
}

/// What a guard sees whose view isn't the one after its changes.
const WRONG: u64 = u64::MAX;

/// How many changes a guard sees, where its view is the one after these.
fn seen(guard: &Guard) -> u64 {
    let generation = guard.generation();
    let version = u32::try_from(generation).unwrap_or(0);
    let view = guard.view();
    if view.generation() == generation && view.serves(0, version) {
        generation
    } else {
        WRONG
    }
}

/// What a seat sees as it enters, and once more after a change was published meanwhile.
fn look_twice<R: Wait + Drop>(
    seat: &mut Option<Seat>,
    shelf: &mut SharedShelf<R>,
    version: u32,
) -> (u64, u64) {
    let Some(own) = seat.take() else {
        return (WRONG, WRONG);
    };
    match own.enter() {
        Ok(guard) => {
            let first = seen(&guard);
            let given = give(shelf, version, true);
            let second = if given { seen(&guard) } else { WRONG };
            *seat = Some(guard.leave());
            (first, second)
        }
        Err(own) => {
            *seat = Some(own);
            (WRONG, WRONG)
        }
    }
}

/// What a seat sees as it enters; none where it isn't let in.
fn look(seat: &mut Option<Seat>) -> Option<u64> {
    let own = seat.take()?;
    match own.enter() {
        Ok(guard) => {
            let now = seen(&guard);
            *seat = Some(guard.leave());
            Some(now)
        }
        Err(own) => {
            *seat = Some(own);
            None
        }
    }
}

/// A shelf that shows nothing, with so many seats.
fn new_shelf<R: Wait + Drop>(alloc: Global, rt: R, places: u8) -> Option<(SharedShelf<R>, Places)>
    requires { 0 < places }
    ensures { IfSome result (λ t. t.1 ≡ t.0.shelf) }
{
    SharedShelf::new(alloc, rt, opening(alloc)?, places).ok()
}

/// A seat sees what is published, and neither what is pending nor what comes while its guard stands.
fn sees_what_is_shown<R: Wait + Drop>(shelf: &mut SharedShelf<R>, seat: &mut Option<Seat>) -> bool {
    let none = look(seat) == Some(0);
    let pending = give(shelf, 1, false) && look(seat) == Some(0);
    let meanwhile = look_twice(seat, shelf, 2) == (0, 0);
    none && pending && meanwhile && look(seat) == Some(2)
}

fn seats_see_what_is_shown<R: Wait>(rt: &R, alloc: Global) -> bool {
    match new_shelf(alloc, rt, 1) {
        Some((mut shelf, mut places)) => {
            let mut seat = places.seat();
            sees_what_is_shown(&mut shelf, &mut seat) && places.seat().is_none()
        }
        None => false,
    }
}

/// The seat of a place, once it learnt all that a shelf shows.
fn learnt<R: Wait + Drop>(shelf: &mut SharedShelf<R>, places: &mut Places) -> Option<Seat>
    requires { places.old ≡ shelf.old.shelf }
{
    let mut seat = places.seat()?;
    seat.learn(shelf.tell());
    Some(seat)
}

/// A seat that learnt two changes sees them, one that learnt nothing sees no less, and both see the same.
fn sees_what_it_learnt<R: Wait + Drop>(shelf: &mut SharedShelf<R>, places: &mut Places) -> bool
    requires { places.old ≡ shelf.old.shelf }
{
    let given = give(shelf, 1, true) && give(shelf, 2, true);
    let mut first = learnt(shelf, places);
    let mut second = places.seat();
    let before = look_twice(&mut first, shelf, 3) == (2, 2);
    given && before && look(&mut second) == Some(3) && look(&mut first) == Some(3)
}

fn seats_see_what_they_learnt<R: Wait>(rt: &R, alloc: Global) -> bool {
    match new_shelf(alloc, rt, 2) {
        Some((mut shelf, mut places)) => sees_what_it_learnt(&mut shelf, &mut places),
        None => false,
    }
}

/// Enters and leaves often; whether no view showed less than the one before.
fn look_on(seat: Option<Seat>) -> bool {
    let mut seat = seat;
    let mut last = 0;
    let mut good = true;
    for _ in 0..1000 {
        let now = look(&mut seat).unwrap_or(last);
        good = good && last <= now && now < WRONG;
        last = now;
    }
    good
}

/// Gives so many changes; whether there was memory for all.
fn give_all<R: Wait + Drop>(shelf: &mut SharedShelf<R>, many: u32) -> bool {
    let mut good = true;
    for version in 0..many {
        good = good && give(shelf, version + 1, true);
    }
    good
}

fn seats_rise_beside_a_writer<R: Wait + Threads>(rt: &R, alloc: Global) -> bool {
    match new_shelf(alloc, rt, 2) {
        Some((mut shelf, mut places)) => {
            let (first, mut second) = (places.seat(), places.seat());
            let writer = &mut shelf;
            let done = join(rt, move || look_on(first), move || give_all(writer, 1000));
            done == (true, true) && look(&mut second) == Some(1000)
        }
        None => false,
    }
}

/// Appends the change that a line says and publishes it; whether there was one and memory for it.
fn change<R: Wait + Drop>(alloc: Global, shelf: &mut SharedShelf<R>, verb: &str, rest: &str) -> bool
    ensures { shelf.new.shelf ≡ shelf.old.shelf }
{
    match read_change(alloc, verb, rest) {
        Some(change) => shelf.append(change).is_ok() && shelf.publish().is_ok(),
        None => false,
    }
}

/// How many documents a search found under which version, and how many changes it read in the first lane.
fn found(searched: &Searched) -> (u64, u32, u64) {
    let front = match searched.fronts.items().first() {
        Some(front) => front.len(),
        None => WRONG,
    };
    (searched.answer.count, searched.answer.version, front)
}

/// A query for all documents of a type.
fn query_of(alloc: Global) -> Option<Query> {
    let schema = schema(alloc)?;
    Query::parse(alloc, "select * from music where true", schema.schema()).ok()
}

/// What a query finds by seats under version 7; none where no lane was read.
fn search_by(alloc: Global, seats: &mut Seats, query: &Query) -> Option<(u64, u32, u64)> {
    let searched = seats.search(alloc, query, 7).ok()??;
    Some(found(&searched))
}

/// What a search for all documents of a type finds.
fn search(alloc: Global, seats: &mut Seats) -> Option<(u64, u32, u64)> {
    let query = query_of(alloc)?;
    search_by(alloc, seats, &query)
}

/// The seats of one lane.
fn seats_of(alloc: Global, seat: Option<Seat>) -> Option<Seats>
    ensures { IfSome result (λ seats. seats ≡ seat ∷ []) }
{
    let mut seats = Vec::new(alloc);
    match seats.push(seat) {
        Ok(()) => Some(Seats::of(seats)),
        Err(_) => None,
    }
}

/// A search by a seat that learnt what was published finds that, and a later one what was published since.
fn finds_what_is_shown<R: Wait + Drop>(
    alloc: Global,
    shelf: &mut SharedShelf<R>,
    seats: &mut Seats,
) -> bool
    requires { ForSome (seat_at seats.old 0) (λ s. s.shelf ≡ shelf.old.shelf) }
{
    let adopted = change(alloc, shelf, "adopt", "0 7");
    seats.learn(0, shelf.tell());
    let before = search(alloc, seats) == Some((0, 7, 1));
    let activated = change(alloc, shelf, "activate", ACTIVATED);
    adopted && before && activated && search(alloc, seats) == Some((2, 7, 2))
}

/// A lane whose seat somebody else has isn't read.
fn finds_nothing_without_a_seat(alloc: Global) -> bool {
    match seats_of(alloc, None) {
        Some(mut seats) => search(alloc, &mut seats).is_none(),
        None => false,
    }
}

fn searches_read_seats<R: Wait>(rt: &R, alloc: Global) -> bool {
    match new_shelf(alloc, rt, 1) {
        Some((mut shelf, mut places)) => match seats_of(alloc, places.seat()) {
            Some(mut seats) => finds_what_is_shown(alloc, &mut shelf, &mut seats),
            None => false,
        },
        None => false,
    }
}

/// Whether a case holds.
fn holds<R: Wait + Threads>(rt: &R, alloc: Global, case: &str) -> bool {
    match case {
        "seats see what is shown" => seats_see_what_is_shown(rt, alloc),
        "seats see what they learnt" => seats_see_what_they_learnt(rt, alloc),
        "seats see rising views beside a writer" => seats_rise_beside_a_writer(rt, alloc),
        "a search reads seats" => searches_read_seats(rt, alloc),
        _ => finds_nothing_without_a_seat(alloc),
    }
}

/// Prints of each case whether it holds; true where one doesn't.
pub fn hold_seats<R: Wait + Threads + Print>(rt: &R, alloc: Global) -> io::Result<bool> {
    let mut wrong = false;
    for case in CASES {
        let good = holds(rt, alloc, case);
        wrong |= !good;
        println!(rt; "{case}: {good}")?;
    }
    Ok(wrong)
}
