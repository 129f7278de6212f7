ghost use Rattle.std.specs.Prelude.{◌≡◌, ◌++◌, ◌∷◌, [], ◌<◌, ◌≤◌, length, take, drop, OnOk, OnErr, slice_set};
ghost use Rattle.std.specs.List.{HoldsAt, insert};
ghost use Rattle.entry_rows.specs.Chunks.{flat, place, AreSome, IsSpot, IsSeat};

use crate::chunks::{Chunks, Spot};
use crate::slots::Slot;
use std::alloc::Global;
use value_lists::NoMemory;

/// How many slots a row may have: one that grows past this is cut in two. An insert moves the slots behind it in
/// its row, so rows are short.
const MOST: usize = 128;

/// How many slots stay in a row that is cut in two.
const CUT_AT: usize = 64;

impl Chunks {
    /// Puts another slot at a seat.
    pub fn replace(&mut self, seat: Spot, slot: Slot)
        requires some { AreSome self.old }
        requires seat { IsSeat self.old seat }
        requires within { place self.old seat < length (flat self.old) }
        ensures slots { flat self.new ≡ slice_set (flat self.old) (place self.old seat) slot }
        ensures some { AreSome self.new }
    {
        self.rows[seat.row][seat.at] = slot;
    }

    /// Adds the first slot.
    fn begin(&mut self, alloc: Global, slot: Slot) -> Result<(), NoMemory>
        requires { length self.old.rows.items ≡ 0 }
        ensures ok { OnOk result (flat self.new ≡ slot ∷ []) }
        ensures err { OnErr result (flat self.new ≡ flat self.old) }
        ensures some { AreSome self.new }
    {
        let mut row = Vec::new(alloc);
        row.push(slot)?;
        self.rows.push(row)?;
        Ok(())
    }

    /// Adds a slot to a row.
    fn insert_in(&mut self, spot: Spot, slot: Slot) -> Result<(), NoMemory>
        requires some { AreSome self.old }
        requires row { spot.row < length self.old.rows.items }
        requires at { HoldsAt (λ r. spot.at ≤ length r.items) self.old.rows.items spot.row }
        ensures ok { OnOk result (flat self.new ≡ insert (flat self.old) (place self.old spot) slot) }
        ensures err { OnErr result (flat self.new ≡ flat self.old) }
        ensures some { AreSome self.new }
        ensures rows { length self.new.rows.items ≡ length self.old.rows.items }
    {
        self.rows[spot.row].insert(spot.at, slot)?;
        Ok(())
    }

    /// Cuts a row of more than `CUT_AT` slots in two, where there is memory for that.
    fn halve(&mut self, row: usize)
        requires some { AreSome self.old }
        requires row { row < length self.old.rows.items }
        requires long { HoldsAt (λ r. 64 < length r.items) self.old.rows.items row }
        ensures slots { flat self.new ≡ flat self.old }
        ensures some { AreSome self.new }
    {
        let Ok(()) = self.rows.reserve(1) else {
            return;
        };
        let Ok(tail) = self.rows[row].split_off(CUT_AT) else {
            return;
        };
        match self.rows.insert(row + 1, tail) {
            Ok(()) => {}
            Err(_) => unreachable!(),
        }
    }

    /// Adds a slot.
    pub fn insert(&mut self, alloc: Global, spot: Spot, slot: Slot) -> Result<(), NoMemory>
        requires some { AreSome self.old }
        requires spot { IsSpot self.old spot }
        requires lies { 0 < length self.old.rows.items → spot.row < length self.old.rows.items }
        ensures ok { OnOk result (flat self.new ≡ insert (flat self.old) (place self.old spot) slot) }
        ensures err { OnErr result (flat self.new ≡ flat self.old) }
        ensures some { AreSome self.new }
    {
        if self.rows.is_empty() {
            return self.begin(alloc, slot);
        }
        self.insert_in(spot, slot)?;
        if self.rows[spot.row].len() > MOST {
            self.halve(spot.row);
        }
        Ok(())
    }

    /// Adds a slot behind all, in a new row where the last one has this length.
    pub fn append(&mut self, alloc: Global, long: usize, slot: Slot) -> Result<(), NoMemory>
        requires { AreSome self.old }
        ensures ok { OnOk result (flat self.new ≡ flat self.old ++ slot ∷ []) }
        ensures some { AreSome self.new }
    {
        let rows = self.rows.len();
        if rows > 0 {
            let row = rows - 1;
            let at = self.rows[row].len();
            if at < long {
                return self.insert_in(Spot { row, at }, slot);
            }
        }
        let mut row = Vec::new(alloc);
        row.push(slot)?;
        self.rows.push(row)?;
        Ok(())
    }
}
