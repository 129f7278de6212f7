ghost use Rattle.std.specs.Prelude.{◌≡◌, ◌++◌, ◌≤◌, ◌^◌, ℕ, List, IfOk, OnOk, OnErr, IfSome, Some, true, option_map};
ghost use Rattle.std.specs.List.{All};
ghost use Rattle.std.specs.FinMap as fin;
ghost use Rattle.entry_rows.specs.Chunks.{AreRows, flat_of, flat_before, flat_behind};
ghost use Rattle.entry_maps.specs.Entries.{newer_of};
ghost use Rattle.entry_maps.specs.Merging.{newer_slot, merged, next_of, IsAsNew, HasAsNew};
ghost use Rattle.entry_maps.specs.Slots.{IsCounted, IsStored, slots_in, entries_of};

use crate::stored::Stored;
use entry_rows::rows::Rows;
use entry_rows::slots::Slot;
use std::alloc::Global;
use std::cmp::Ordering;
use value_lists::{NoMemory, TryCopy};

/// How many slots a merge lays in a row, so that some more find room there before it is cut.
const LAID: usize = 96;

/// The slot that a merge takes next, and whether it goes on in its own list and in the other one.
#[derive(Clone, Copy)]
struct Taken<'a> {
    slot: &'a Slot,
    own: bool,
    other: bool,
}

/// The newer of two slots of a document; of equal stamps the first.
fn newer_slot<'a>(one: &'a Slot, two: &'a Slot) -> &'a Slot
    ensures { result.now ≡ newer_slot one.now two.now }
{
    if one.entry.entry().stamp.is_before(two.entry.entry().stamp) {
        two
    } else {
        one
    }
}

/// Which of two slots a merge takes next.
fn lower_of<'a>(one: &'a Slot, two: &'a Slot) -> Taken<'a>
    ensures { Some (result.slot.now, (result.own, result.other)) ≡ next_of (Some one.now) (Some two.now) }
{
    match one.order(two.path, two.entry.entry().id.text()) {
        Ordering::Less => Taken {
            slot: one,
            own: true,
            other: false,
        },
        Ordering::Equal => Taken {
            slot: newer_slot(one, two),
            own: true,
            other: true,
        },
        Ordering::Greater => Taken {
            slot: two,
            own: false,
            other: true,
        },
    }
}

/// Which of the next slots of two lists a merge takes.
fn next_of<'a>(one: Option<&'a Slot>, two: Option<&'a Slot>) -> Option<Taken<'a>>
    ensures { option_map (λ taken. (taken.slot.now, (taken.own, taken.other))) result
        ≡ next_of (option_map (λ s. s.now) one.entry) (option_map (λ s. s.now) two.entry) }
{
    match (one, two) {
        (Some(one), Some(two)) => Some(lower_of(one, two)),
        (Some(slot), None) => Some(Taken {
            slot,
            own: true,
            other: false,
        }),
        (None, Some(slot)) => Some(Taken {
            slot,
            own: false,
            other: true,
        }),
        (None, None) => None,
    }
}

/// Whether an own slot is of the same document as another map's one, which is not newer; none where the other one
/// is newer or stands below.
fn passes(own: &Slot, theirs: &Slot) -> Option<bool>
    ensures { IfSome result (λ same. same ≡ true → IsAsNew own.now theirs.now) }
{
    let one = own.entry.entry();
    let two = theirs.entry.entry();
    match own.order(theirs.path, two.id.text()) {
        Ordering::Less => Some(false),
        Ordering::Equal if !one.stamp.is_before(two.stamp) => Some(true),
        _ => None,
    }
}

/// How many slots a row gets where so many are laid in rows that are about as long as each other.
fn row_length(slots: usize) -> usize
    requires { slots ≤ 2 ^ 63 }
{
    let rows = slots / LAID + 1;
    slots / rows + 1
}

impl Stored {
    /// The entries of both maps, of each document the newer.
    fn merged(&self, alloc: Global, other: &Stored) -> Result<Stored, NoMemory>
        requires own { IsCounted self.now }
        requires other { IsCounted other.now }
        ensures slots { IfOk result (λ both. slots_in both ≡ merged (slots_in self.now) (slots_in other.now)) }
        ensures counted { IfOk result IsCounted }
    {
        if self.entries == 0 {
            return other.shared(alloc);
        }
        let long = row_length(self.entries + other.entries);
        let mut both = Stored::new(alloc);
        let mut one = self.list.first();
        let mut two = other.list.first();
        while let Some(taken) = next_of(self.list.slot(one), other.list.slot(two)) {
            both.append(alloc, long, taken.slot.copy(alloc)?)?;
            one = self.list.next_if(one, taken.own);
            two = other.list.next_if(two, taken.other);
        }
        Ok(both)
    }

    /// Puts other slots in the place of those of some rows.
    fn replace_rows(&mut self, rows: Rows, part: &Stored, others: Stored) -> Result<(), NoMemory>
        requires counted { IsCounted self.old }
        requires rows { AreRows self.old.list rows }
        requires part { slots_in part.now ≡ flat_of self.old.list rows }
        requires part_counted { IsCounted part.now }
        requires others { IsCounted others }
        ensures ok { OnOk result (slots_in self.new ≡ flat_before self.old.list rows.from
            ++ (slots_in others ++ flat_behind self.old.list rows.to)) }
        ensures err { OnErr result (slots_in self.new ≡ slots_in self.old) }
        ensures counted { IsCounted self.new }
    {
        let Stored {
            list,
            entries,
            documents,
        } = others;
        let entries = self.entries - part.entries + entries;
        let documents = self.documents - part.documents + documents;
        if entries > 1 << 62 {
            return Err(NoMemory);
        }
        self.list.replace_rows(rows, list)?;
        self.entries = entries;
        self.documents = documents;
        Ok(())
    }

    /// Whether each entry of another map, whose first slot is lent, is here with the same or a greater stamp, so
    /// that a merge changes nothing. Both lists are walked side by side, to the first entry that is newer.
    pub fn has_as_new(&self, other: &Stored, first: &Slot) -> bool
        requires own { IsStored self.now }
        requires other { IsStored other.now }
        ensures { result ≡ true → All (HasAsNew (slots_in self.now)) (slots_in other.now) }
    {
        let from = self
            .list
            .first_from(first.path, first.entry.entry().id.text());
        let mut one = self.list.settled(from);
        let mut two = other.list.first();
        while let Some(theirs) = other.list.slot(two) {
            let Some(own) = self.list.slot(one) else {
                return false;
            };
            let Some(same) = passes(own, theirs) else {
                return false;
            };
            one = self.list.next(one);
            two = other.list.next_if(two, same);
        }
        true
    }

    /// Takes the entries of another map that are newer; rows that lie apart from the other map's entries stay
    /// as they are, and all where no entry is newer.
    pub fn merge(&mut self, alloc: Global, other: &Stored) -> Result<(), NoMemory>
        requires stored { IsStored self.old }
        requires other { IsStored other.now }
        ensures ok { OnOk result ((id : List ℕ) → fin.get (entries_of (slots_in self.new)) id
            ≡ newer_of (fin.get (entries_of (slots_in self.old)) id)
            (fin.get (entries_of (slots_in other.now)) id)) }
        ensures err { OnErr result (entries_of (slots_in self.new) ≡ entries_of (slots_in self.old)) }
        ensures stored { IsStored self.new }
    {
        let Some(first) = other.list.slot(other.list.first()) else {
            return Ok(());
        };
        if self.has_as_new(other, first) {
            return Ok(());
        }
        let rows = self.list.rows_about(first, other.list.last());
        let part = self.rows_copied(alloc, rows)?;
        let both = part.merged(alloc, other)?;
        self.replace_rows(rows, &part, both)?;
        Ok(())
    }
}
