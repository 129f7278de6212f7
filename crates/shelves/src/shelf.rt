ghost use Rattle.std.specs.Prelude.{◌≡◌, List, [], ◌∷◌, ◌++◌, IfErr, OnOk, OnErr};
ghost use Rattle.view_changes.specs.declared.change.LaneChange.{LaneChange};
ghost use Rattle.shelves.specs.Shelves.{ShowsSame, ShowsFirst};

use value_lists::NoMemory;
use view_changes::LaneChange;

/// Takes changes in, and shows them.
pub trait Shelf {
    /// What tells a reader which changes are shown.
    type Note: Drop;

    /// Which shelf it is; no value of it is made.
    type Name;

    ghost name: { Self → Self.Name };

    /// The changes that were taken in and aren't shown, in order.
    ghost pending: { Self → List LaneChange };

    /// Whether a list of changes is what is shown.
    ghost shows: { Self → List LaneChange → Type 0 };

    /// Whether a note is of the shelf of a name.
    ghost notes: { Self.Name → Self.Note → Type 0 };

    /// Whether a note of the shelf of a name tells of a list of changes.
    ghost tells: { Self.Name → Self.Note → List LaneChange → Type 0 };

    /// Takes a change in, behind those that are pending, and shows nothing. Want of memory hands the change back and
    /// changes nothing.
    fn append(&mut self, change: LaneChange) -> Result<(), LaneChange>
        // It is pending, behind the others; where nobody is shown anything, it is shown.
        ensures taken { OnOk result (ShowsFirst (shows self.old) (shows self.new)
            (pending self.old ++ change ∷ []) (pending self.new)) }
        ensures shown { ShowsSame (shows self.old) (shows self.new) }
        ensures back { IfErr result (λ c. c ≡ change) }
        ensures unchanged { OnErr result (pending self.new ≡ pending self.old) }
        ensures name { name self.new ≡ name self.old };

    /// Shows the pending changes, in order. At want of memory the first of them are shown, perhaps none, and the rest
    /// is pending still.
    fn publish(&mut self) -> Result<(), NoMemory>
        ensures shown { ShowsFirst (shows self.old) (shows self.new) (pending self.old) (pending self.new) }
        ensures all { OnOk result (pending self.new ≡ []) }
        ensures name { name self.new ≡ name self.old };

    /// A note of this shelf that tells of the changes that are shown.
    fn tell(&mut self) -> Self::Note
        ensures note { notes (name self.old) result }
        ensures told { (cs : List LaneChange) → shows self.old cs → tells (name self.old) result cs }
        ensures shown { ShowsSame (shows self.old) (shows self.new) }
        ensures pending { pending self.new ≡ pending self.old }
        ensures name { name self.new ≡ name self.old };
}
