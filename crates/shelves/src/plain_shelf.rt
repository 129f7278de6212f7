ghost use Rattle.std.specs.Prelude.{◌≡◌, ◌==◌, ◌<◌, [], drop, length, OnOk};
ghost use Rattle.std.specs.VecDeque.{deque_len};
ghost use Rattle.shelves.specs.Plain.{ShowsPart};

use crate::shelf::Shelf;
use lane_views::LaneView;
use std::alloc::Global;
use std::collections::VecDeque;
use std::marker::Model;
use std::snapshot::Snapshot;
use value_lists::NoMemory;
use view_changes::LaneChange;

/// A view for one reader, and the changes that it doesn't show yet. An append takes constant time but for moves as the
/// list of these grows; a publication takes what each change takes in the view.
#[derive(Drop)]
pub struct PlainShelf {
    view: LaneView,
    /// What it showed at first.
    opening: Snapshot<LaneView>,
    pending: VecDeque<LaneChange>,
    alloc: Global,
}

impl Model for PlainShelf {
    ghost use Rattle.shelves.specs.Plain.{Plain, plain_code};

    ghost Value = { Plain };

    ghost coded = { plain_code };

    ghost view = { λ s. record { opening = s.opening.value; view = s.view; pending = s.pending.items } };
}

/// The first change is dropped, where there is one.
fn drop_first(changes: &mut VecDeque<LaneChange>)
    ensures rest { changes.new.items ≡ drop 1 changes.old.items }
    ensures less { 0 < deque_len changes.old → deque_len changes.new < deque_len changes.old }
{
    changes.pop_front();
}

/// A view takes changes in, first to last, and each that it has leaves the list. `NoMemory` comes at the change that is
/// then the first of the list.
fn show_all(
    alloc: Global,
    view: &mut LaneView,
    pending: &mut VecDeque<LaneChange>,
) -> Result<(), NoMemory>
    ensures shown { ShowsPart view.old view.new pending.old.items pending.new.items }
    ensures all { OnOk result (pending.new.items ≡ []) }
{
    while let Some(change) = pending.front() {
        view.change(alloc, change)?;
        drop_first(pending);
    }
    Ok(())
}

impl PlainShelf {
    /// A shelf that shows a view, after no change, and has no change pending.
    pub fn new(alloc: Global, view: LaneView) -> PlainShelf
        ensures { result ≡ record { opening = view; view = view; pending = [] } }
    {
        PlainShelf {
            opening: Snapshot::of(&view),
            view,
            pending: VecDeque::new(alloc),
            alloc,
        }
    }

    /// Whether no change is pending.
    pub fn shows_all(&self) -> bool
        ensures { result ≡ (length self.now.pending == 0) }
    {
        self.pending.is_empty()
    }

    /// What it shows: the opening view after the shown changes.
    pub fn view(&self) -> &LaneView
        ensures { result.now ≡ self.now.view }
    {
        &self.view
    }
}

impl Shelf for PlainShelf {
    ghost use Rattle.shelves.specs.Plain.{ShowsPlain};

    type Note = ();

    /// The view that it showed at first says which shelf it is.
    type Name = LaneView;

    ghost name = { λ s. s.opening };

    ghost pending = { λ s. s.pending };

    ghost shows = { ShowsPlain };

    ghost notes = { λ _ _. Unit {0} };

    ghost tells = { λ _ _ _. Unit {0} };

    fn append(&mut self, change: LaneChange) -> Result<(), LaneChange> {
        match self.pending.push_back(change) {
            Ok(()) => Ok(()),
            Err(failed) => Err(failed.value),
        }
    }

    fn publish(&mut self) -> Result<(), NoMemory> {
        show_all(self.alloc, &mut self.view, &mut self.pending)
    }

    fn tell(&mut self) {}
}
