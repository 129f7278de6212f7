use crate::shelf::Shelf;
use value_lists::NoMemory;
use view_changes::LaneChange;

/// Shows nothing to anybody, so every list of changes counts as shown.
#[derive(Drop)]
pub struct NoShelf;

impl Shelf for NoShelf {
    ghost use Rattle.std.specs.Prelude.{[]};

    type Note = ();

    type Name = ();

    ghost name = { λ _. tt };

    ghost pending = { λ _. [] };

    ghost shows = { λ _ _. Unit {0} };

    ghost notes = { λ _ _. Unit {0} };

    ghost tells = { λ _ _ _. Unit {0} };

    fn append(&mut self, _change: LaneChange) -> Result<(), LaneChange> {
        Ok(())
    }

    fn publish(&mut self) -> Result<(), NoMemory> {
        Ok(())
    }

    fn tell(&mut self) {}
}
