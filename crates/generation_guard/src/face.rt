//! What readers take: a view, and the front that it shows.

ghost use Rattle.std.specs.Prelude.{◌≡◌};

use crate::history::{Front, Head};
use lane_views::LaneView;
use left_right::Absorb;
use std::alloc::{AllocError, Global};
use view_changes::LaneChange;

/// Which shelf it is: what its view is after no change, and its history. No value of it is made.
pub struct ShelfId {
    pub opening: LaneView,
    pub history: Head,
}

#[derive(Drop)]
pub struct Face {
    pub view: LaneView,
    pub front: Front,
    pub alloc: Global,
}

/// What is done to a face.
#[derive(Drop)]
pub enum FaceStep {
    /// The view takes a change in.
    Change(LaneChange),
    /// The view has all changes up to this front.
    Reach(Front),
}

impl Absorb<FaceStep> for Face {
    ghost use Rattle.generation_guard.specs.Faces.{shown_by, stepped};

    type State = (LaneView, Front);

    ghost state = { shown_by };

    ghost applied = { stepped };

    fn absorb_first(&mut self, step: &FaceStep, _other: &Face) -> Result<(), AllocError> {
        match step {
            FaceStep::Change(change) => match self.view.change(self.alloc, change) {
                Ok(()) => Ok(()),
                Err(_) => Err(AllocError),
            },
            FaceStep::Reach(front) => {
                self.front = front.again();
                Ok(())
            }
        }
    }
}
