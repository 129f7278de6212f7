//! What feeders call of a slot.

ghost use Rattle.std.specs.Prelude.{◌≡◌};
ghost use Rattle.lane_locks.specs.Feeding.{went_of};

use crate::names::Segment;
use crate::slot::{Slot, Turn};
use carriers::Carrier;
use line_feeders::{LineTurns, Went};
use shelves::Shelf;

/// What a feeder is told of a turn.
fn went(turn: Turn) -> Went
    ensures { result ≡ went_of turn }
{
    match turn {
        Turn::On => Went::On,
        Turn::Waits { .. } => Went::Waits,
        Turn::Ends => Went::Ends,
        Turn::Over => Went::Over,
        Turn::Left | Turn::NoMemory => Went::Left,
    }
}

impl<S: Segment<H::Name>, C: Carrier + Drop, H: Shelf + Drop> LineTurns for Slot<S, C, H> {
    ghost use Rattle.lane_locks.specs.Feeding.{TellsTurn};

    ghost number = { λ s. s.number };

    ghost does = { λ call place old new told. TellsTurn S.feeders S.lines call place old new told };

    fn number(&self) -> u8 {
        Slot::number(self)
    }

    fn begin(&mut self, place: usize) -> Went {
        went(Slot::begin(self, place))
    }

    fn advance(&mut self, place: usize) -> Went {
        went(Slot::advance(self, place))
    }

    /// Closes the line, and settles the lane; what isn't shown for want of memory is kept.
    fn close(&mut self, place: usize) -> Went {
        let turn = Slot::close(self, place);
        let _settled = self.settle();
        went(turn)
    }
}
