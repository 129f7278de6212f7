//! The names of a segment.

use lane_views::LaneView;
use std::marker::Brand;
use std::sync::ledger::Ledger;

/// What a segment begins with; its shelves are named by values of `N`. Each run of a program picks it.
pub trait Segment<N>: Ledger {
    ghost use Rattle.std.specs.Prelude.{ℕ};
    ghost use Rattle.lane_calls.specs.LaneValues.{LaneValue};
    ghost use Rattle.lane_calls.specs.Lines.{Lines};

    /// How each lane was.
    ghost began: { ℕ → LaneValue };

    /// The lines of each lane, in order.
    ghost lines: { ℕ → Lines };

    /// How many feeders run them.
    ghost feeders: { ℕ };

    /// The shelf of each lane.
    ghost shelf: { ℕ → N };
}

/// The shelf of a lane is named by the view that it showed at first.
impl Segment<LaneView> for Brand {
    ghost use Rattle.std.specs.Prelude.{[]};
    ghost use Rattle.lane_locks.specs.Slots.{nothing, no_view};

    ghost began = { λ _. nothing };

    ghost lines = { λ _. [] };

    ghost feeders = { 1 };

    ghost shelf = { λ _. no_view };
}
