//! Readers of a shelf.

ghost use Rattle.std.specs.Prelude.{◌≡◌, length, MatchResult};
ghost use mathlib.Core.List.{IsPrefix};
ghost use Rattle.view_changes.specs.Views.{view_after};
ghost use Rattle.generation_guard.specs.Seats.{IsOfShelf, front_of};
ghost use Rattle.generation_guard.specs.Known.{SeesNoLess};

use crate::face::Face;
use crate::history::{Front, Note};
use crate::rule::{OneShelf, Tag, Takes};
use lane_views::LaneView;
use left_right::reader::{Reader, Reading};
use std::marker::Model;

/// A place of one reader, and the changes that it has seen or learnt.
#[derive(Drop)]
pub struct Seat {
    pub(crate) reader: Reader<Face, Tag, OneShelf>,
    pub(crate) front: Front,
}

impl Model for Seat {
    ghost use Rattle.generation_guard.specs.Known.{Known, known_code};
    ghost use Rattle.left_right.specs.Sides.{view as view_of};
    ghost use Rattle.std.specs.Prelude.{◌≡◌};
    ghost use Rattle.generation_guard.specs.Seats.{IsKnown};

    ghost Value = { Known };

    ghost coded = { known_code };

    ghost view = { λ s. record { shelf = (view_of s.reader.place).shelf; seen = s.front.changes } };

    ghost invariant = { λ s. IsKnown (view_of s.reader.place) × (s.front.history ≡ (view_of s.reader.place).shelf.history) };
}

/// A reader who reads, and the changes that it sees. It ends by `leave`.
pub struct Guard {
    reading: Reading<Face, Tag, OneShelf>,
    front: Front,
}

impl Model for Guard {
    ghost use Rattle.generation_guard.specs.Known.{Known, known_code};
    ghost use Rattle.left_right.specs.Sides.{view as view_of};
    ghost use Rattle.std.specs.Prelude.{◌≡◌};
    ghost use Rattle.view_changes.specs.Views.{view_after};
    ghost use Rattle.generation_guard.specs.Seats.{IsKnown};

    ghost Value = { Known };

    ghost coded = { known_code };

    ghost view = { λ g. record { shelf = (view_of g.reading.place).shelf; seen = g.front.changes } };

    ghost invariant = { λ g. IsKnown (view_of g.reading.place) × (g.front.history ≡ (view_of g.reading.place).shelf.history)
        × (g.reading.part.value.view ≡ view_after (view_of g.reading.place).shelf.opening g.front.changes) };
}

impl Seat {
    /// Takes what is shown, which is no less than it saw or learnt. Where it isn't let in the seat comes back as it was.
    /// Takes no memory, and waits for nobody.
    pub fn enter(self) -> Result<Guard, Seat>
        ensures { MatchResult result (λ guard. SeesNoLess self guard) (λ seat. seat ≡ self) }
    {
        let Seat { reader, front } = self;
        match reader.enter_as::<Takes>() {
            Err(reader) => Err(Seat { reader, front }),
            Ok(reading) => {
                let now = reading.get().front.again();
                if front.is_within(&now) {
                    Ok(Guard {
                        reading,
                        front: now,
                    })
                } else {
                    Err(Seat {
                        reader: reading.leave(),
                        front,
                    })
                }
            }
        }
    }

    /// Learns what a note of its shelf tells: its later views have at least those changes.
    pub fn learn(&mut self, note: Note)
        requires { IsOfShelf self.old.shelf note }
        ensures keeps { SeesNoLess self.old self.new }
        ensures told { IsPrefix note.changes self.new.seen }
    {
        self.front = self.front.longer(note);
    }
}

impl Guard {
    /// The opening view after the changes that it sees: the same as long as the guard stands.
    pub fn view(&self) -> &LaneView
        ensures { result.now ≡ view_after self.now.shelf.opening self.now.seen }
    {
        &self.reading.get().view
    }

    /// How many changes it sees.
    pub fn generation(&self) -> u64
        ensures { result ≡ length self.now.seen }
    {
        self.front.len()
    }

    /// What it sees, as a front that outlives it.
    pub fn front(&self) -> Front
        ensures { result ≡ front_of self.now.shelf self.now.seen }
    {
        self.front.again()
    }

    /// The seat, which keeps what it saw.
    pub fn leave(self) -> Seat
        ensures { result ≡ self }
    {
        let Guard { reading, front } = self;
        Seat {
            reader: reading.leave(),
            front,
        }
    }
}
