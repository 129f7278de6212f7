//! Lines that go on by calls.

ghost use Rattle.std.specs.Prelude.{◌≡◌, ℕ};
ghost use Rattle.line_feeders.specs.Calls.{Call, Begins, Advances, Closes};
ghost use Rattle.line_feeders.specs.declared.turns.Went.{Went};

/// What became of a line at a call.
#[derive(Clone, Copy, PartialEq, Eq)]
pub enum Went {
    /// It goes on with the next call.
    On,
    /// Another line stands against it; nothing has changed.
    Waits,
    /// It is to be closed.
    Ends,
    /// It has its outcome.
    Over,
    /// The call isn't for it, or memory is wanted where it would begin; nothing has changed.
    Left,
}

/// A group of lines that go on by calls, each for the line at a place.
pub trait LineTurns {
    /// Which of the groups it is.
    ghost number: { Self → ℕ };

    /// What a call for the line at a place makes of the group, and answers.
    ghost does: { Call → ℕ → Self → Self → Went → Type 0 };

    fn number(&self) -> u8
        ensures { result ≡ number self.now };

    /// Begins the line at a place.
    fn begin(&mut self, place: usize) -> Went
        ensures { does Begins place self.old self.new result };

    /// Lets the line at a place go on.
    fn advance(&mut self, place: usize) -> Went
        ensures { does Advances place self.old self.new result };

    /// Closes the line at a place, which then has its outcome.
    fn close(&mut self, place: usize) -> Went
        ensures { does Closes place self.old self.new result };
}
