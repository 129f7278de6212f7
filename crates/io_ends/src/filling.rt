ghost use Rattle.std.specs.Prelude.{◌≡◌, ℕ, ◌+◌, ◌^◌, ◌<◌, ◌≤◌, List, length};
ghost use Rattle.io_ends.specs.Causes.{HasRisen};
ghost use Rattle.io_ends.specs.Filling.{HoldsIn, IsLong, Finds, Passes};
ghost use Rattle.io_ends.specs.Reading.{IsNearEnd};
ghost use Rattle.io_ends.specs.declared.sizes.TheConstants.{PIECE};

use crate::ends::Source;
use crate::fetching::FetchError;
use crate::sizes::LONGEST;
use crate::window::Window;

/// What ended the search for the end of a line.
#[derive(Clone, Copy, PartialEq, Eq)]
pub enum LineEnd {
    /// A line feed, this far ahead.
    Feed { at: usize },
    /// More bytes than the line may have.
    Past,
    /// The end of the input; the line is what lies ahead.
    Input,
    /// The source failed.
    Fault,
    /// Want of memory.
    Memory,
}

/// Reads on until the end of the line is known; of a line that is too long nothing is kept. `room`
/// is how many bytes the line may have, those passed over among them.
pub fn find_end<S: Source>(window: &mut Window, source: &mut S, room: u64) -> LineEnd
    requires room { window.old.passed ≤ room }
    requires long { IsLong window.old }
    requires near { IsNearEnd PIECE window.old.ahead }
    ensures found { Finds window.new room (S.left source.new) result }
    ensures kept { (bytes : List ℕ) → HoldsIn bytes window.old (S.left source.old)
        → HoldsIn bytes window.new (S.left source.new) }
    ensures room { window.new.passed ≤ room }
    ensures long { IsLong window.new }
    ensures near { IsNearEnd PIECE window.new.ahead }
    ensures last { IsNearEnd (S.gave source.old) window.old.ahead → IsNearEnd (S.gave source.new) window.new.ahead }
    ensures count { S.faults source.old ≤ S.faults source.new }
    ensures fault { result ≡ LineEnd.Fault → HasRisen S.last (S.faults source.old) (S.faults source.new) }
{
    let mut seen = 0;
    loop {
        if let Some(at) = window.feed_after(seen) {
            return LineEnd::Feed { at };
        }
        let size = window.ahead().len();
        if size as u64 > room - window.passed() {
            return LineEnd::Past;
        }
        seen = pass_long(window, size);
        match window.fetch(source) {
            Ok(0) => return LineEnd::Input,
            Ok(_) => {}
            Err(FetchError::Fault) => return LineEnd::Fault,
            Err(FetchError::Memory) => return LineEnd::Memory,
        }
    }
}

/// Passes over what lies ahead where that is longer than a line that is handed out, and answers how
/// many bytes lie ahead then.
fn pass_long(window: &mut Window, size: usize) -> usize
    requires size { length window.old.ahead ≡ size }
    requires fits { window.old.passed + size < 2 ^ 64 }
    ensures { Passes window.old window.new size result }
{
    if size > LONGEST {
        window.pass_over();
        0
    } else {
        size
    }
}
