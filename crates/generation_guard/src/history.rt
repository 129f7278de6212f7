//! The history of the changes of one shelf. It is there for proofs alone: what is kept of it is its length.

ghost use Rattle.std.specs.Prelude.{◌≡◌, ◌≤◌, ◌++◌, ◌∷◌, ◌⊎◌, ◌↔◌, [], length, IsTrue, MatchBool};
ghost use Rattle.std.specs.Bool.{OnTrue};
ghost use mathlib.Core.List.{IsPrefix};

use logbook::{Gain, Offer, Plain, Play, Rule, Seen, Start, Word};
use std::marker::Model;
use view_changes::LaneChange;

/// The word is the length of the history.
pub struct Law;

impl Rule<LaneChange, u64> for Law {
    ghost use Rattle.std.specs.Prelude.{[]};
    ghost use base.Fml.{ftrue};
    ghost use Rattle.generation_guard.specs.Histories.{IsKept};

    ghost holds = { IsKept };

    ghost first = { [] };

    ghost hinted = { λ _ _. Unit {0} };

    ghost shows = { λ _. [] };

    ghost keeps = { λ _ _. ftrue };

    ghost moves = { λ _ _ _ _. Unit {0} };
}

/// Callers trade nothing.
pub struct Nothing;

impl Gain<LaneChange, u64> for Nothing {
    ghost use base.Fml.{ftrue};

    ghost after = { λ _ _ _. ftrue };
}

/// A step that adds a change.
pub struct Add;

impl Play<LaneChange, u64> for Add {
    ghost use Rattle.generation_guard.specs.Histories.{Adds};

    ghost then = { Adds };
}

impl Plain<LaneChange, LaneChange, u64> for Add {
    ghost use Rattle.std.specs.Prelude.{None};

    ghost ask = { λ change. change };

    ghost state = { λ _. None };
}

/// The history as it grows.
pub type Head = Word<LaneChange, u64, Law>;

/// A beginning of a history that was reached. Copies take no memory.
#[derive(Drop)]
pub struct Front {
    len: u64,
    seen: Seen<LaneChange, u64, Law>,
}

impl Model for Front {
    ghost use Rattle.std.specs.Prelude.{◌≡◌, length};
    ghost use Rattle.generation_guard.specs.Histories.{Beginning, beginning_code, head_of};

    ghost Value = { Beginning };

    ghost coded = { beginning_code };

    ghost view = { λ f. record { history = head_of f.seen.book; changes = f.seen.log } };

    ghost invariant = { λ f. f.len ≡ length f.seen.log };
}

/// What a shelf tells a seat: the front that it shows.
pub type Note = Front;

/// A new history.
pub fn open() -> (Head, Front)
    ensures head { result.0 ≡ result.1.history }
    ensures none { result.1.changes ≡ [] }
{
    let (seen, mut pen, _) = Seen::open(Start::alone(), 0, 0);
    let head = Word::tracked(0, &mut pen);
    (head, Front { len: 0, seen })
}

impl Front {
    /// How many changes it has.
    pub fn len(&self) -> u64
        ensures { result ≡ length self.now.changes }
    {
        self.len
    }

    /// The same front.
    pub fn again(&self) -> Front
        ensures { result ≡ self.now }
    {
        Front {
            len: self.len,
            seen: self.seen.again(),
        }
    }

    /// Whether another front of this history has as many changes: it begins with these then.
    pub fn is_within(&self, other: &Front) -> bool
        requires { self.now.history ≡ other.now.history }
        ensures within { OnTrue result (IsPrefix self.now.changes other.now.changes) }
        ensures value { IsTrue result ↔ (length self.now.changes ≤ length other.now.changes) }
    {
        let mut both = self.seen.again();
        both.learn(&other.seen);
        self.len <= other.len
    }

    /// The longer of two fronts of one history.
    pub fn longer(&self, other: Front) -> Front
        requires { self.now.history ≡ other.history }
        ensures one { (result ≡ self.now) ⊎ (result ≡ other) }
        ensures this { IsPrefix self.now.changes result.changes }
        ensures that { IsPrefix other.changes result.changes }
    {
        if self.is_within(&other) {
            other
        } else {
            other.is_within(self);
            self.again()
        }
    }
}

/// Adds a change to a history, where it has no more than this front; the front has it then.
pub fn extend(head: &Head, front: &mut Front, change: &LaneChange) -> bool
    requires { head.now ≡ front.old.history }
    ensures history { front.new.history ≡ front.old.history }
    ensures changes { MatchBool result (front.new.changes ≡ front.old.changes ++ change.now ∷ []) (front.new ≡ front.old) }
{
    let len = front.len;
    if len == u64::MAX {
        return false;
    }
    let mut seen = front.seen.again();
    let mut offer: Offer<LaneChange, u64, Law, Nothing> = seen.plain::<Nothing, LaneChange, Add>(
        change,
    );
    let mut pen = seen.no_pen();
    let found = head.compare_exchange::<Add, Nothing>(
        len,
        len + 1,
        &mut seen,
        &mut offer,
        &mut pen,
    );
    if found != len {
        return false;
    }
    *front = Front { len: len + 1, seen };
    true
}
