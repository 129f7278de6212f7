//! A shelf that many readers read with no lock.

ghost use Rattle.std.specs.Prelude.{◌≡◌, ◌++◌, ◌∷◌, [], drop, MatchBool, MatchResult};
ghost use Rattle.std.specs.Bool.{OnTrue};
ghost use Rattle.left_right.specs.Sides.{view as view_of};
ghost use Rattle.generation_guard.specs.Faces.{changes_in};
ghost use Rattle.generation_guard.specs.Seats.{IsNamed, IsAhead};
ghost use Rattle.generation_guard.specs.declared.face.FaceStep.TheVariants.{Reach};

use crate::face::{Face, FaceStep, ShelfId};
use crate::history::{Front, Head, Note, extend};
use crate::rule::{Keeps, OneShelf, Tag};
use core::mem::replace_with;
use left_right::writer::Writer;
use shelves::Shelf;
use std::alloc::AllocError;
use std::collections::VecDeque;
use std::marker::Model;
use std::sync::Wait;
use value_lists::NoMemory;
use view_changes::LaneChange;

pub(crate) type Desk = Writer<Face, FaceStep, Tag, OneShelf>;

/// Two copies of a view, of which readers read one, and the changes that these don't show yet. A publication waits for
/// those that still read the other copy, and so does its end.
pub struct SharedShelf<R: Wait + Drop> {
    pub(crate) rt: R,
    pub(crate) writer: Writer<Face, FaceStep, Tag, OneShelf>,
    pub(crate) head: Head,
    /// All changes that were taken.
    pub(crate) front: Front,
    /// Those that the writer hasn't got yet.
    pub(crate) queue: VecDeque<LaneChange>,
}

impl<R: Wait + Drop> Model for SharedShelf<R> {
    ghost use Rattle.std.specs.Prelude.{◌≡◌, ◌++◌, drop};
    ghost use Rattle.left_right.specs.Sides.{view as view_of};
    ghost use Rattle.generation_guard.specs.Known.{Shared, shared_code};
    ghost use Rattle.generation_guard.specs.Faces.{changes_in};
    ghost use Rattle.generation_guard.specs.Seats.{IsNamed};

    ghost Value = { Shared };

    ghost coded = { shared_code };

    ghost view = { λ s. record {
      shelf = (view_of s.writer.desk.place).shelf;
      shown = s.writer.desk.shown.value.front.changes;
      pending = changes_in (drop s.writer.behind s.writer.log.items) ++ s.queue.items;
    } };

    ghost invariant = { λ s. IsNamed (view_of s.writer.desk.place) s.writer.desk.shown.value
        × (s.head ≡ (view_of s.writer.desk.place).shelf.history)
        × (s.front.history ≡ (view_of s.writer.desk.place).shelf.history)
        × (s.front.changes ≡ s.writer.desk.shown.value.front.changes ++ (changes_in (drop s.writer.behind s.writer.log.items) ++ s.queue.items)) };
}

impl<R: Wait + Drop> Drop for SharedShelf<R> {
    fn drop(self) {
        let SharedShelf {
            rt,
            writer,
            head: _,
            front: _,
            queue: _,
        } = self;
        writer.take(&rt);
    }
}

/// Hands a change to the writer, which hands it back where it has no memory for it.
fn hand(writer: &mut Desk, change: LaneChange) -> Result<(), LaneChange>
    ensures desk { writer.new.desk ≡ writer.old.desk }
    ensures pending { MatchResult result
        (λ _. changes_in (drop writer.new.behind writer.new.log.items) ≡ changes_in (drop writer.old.behind writer.old.log.items) ++ change ∷ [])
        (λ c. (c ≡ change) × (changes_in (drop writer.new.behind writer.new.log.items) ≡ changes_in (drop writer.old.behind writer.old.log.items))) }
{
    match writer.append(FaceStep::Change(change)) {
        Ok(()) => Ok(()),
        Err(FaceStep::Change(change)) => Err(change),
        Err(FaceStep::Reach(_)) => Ok(()),
    }
}

/// Hands changes to the writer, in order; whether it has them all.
fn hand_over(writer: &mut Desk, queue: &mut VecDeque<LaneChange>) -> bool
    ensures desk { writer.new.desk ≡ writer.old.desk }
    ensures same { changes_in (drop writer.new.behind writer.new.log.items) ++ queue.new.items
        ≡ changes_in (drop writer.old.behind writer.old.log.items) ++ queue.old.items }
    ensures all { OnTrue result (queue.new.items ≡ []) }
{
    while let Some(change) = queue.pop_front() {
        if let Err(change) = hand(writer, change) {
            queue.push_front_reserved(change);
            return false;
        }
    }
    true
}

/// The writer has all up to this front; not where it has no memory for that.
fn reach(writer: &mut Desk, front: &Front) -> bool
    ensures desk { writer.new.desk ≡ writer.old.desk }
    ensures steps { MatchBool result
        (drop writer.new.behind writer.new.log.items ≡ drop writer.old.behind writer.old.log.items ++ Reach front.now ∷ [])
        (drop writer.new.behind writer.new.log.items ≡ drop writer.old.behind writer.old.log.items) }
{
    match writer.append(FaceStep::Reach(front.again())) {
        Ok(()) => true,
        Err(_) => false,
    }
}

/// Shows what the writer has, up to this front.
fn show<R: Wait>(writer: Desk, with: (&R, &Front)) -> (Desk, Result<(), AllocError>)
    requires named { IsNamed (view_of writer.desk.place) writer.desk.shown.value }
    requires ahead { IsAhead (view_of writer.desk.place).shelf writer.desk.shown.value (drop writer.behind writer.log.items) with.1.now }
    ensures named { IsNamed (view_of result.0.desk.place) result.0.desk.shown.value }
    ensures shelf { (view_of result.0.desk.place).shelf ≡ (view_of writer.desk.place).shelf }
    ensures shown { MatchResult result.1
        (λ _. (result.0.desk.shown.value.front.changes ≡ with.entry.1.now.changes) × (changes_in (drop result.0.behind result.0.log.items) ≡ []))
        (λ _. (result.0.desk.shown.value.front.changes ≡ writer.desk.shown.value.front.changes) × (changes_in (drop result.0.behind result.0.log.items) ≡ changes_in (drop writer.behind writer.log.items))) }
{
    let mut writer = writer;
    if !reach(&mut writer, with.1) {
        return (writer, Err(AllocError));
    }
    writer.publish_as::<Keeps, R>(with.0)
}

impl<R: Wait + Drop> Shelf for SharedShelf<R> {
    ghost use Rattle.generation_guard.specs.Seats.{Tells, IsOfShelf};

    type Note = Note;

    type Name = ShelfId;

    ghost name = { λ s. s.shelf };

    ghost pending = { λ s. s.pending };

    ghost shows = { λ s cs. cs ≡ s.shown };

    ghost notes = { IsOfShelf };

    ghost tells = { Tells };

    fn append(&mut self, change: LaneChange) -> Result<(), LaneChange> {
        if self.queue.reserve(1).is_err() {
            return Err(change);
        }
        if !extend(&self.head, &mut self.front, &change) {
            return Err(change);
        }
        self.queue.push_back_reserved(change);
        Ok(())
    }

    fn publish(&mut self) -> Result<(), NoMemory> {
        if !hand_over(&mut self.writer, &mut self.queue) {
            return Err(NoMemory);
        }
        replace_with(&mut self.writer, (&self.rt, &self.front), show)?;
        Ok(())
    }

    fn tell(&mut self) -> Note {
        self.writer.published().front.again()
    }
}
