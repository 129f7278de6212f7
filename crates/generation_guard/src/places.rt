//! How a shelf and its seats are made.

ghost use Rattle.std.specs.Prelude.{◌≡◌, ◌<◌, [], drop, All, IfOk, IfSome};
ghost use Rattle.left_right.specs.Sides.{view as view_of};
ghost use Rattle.generation_guard.specs.Faces.{shown_by};
ghost use Rattle.generation_guard.specs.Seats.{IsNamed, IsOfShelf};
ghost use Rattle.generation_guard.specs.Known.{IsFresh};

use crate::face::Face;
use crate::history::{Front, open};
use crate::rule::{Copies, Names};
use crate::seat::Seat;
use crate::shared_shelf::{Desk, SharedShelf};
use lane_views::LaneView;
use left_right::writer::Writer;
use std::alloc::{AllocError, Global};
use std::collections::VecDeque;
use std::marker::Model;
use std::snapshot::Snapshot;
use std::sync::Wait;
use value_lists::{NoMemory, TryCopy};

/// The seats of a shelf that nobody has yet.
#[derive(Drop)]
pub struct Places {
    seats: Vec<Seat>,
    front: Front,
    opening: Snapshot<LaneView>,
}

impl Model for Places {
    ghost use Rattle.generation_guard.specs.declared.face.ShelfId.{ShelfId};
    ghost use Rattle.generation_guard.specs.contracts.face.ShelfId as shelf_id;

    ghost Value = { ShelfId };

    ghost coded = { shelf_id.the_row.coded };

    ghost use Rattle.std.specs.Prelude.{All};
    ghost use Rattle.generation_guard.specs.Known.{IsFresh};

    ghost view = { λ p. record { opening = p.opening.value; history = p.front.history } };

    ghost invariant = { λ p. All (λ s. IsFresh (record { opening = p.opening.value; history = p.front.history }) s) p.seats.items };
}

impl Places {
    /// A seat that has seen the opening view alone; none where no place of a reader is left. No clause ties the `None`.
    pub fn seat(&mut self) -> Option<Seat>
        ensures same { self.new ≡ self.old }
        ensures seat { IfSome result (λ seat. IsFresh self.old seat) }
    {
        self.seats.pop()
    }
}

/// A seat that has seen as much as this front.
fn seat(writer: &mut Desk, front: &Front) -> Result<Seat, AllocError>
    requires named { IsNamed (view_of writer.old.desk.place) writer.old.desk.shown.value }
    requires front { IsOfShelf (view_of writer.old.desk.place).shelf front.now }
    ensures tag { view_of writer.new.desk.place ≡ view_of writer.old.desk.place }
    ensures shown { writer.new.desk.shown ≡ writer.old.desk.shown }
    ensures steps { drop writer.new.behind writer.new.log.items ≡ drop writer.old.behind writer.old.log.items }
    ensures seat { IfOk result (λ s. (s.shelf ≡ (view_of writer.old.desk.place).shelf) × (s.seen ≡ front.now.changes)) }
{
    let mut reader = writer.factory().reader()?;
    reader.learn::<Copies>(writer.tell::<Copies>());
    Ok(Seat {
        reader,
        front: front.again(),
    })
}

/// So many of them.
fn seats(
    writer: &mut Desk,
    front: &Front,
    seats: &mut Vec<Seat>,
    places: u8,
) -> Result<(), AllocError>
    requires named { IsNamed (view_of writer.old.desk.place) writer.old.desk.shown.value }
    requires front { IsOfShelf (view_of writer.old.desk.place).shelf front.now }
    requires none { seats.old.items ≡ [] }
    ensures tag { view_of writer.new.desk.place ≡ view_of writer.old.desk.place }
    ensures shown { writer.new.desk.shown ≡ writer.old.desk.shown }
    ensures steps { drop writer.new.behind writer.new.log.items ≡ drop writer.old.behind writer.old.log.items }
    ensures seats { All (λ s. (s.shelf ≡ (view_of writer.old.desk.place).shelf) × (s.seen ≡ front.now.changes)) seats.new.items }
{
    for _ in 0..places {
        let next = seat(writer, front)?;
        seats.push(next)?;
    }
    Ok(())
}

/// A writer that knows which shelf it is of.
fn named<R: Wait>(
    rt: &R,
    alloc: Global,
    first: Face,
    second: Face,
    places: u8,
) -> Result<Desk, AllocError>
    requires places { 0 < places }
    requires alike { shown_by first ≡ shown_by second }
    requires none { first.front.changes ≡ [] }
    ensures named { IfOk result (λ w. IsNamed (view_of w.desk.place) w.desk.shown.value) }
    ensures shown { IfOk result (λ w. (shown_by w.desk.shown.value ≡ shown_by first) × (drop w.behind w.log.items ≡ [])) }
{
    let writer: Desk = Writer::new(alloc, first, second, places as usize)?;
    let (writer, named) = writer.publish_as::<Names, R>(rt);
    match named {
        Ok(()) => Ok(writer),
        Err(e) => {
            writer.take(rt);
            Err(e)
        }
    }
}

/// A face that shows a view as it is.
fn face(alloc: Global, view: LaneView, front: &Front) -> Face
    ensures { (result.view ≡ view) × (result.front ≡ front.now) }
{
    Face {
        view,
        front: front.again(),
        alloc,
    }
}

impl<R: Wait + Drop> SharedShelf<R> {
    /// A shelf that shows a view, after no change, and has no change pending, with room for so many seats. It keeps two
    /// copies of the view, and `rt` for its waiting.
    pub fn new(
        alloc: Global,
        rt: R,
        view: LaneView,
        places: u8,
    ) -> Result<(SharedShelf<R>, Places), NoMemory>
        requires places { 0 < places }
        ensures opening { IfOk result (λ t. t.0.shelf.opening ≡ view) }
        ensures shown { IfOk result (λ t. t.0.shown ≡ []) }
        ensures pending { IfOk result (λ t. t.0.pending ≡ []) }
        ensures seats { IfOk result (λ t. t.1 ≡ t.0.shelf) }
    {
        let (head, front) = open();
        let opening = Snapshot::of(&view);
        let second = face(alloc, view.copy(alloc)?, &front);
        let first = face(alloc, view, &front);
        let mut writer = named(&rt, alloc, first, second, places)?;
        let mut all = Vec::new(alloc);
        if seats(&mut writer, &front, &mut all, places).is_err() {
            writer.take(&rt);
            return Err(NoMemory);
        }
        let places = Places {
            seats: all,
            front: front.again(),
            opening,
        };
        let shelf = SharedShelf {
            rt,
            writer,
            head,
            front,
            queue: VecDeque::new(alloc),
        };
        Ok((shelf, places))
    }
}
