//! The rule of the two faces: each is of one shelf, and each reader knows which shelf that is.

use crate::face::{Face, ShelfId};
use atomic_table::{Join, Split};
use crossbeam_utils::rule::{Outcome, Protocol};

/// What the writer, a reader or what passes between them knows: nothing, or which shelf it is of. No value of it is made.
pub struct Tag {
    pub known: bool,
    pub shelf: ShelfId,
}

pub struct OneShelf;

impl Protocol<Face, Tag> for OneShelf {
    ghost use Rattle.generation_guard.specs.Seats.{Agrees, nothing};

    ghost holds = { Agrees };

    ghost first = { nothing };
}

/// A reader takes what is shown.
pub struct Takes;

impl Outcome<Face, Tag> for Takes {
    ghost use Rattle.generation_guard.specs.Seats.{TakesFace};

    ghost then = { TakesFace };
}

/// The first publication, which tells the writer which shelf it is.
pub struct Names;

impl Outcome<Face, Tag> for Names {
    ghost use Rattle.generation_guard.specs.Seats.{NamesShelf};

    ghost then = { NamesShelf };
}

/// A later publication.
pub struct Keeps;

impl Outcome<Face, Tag> for Keeps {
    ghost use Rattle.generation_guard.specs.Seats.{KeepsTag};

    ghost then = { KeepsTag };
}

/// What the writer knows, a reader learns.
pub struct Copies;

impl Split<Tag> for Copies {
    ghost left = { λ t. t };

    ghost right = { λ t. t };
}

impl Join<Tag> for Copies {
    ghost use Rattle.generation_guard.specs.Seats.{nothing};

    ghost both = { λ _ t. t };

    ghost spent = { nothing };
}
