//! Operations on one document, and what nodes and distributors say to each other.
//!
//! A contract sees an `Operation` as a record of its id, its kind, its condition and whether it creates; `specs/Meaning.antt`
//! says whether an operation goes ahead (`decide`) and which document it leaves (`effect`). A `Message` is a record whose body is
//! one of nine requests; `specs/Noting.antt` says how a journal names what it carries. Entries are shared by copies.
//!
//! A late message is kept with the number of the message behind which it is delivered (`due`). A `LateList` is seen as a
//! `Waiting`: those that wait, in the order in which they fall due and of those with one `due` in the order in which they were
//! sent, and whether there is a place for one more. Only `room` takes memory, so a message that was sent finds its place.
//!
//! ```text
//! let operation = Operation { id, kind: OpKind::Update(update), condition: None, create: false };
//! operation.decide(None)                        // Decided::DoesNothing: an update sees no document
//! operation.effect(alloc, Some(&document))?     // the document with the update, or its fault
//!
//! let origin = Origin { version: 1, lane: 0, sender: 0 };
//! let message = origin.message(3, Body::Store { entry });
//! message.body.noted(alloc)?                    // NotedBody::Store { stamp }
//!
//! late.room()?;
//! late.keep(9, 7, message);     // message 7 is delivered behind message 9
//! late.take_due(8)              // None
//! ```
#![tactic(auto)]

pub mod body;
pub mod decision;
pub mod late;
pub mod late_list;
pub mod lists;
pub mod message;
pub mod noted;
pub mod operation;
pub mod outcome;
pub mod reply;
pub mod shared_operation;
pub mod step;

pub use body::Body;
pub use decision::Decision;
pub use late::Late;
pub use late_list::LateList;
pub use lists::{BucketList, StampList};
pub use message::{Message, Origin};
pub use noted::{NotedBody, NotedReply};
pub use operation::{Decided, OpKind, Operation};
pub use outcome::Outcome;
pub use reply::Reply;
pub use shared_operation::SharedOperation;
pub use step::{Job, NodePieces, Step};
