//! Three facts that hold of every legal journal; no function here does anything.

ghost use Rattle.lane_journals.specs.ActiveCopies.{InAll};
ghost use Rattle.lane_durability.specs.Laws.{StoresStay, DeletesAreSafe, DeletesAreOne, MembersHold, RowsHold, MembersHavePieces};

/// What the nodes of a Store took stays with all of them, or enough nodes hold it or something newer.
pub fn quorum_kept()
    ensures stays { InAll StoresStay }
{}

/// What an acceptable Delete would take from a node is held, as new or newer, by enough other nodes of
/// no smaller version; and no key lies in two such Deletes of one version.
pub fn safe_delete()
    ensures safe { InAll DeletesAreSafe }
    ensures one { InAll (λ acks P J. DeletesAreOne J) }
{}

/// A complete member of a row holds of each document what its version found and all that was
/// acknowledged under it, and has a piece over each key of the row.
pub fn complete_members()
    ensures members { InAll (λ acks P J. MembersHold P J) }
    ensures rows { InAll (λ acks P J. RowsHold P J) }
    ensures pieces { InAll (λ acks P J. MembersHavePieces J) }
{}
