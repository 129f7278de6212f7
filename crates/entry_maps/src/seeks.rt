ghost use Rattle.std.specs.Prelude.{◌≡◌, ◌≢◌, ◌<◌, None, true, false, length, IfOk, IfErr};
ghost use Rattle.std.specs.List.{HoldsAt};
ghost use Rattle.entry_rows.specs.Chunks.{flat, place, AreSome, IsSeat, IsPlaceFor};
ghost use Rattle.entry_maps.specs.Slots.{IsKept, IsSlotOf, entry_in, path_by};

use document_ids::DocId;
use entry_rows::chunks::{Chunks, Spot};

/// Whether the slot of a seat has this path.
fn has_path(list: &Chunks, seat: Spot, path: u64) -> bool
    requires { IsSeat list.now seat }
    ensures other { result ≡ false → place list.now seat < length (flat list.now)
        → HoldsAt (λ s. s.path ≢ path) (flat list.now) (place list.now seat) }
{
    match list.slot(seat) {
        Some(slot) => slot.path == path,
        None => false,
    }
}

/// Whether the slot of a seat is the document's.
fn is_there(list: &Chunks, seat: Spot, path: u64, id: &DocId) -> bool
    requires kept { IsKept (flat list.now) }
    requires seat { IsSeat list.now seat }
    requires path { path ≡ path_by id.now }
    ensures there { result ≡ true → IsSlotOf (flat list.now) id.now (place list.now seat) }
    ensures other { result ≡ false → place list.now seat < length (flat list.now)
        → HoldsAt (λ s. s.entry.id ≢ id.now) (flat list.now) (place list.now seat) }
{
    match list.slot(seat) {
        Some(slot) => slot.path == path && slot.entry.is_of(id),
        None => false,
    }
}

/// The same as `seek`, by the ids too: for a path that a slot of another document has.
fn seek_tied(list: &Chunks, path: u64, id: &DocId) -> Result<Spot, Spot>
    requires some { AreSome list.now }
    requires kept { IsKept (flat list.now) }
    requires path { path ≡ path_by id.now }
    ensures seat { IfOk result (IsSeat list.now) }
    ensures found { IfOk result (λ seat. IsSlotOf (flat list.now) id.now (place list.now seat)) }
    ensures none { IfErr result (λ _. entry_in (flat list.now) id.now ≡ None) }
    ensures spot { IfErr result (IsPlaceFor list.now path id.now) }
{
    let spot = list.first_from(path, id.text());
    let seat = list.settled(spot);
    if is_there(list, seat, path, id) {
        Ok(seat)
    } else {
        Err(spot)
    }
}

/// The seat of a document's slot, or the spot where it would have to be added. The paths alone are
/// searched, since two documents hardly ever have the same one.
pub fn seek(list: &Chunks, path: u64, id: &DocId) -> Result<Spot, Spot>
    requires some { AreSome list.now }
    requires kept { IsKept (flat list.now) }
    requires path { path ≡ path_by id.now }
    ensures seat { IfOk result (IsSeat list.now) }
    ensures found { IfOk result (λ seat. IsSlotOf (flat list.now) id.now (place list.now seat)) }
    ensures none { IfErr result (λ _. entry_in (flat list.now) id.now ≡ None) }
    ensures spot { IfErr result (IsPlaceFor list.now path id.now) }
{
    let spot = list.first_at(path);
    let seat = list.settled(spot);
    if !has_path(list, seat, path) {
        return Err(spot);
    }
    if is_there(list, seat, path, id) {
        return Ok(seat);
    }
    seek_tied(list, path, id)
}
