ghost use Rattle.std.specs.Prelude.{◌≡◌, ◌<◌, ◌≤◌, nat_lt, length, slice_index, IsTrue, ◌↔◌, OnOk, OnErr, IsOk, vec_len, vec_capacity};
ghost use Rattle.std.specs.List.{prefix_len, Contains};
ghost use Rattle.local_ids.specs.Rising.{IsRising, with_local, without_local, moved_local};

use value_lists::NoMemory;

/// How many ids of a rising list are below one.
pub fn place_of(list: &[u32], local: u32) -> usize
    requires { IsRising list.now }
    ensures value { result ≡ prefix_len (λ y. nat_lt y local) list.now }
    ensures within { result ≤ length list.now }
{
    list.partition_point(
        |own: &u32| -> bool
            ensures { result ≡ nat_lt own.now local }
        { *own < local },
    )
}

/// Whether an id stands at a place.
fn stands_at(list: &[u32], at: usize, local: u32) -> bool
    ensures { IsTrue result ↔ ((at < length list.now) × (slice_index list.now at ≡ local)) }
{
    at < list.len() && list[at] == local
}

/// Whether a rising list has an id, by a binary search.
pub fn has_local(list: &[u32], local: u32) -> bool
    requires { IsRising list.now }
    ensures { IsTrue result ↔ Contains list.now local }
{
    stands_at(list, place_of(list, local), local)
}

/// Puts an id into a rising list: a binary search, and the ids above it move up by one. The only error is want of
/// memory, and an id that is there needs none.
pub fn put_local(list: &mut Vec<u32>, local: u32) -> Result<(), NoMemory>
    requires { IsRising list.old.items }
    ensures ok { OnOk result (list.new.items ≡ with_local local list.old.items) }
    ensures err { OnErr result (list.new.items ≡ list.old.items) }
    ensures room { vec_len list.old < vec_capacity list.old → IsOk result }
{
    let at = place_of(list, local);
    if stands_at(list, at, local) {
        return Ok(());
    }
    list.insert(at, local)?;
    Ok(())
}

/// The same where there is room.
fn fill_local(list: &mut Vec<u32>, local: u32)
    requires rising { IsRising list.old.items }
    requires room { vec_len list.old < vec_capacity list.old }
    ensures { list.new.items ≡ with_local local list.old.items }
{
    match put_local(list, local) {
        Ok(()) => {}
        Err(_) => {}
    }
}

/// Takes an id out of a rising list, if it is there: a binary search, and the ids above it move down by one.
pub fn drop_local(list: &mut Vec<u32>, local: u32)
    requires { IsRising list.old.items }
    ensures { list.new.items ≡ without_local local list.old.items }
{
    let at = place_of(list, local);
    if stands_at(list, at, local) {
        list.remove(at);
    }
}

/// Puts an id in the place of another, if that is there: two binary searches, and the ids between them move by one.
pub fn move_local(list: &mut Vec<u32>, from: u32, to: u32)
    requires { IsRising list.old.items }
    ensures { list.new.items ≡ moved_local from to list.old.items }
{
    let place = place_of(list, from);
    if stands_at(list, place, from) {
        list.remove(place);
        fill_local(list, to);
    }
}
