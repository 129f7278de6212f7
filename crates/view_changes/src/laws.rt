//! Laws of views; no function here does anything.

ghost use Rattle.std.specs.Prelude.{◌≡◌, ◌<◌, ℕ, List, true, false, length, filter, Bool};
ghost use Rattle.view_changes.specs.declared.change.LaneChange.{LaneChange};
ghost use Rattle.document_rows.specs.Rows.{Rows, AreDistinct};
ghost use Rattle.view_changes.specs.Views.{View, NodeView, in_regions, adopted, taken, activated, is_fresh, listed, changed, view_after};
ghost use Rattle.view_changes.specs.Shown.{Keeping, ShowsNode, HasRoom, AreOwn, adopt, keep, activate};
ghost use Rattle.view_changes.specs.Deeds.{RoomAlong, is_seen, NodeDeed, MayDo, ViewShows, with_node, after_deed, changes_of, adoption};
ghost use Rattle.entry_maps.specs.Joins.{joined};
ghost use Rattle.entry_maps.specs.Entries.{in_bucket};
ghost use Rattle.bucket_ids.specs.Buckets.{Low};
ghost use Rattle.std.specs.FinMap as fin;
ghost use Rattle.global_ids.specs.Keys.{key_of};
ghost use Rattle.doc_types.specs.SchemaCodes.{Types};
ghost use Rattle.documents.specs.declared.entry.Entry.{Entry};
ghost use Rattle.view_changes.specs.Kept.{IsView, IsNode, HasBucket};
ghost use Rattle.view_changes.specs.Room.{AllAt, AllHave};
ghost use Rattle.entry_maps.specs.EntryCodes.{Entries};

/// A change leaves a view one: no key is active at two nodes of one version, and no document is there twice.
pub fn views_keep()
    ensures { (v : View) (c : LaneChange) → HasBucket c → IsView v → IsView (changed v c) }
{}

/// A view goes on showing what a node keeps.
pub fn nodes_are_shown()
    ensures adopted { (types : Types) (k : Keeping) (s : Bool) (n : NodeView) (w : ℕ) → ShowsNode types k s n
        → ShowsNode types (adopt w k) s (adopted w n) }
    ensures taken { (types : Types) (k : Keeping) (s : Bool) (n : NodeView) (e : Entry) → HasRoom n.rows
        → in_regions k.regions (key_of e.id) ≡ true → ShowsNode types k s n
        → ShowsNode types (keep e k) s (taken types e n) }
    ensures outside { (types : Types) (k : Keeping) (s : Bool) (n : NodeView) (e : Entry)
        → in_regions k.regions (key_of e.id) ≡ false → ShowsNode types k s n → ShowsNode types (keep e k) s n }
    ensures activated { (types : Types) (k : Keeping) (s : Bool) (n : NodeView) (b : Low) → AreOwn k.entries
        → RoomAlong types (filter (is_fresh b k.regions) (listed (fin.retain_keys k.entries (in_bucket b)))) n.rows
        → ShowsNode types k s n
        → ShowsNode types (activate b k) s (activated types b (fin.retain_keys k.entries (in_bucket b)) n) }
{}

/// What a node does with an accepted message, told by its changes, is shown by the view of its lane.
pub fn deeds_are_shown()
    ensures deed { (n : ℕ) (d : NodeDeed) (ks : ℕ → Keeping) (stopped : ℕ → Bool) (v : View) → IsView v
        → n < length v.nodes → MayDo n (ks n) v d → ViewShows ks stopped v
        → ViewShows (with_node n (after_deed d (ks n)) ks) stopped (view_after v (changes_of n (ks n) d)) }
    ensures adoption { (n w : ℕ) (ks : ℕ → Keeping) (stopped : ℕ → Bool) (v : View) → ViewShows ks stopped v
        → ViewShows (with_node n (adopt w (ks n)) ks) stopped (view_after v (adoption n w (ks n))) }
{}

/// The entries of a map that has each document of some rows find free places, one after the other, where
/// the map has fewer than 2^32 - 1.
pub fn entries_find_room()
    ensures { (types : Types) (m : Entries) (es : List Entry) → AllAt m es → fin.len m < 4294967295
        → (rows : Rows) → AreDistinct rows → AllHave m rows → RoomAlong types es rows }
{}

/// A deed of a node finds room in its view, where the node then has fewer than 2^32 - 1 entries.
pub fn deeds_find_room()
    ensures activated { (types : Types) (k : Keeping) (s : Bool) (n : NodeView) (b : Low) → AreOwn k.entries
        → IsNode n → ShowsNode types k s n → fin.len k.entries < 4294967295
        → RoomAlong types (filter (is_fresh b k.regions) (listed (fin.retain_keys k.entries (in_bucket b)))) n.rows }
    ensures united { (types : Types) (k : Keeping) (s : Bool) (n : NodeView) (es : Entries) → AreOwn es → IsNode n
        → ShowsNode types k s n → fin.len (joined k.entries es) < 4294967295
        → RoomAlong types (filter (is_seen k) (listed es)) n.rows }
{}
