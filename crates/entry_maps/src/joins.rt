ghost use Rattle.std.specs.Prelude.{◌≡◌, ℕ, List, OnOk, OnErr};
ghost use Rattle.std.specs.FinMap as fin;
ghost use Rattle.entry_maps.specs.EntryCodes.{Entries};
ghost use Rattle.entry_maps.specs.Entries.{newer_of};
ghost use Rattle.entry_maps.specs.Joins.{joined};

use crate::entry_map::EntryMap;
use value_lists::NoMemory;

/// What a join has of a document: the newer of what both maps have, and of two equal stamps that of the
/// first map. No other map has the same of each document. The function does nothing.
pub fn joins_are_by_document()
    ensures entry { (m other : Entries) (id : List ℕ)
        → fin.get (joined m other) id ≡ newer_of (fin.get m id) (fin.get other id) }
    ensures alone { (m other new : Entries)
        → ((id : List ℕ) → fin.get new id ≡ newer_of (fin.get m id) (fin.get other id)) → new ≡ joined m other }
{}

/// Joins another map onto a map.
pub fn join(map: &mut EntryMap, other: &EntryMap) -> Result<(), NoMemory>
    ensures ok { OnOk result (map.new ≡ joined map.old other.now) }
    ensures err { OnErr result (map.new ≡ map.old) }
{
    map.merge(other)?;
    Ok(())
}
