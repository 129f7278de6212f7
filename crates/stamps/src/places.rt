ghost use Rattle.std.specs.Prelude.{◌≡◌, ◌==◌, ◌≤◌, ◌<◌, ℕ, Some, None, OnOk, OnErr, IfOk, length, get_or, if◌then◌else◌};
ghost use Rattle.stamps.specs.declared.stamp.Stamp.{Stamp as DeclaredStamp};
ghost use Rattle.stamps.specs.Places.{first_of, under, place_of, place_next};

use crate::Stamp;
use std::alloc::Global;
use value_lists::NoMemory;

/// The places of the stamps of one version, by their counts.
#[derive(Drop)]
pub struct VersionPlaces {
    pub version: u32,
    pub places: Vec<Option<usize>>,
}

/// A place for each of some stamps.
#[derive(Drop)]
pub struct StampPlaces {
    pub versions: Vec<VersionPlaces>,
}

/// How many versions stand before one; all, where it isn't there.
fn first_of(versions: &[VersionPlaces], version: u32) -> usize
    ensures value { result ≡ first_of version versions.now }
    ensures within { result ≤ length versions.now }
{
    let mut at = 0;
    while at < versions.len() {
        if versions[at].version == version {
            return at;
        }
        at += 1;
    }
    at
}

/// The place at a count.
fn place_at(places: &[Option<usize>], count: usize) -> Option<usize>
    ensures { result ≡ get_or places.now count None }
{
    match places.get(count) {
        Some(place) => *place,
        None => None,
    }
}

/// Keeps a place at a count.
fn put_at(places: &mut Vec<Option<usize>>, count: usize, place: usize) -> Result<(), NoMemory>
    ensures ok { OnOk result ((i : ℕ) → get_or places.new.items i None
        ≡ (if count == i then Some place else get_or places.old.items i None)) }
    ensures err { OnErr result (places.new.items ≡ places.old.items) }
{
    if count < places.len() {
        places[count] = Some(place);
        return Ok(());
    }
    let Some(len) = count.checked_add(1) else {
        return Err(NoMemory);
    };
    places.resize(len, None)?;
    places[count] = Some(place);
    Ok(())
}

impl StampPlaces {
    /// No place is kept.
    pub fn none(alloc: Global) -> StampPlaces
        ensures { (s : DeclaredStamp) → place_of result s ≡ None }
    {
        StampPlaces {
            versions: Vec::new(alloc),
        }
    }

    /// The place that is kept for a stamp.
    pub fn get(&self, stamp: Stamp) -> Option<usize>
        ensures { result ≡ place_of self.now stamp }
    {
        let at = first_of(&self.versions, stamp.version);
        if at == self.versions.len() {
            return None;
        }
        place_at(&self.versions[at].places, stamp.count as usize)
    }

    /// Where the places of a version lie; it is put behind the others where it isn't there.
    fn need(&mut self, alloc: Global, version: u32) -> Result<usize, NoMemory>
        ensures at { IfOk result (λ at. at ≡ first_of version self.new.versions.items) }
        ensures there { IfOk result (λ at. at < length self.new.versions.items) }
        ensures same { (s : DeclaredStamp) → place_of self.new s ≡ place_of self.old s }
    {
        let at = first_of(&self.versions, version);
        if at == self.versions.len() {
            self.versions.push(VersionPlaces {
                version,
                places: Vec::new(alloc),
            })?;
        }
        Ok(at)
    }

    /// Keeps a place for a stamp.
    pub fn keep(&mut self, alloc: Global, stamp: Stamp, place: usize) -> Result<(), NoMemory>
        ensures ok { OnOk result ((s : DeclaredStamp) → place_of self.new s
            ≡ place_next stamp place (place_of self.old) s) }
        ensures err { OnErr result ((s : DeclaredStamp) → place_of self.new s ≡ place_of self.old s) }
    {
        let at = self.need(alloc, stamp.version)?;
        put_at(&mut self.versions[at].places, stamp.count as usize, place)
    }
}
