ghost use Rattle.std.specs.Prelude.{◌≡◌, ◌<◌, ◌≤◌, ℕ, None, slice_index_or, slice_set, length, OnOk, OnErr};
ghost use Rattle.std.specs.Option.{option_copied};
ghost use Rattle.std.specs.List.{swap};
ghost use Rattle.std.specs.FinMap as fin;
ghost use Rattle.local_ids.specs.Places.{map_from, moved};

use std::alloc::Global;
use std::marker::Model;
use value_lists::NoMemory;

/// A map from local ids, kept by place: its memory goes with the greatest id that was set.
#[derive(Drop)]
pub struct LocalMap<T: Drop> {
    places: Vec<Option<T>>,
}

impl<T: Drop> Model for LocalMap<T> {
    ghost use Rattle.std.specs.Ordering.{nat_cmp};
    ghost use Rattle.std.specs.FinMap as fin;
    ghost use Rattle.std.specs.Coded.{coded_ℕ};
    ghost use Rattle.local_ids.specs.Places.{map_from};

    ghost Value = { fin.FinMap nat_cmp T };

    ghost coded = { fin.code coded_ℕ T.code };

    ghost view = { λ m. map_from 0 m.places.items };
}

/// Makes places up to one, if there are fewer.
fn reach<T: Drop>(places: &mut Vec<Option<T>>, at: usize) -> Result<(), NoMemory>
    ensures there { OnOk result (at < length places.new.items) }
    ensures same { (n : ℕ) → map_from n places.new.items ≡ map_from n places.old.items }
{
    while places.len() <= at {
        places.push(None)?;
    }
    Ok(())
}

/// How many places there are up to the last one that is taken.
fn taken<T: Drop>(places: &[Option<T>]) -> usize
    ensures within { result ≤ length places.now }
    ensures free { (q : ℕ) → result ≤ q → slice_index_or places.now q None ≡ None }
{
    let mut count = places.len();
    while count > 0 {
        if places[count - 1].is_some() {
            return count;
        }
        count -= 1;
    }
    count
}

/// Puts what a place holds.
fn put_at<T: Drop>(places: &mut Vec<Option<T>>, at: usize, place: Option<T>)
    requires { at < length places.old.items }
    ensures { places.new.items ≡ slice_set places.old.items at place }
{
    places[at] = place;
}

/// Exchanges what two places hold.
fn exchange<T: Drop>(places: &mut Vec<Option<T>>, one: usize, two: usize)
    requires one { one < length places.old.items }
    requires two { two < length places.old.items }
    ensures { places.new.items ≡ swap places.old.items one two }
{
    places.swap(one, two);
}

impl<T: Drop> LocalMap<T> {
    /// No values.
    pub fn new(alloc: Global) -> Self
        ensures { result ≡ fin.empty }
    {
        LocalMap {
            places: Vec::new(alloc),
        }
    }

    /// The value of an id.
    pub fn get(&self, local: u32) -> Option<&T>
        ensures { option_copied result ≡ fin.get self.now local }
    {
        match self.places.get(local as usize) {
            Some(place) => place.as_ref(),
            None => None,
        }
    }

    /// Gives an id a value.
    pub fn set(&mut self, local: u32, value: T) -> Result<(), NoMemory>
        ensures ok { OnOk result (self.new ≡ fin.insert self.old local value) }
        ensures err { OnErr result (self.new ≡ self.old) }
    {
        let at = local as usize;
        reach(&mut self.places, at)?;
        put_at(&mut self.places, at, Some(value));
        Ok(())
    }

    /// Takes the value of an id away, if it has one.
    pub fn clear(&mut self, local: u32)
        ensures { self.new ≡ fin.remove self.old local }
    {
        let at = local as usize;
        if at < self.places.len() {
            put_at(&mut self.places, at, None);
        }
    }

    /// Gives an id without a value that of a greater one, if that has one.
    pub fn move_down(&mut self, from: u32, to: u32)
        requires below { to < from }
        requires free { fin.get self.old to ≡ None }
        ensures { self.new ≡ moved from to self.old }
    {
        if (from as usize) < self.places.len() {
            exchange(&mut self.places, from as usize, to as usize);
        }
    }

    /// Gives memory back that no value needs.
    pub fn compact(&mut self)
        ensures { self.new ≡ self.old }
    {
        let count = taken(&self.places);
        self.places.truncate(count);
        self.places.shrink_to_fit();
    }
}
