//! Laws of the stamps of maps; no function here does anything.

ghost use Rattle.std.specs.Prelude.{◌↔◌, map, Contains};
ghost use Rattle.std.specs.FinMap as fin;
ghost use Rattle.stamps.specs.declared.stamp.Stamp.{Stamp};
ghost use Rattle.entry_maps.specs.EntryCodes.{Entries};
ghost use Rattle.entry_maps.specs.Stamps.{stamp_in, stamps_of};
ghost use Rattle.stamps.specs.Rising.{IsRising};

/// The stamps of a map rise, and are just those of its entries; so there is one such list.
pub fn stamps_rise()
    ensures rising { (m : Entries) → IsRising (stamps_of m) }
    ensures members { (m : Entries) (s : Stamp)
        → Contains (stamps_of m) s ↔ Contains (map stamp_in (fin.values m)) s }
{}
