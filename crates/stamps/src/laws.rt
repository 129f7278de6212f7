//! Laws of the order of stamps and of their texts; no function here does anything.

ghost use Rattle.std.specs.Prelude.{◌≡◌, ◌≢◌, ◌⊎◌, ◌↔◌, ℕ, List, Some, None};
ghost use Rattle.std.specs.declared.cmp.Ordering.TheVariants.{Less, Equal, Greater};
ghost use Rattle.stamps.specs.Order.{IsBefore};
ghost use Rattle.stamps.specs.Printed.{printed, IsStamp, stamp_in};
ghost use Rattle.stamps.specs.declared.stamp.Stamp.{Stamp};

use crate::stamp::Stamp;

/// Of two different stamps exactly one is before the other, no stamp is before itself, and what is
/// before an earlier stamp is before a later one.
pub fn stamps_are_ordered()
    ensures strict { (a : Stamp) → IsBefore a a → ⊥ }
    ensures transitive { (a b c : Stamp) → IsBefore a b → IsBefore b c → IsBefore a c }
    ensures total { (a b : Stamp) → (a ≡ b) ⊎ (IsBefore a b ⊎ IsBefore b a) }
{}

/// What Rust compares by is this order: `Less` for the earlier stamp, `Equal` for the same one.
pub fn comparisons_are_the_order()
    ensures less { (a b : Stamp) → (⟦<Stamp as Ord>⟧.cmp a b ≡ Less) ↔ IsBefore a b }
    ensures greater { (a b : Stamp) → (⟦<Stamp as Ord>⟧.cmp a b ≡ Greater) ↔ IsBefore b a }
    ensures equal { (a b : Stamp) → (⟦<Stamp as Ord>⟧.cmp a b ≡ Equal) ↔ (a ≡ b) }
{}

/// A text is that of one stamp, or of none.
pub fn texts_are_stamps()
    ensures of { (s : Stamp) → IsStamp s → stamp_in (printed s) ≡ Some s }
    ensures only { (text : List ℕ) (s : Stamp) → stamp_in text ≡ Some s → (text ≡ printed s) × IsStamp s }
    ensures none { (text : List ℕ) → ((s : Stamp) → IsStamp s → text ≢ printed s) → stamp_in text ≡ None }
{}
