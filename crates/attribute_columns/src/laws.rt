//! Which documents have a number; no function here does anything.

ghost use Rattle.std.specs.Prelude.{◌≡◌, ◌↔◌, ℕ, ℤ, true};
ghost use Rattle.std.specs.List.{Contains};
ghost use Rattle.local_ids.specs.Rising.{IsRising};
ghost use Rattle.attribute_columns.specs.Columns.{ValueMap, has_number, numbers_at, locals_with};

/// The list of a number rises, and has those documents whose value is that number or has it as an item.
pub fn lists_tell_values()
    ensures rising { (q : ℤ) (values : ValueMap) → IsRising (locals_with q values) }
    ensures told { (q : ℤ) (values : ValueMap) (n : ℕ)
        → Contains (locals_with q values) n ↔ (has_number q (numbers_at values n) ≡ true) }
{}
