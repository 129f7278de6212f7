//! The law of the tests of numbers; the function here does nothing.

ghost use Rattle.std.specs.Prelude.{◌≡◌, ◌≤◌, ◌<◌, ◌↔◌, ℕ, true, nat_le, nat_lt};

/// A test of two numbers says exactly what holds of them.
pub fn tests_say_what_holds()
    ensures at_most { (m n : ℕ) → (nat_le m n ≡ true) ↔ (m ≤ n) }
    ensures less { (m n : ℕ) → (nat_lt m n ≡ true) ↔ (m < n) }
{}
