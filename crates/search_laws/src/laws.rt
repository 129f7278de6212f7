//! Laws of searches; no function here does anything.

ghost use Rattle.std.specs.Prelude.{◌≡◌, ◌≤◌, ◌<◌, ◌^◌, ℕ, Bool, true, false, List};
ghost use Rattle.global_ids.specs.Keys.{key_of};
ghost use Rattle.document_rows.specs.Rows.{has_row};
ghost use Rattle.view_changes.specs.Views.{NodeView};
ghost use Rattle.search_laws.specs.Searches.{Seen, AreLanes, times_counted, covered, EachSeen, SomeSeen};

/// A search counts each document once at most, and covers no more than all keys; where it covers as much,
/// each key lies in a region of a node that serves, of which holds what holds of all of them; it covers as
/// much wherever each key lies in one; and a document is counted just where the node that is over its key has it.
pub fn searches_count_once()
    ensures once { (w : ℕ) (id : List ℕ) (ls : List Seen) → AreLanes ls → times_counted w id ls ≤ 1 }
    ensures bounded { (w : ℕ) (ls : List Seen) → AreLanes ls → covered w ls ≤ 2 ^ 58 }
    ensures full { (w : ℕ) (test : NodeView → Bool) (ls : List Seen) → AreLanes ls
        → EachSeen w (λ n. test n ≡ true) ls → covered w ls ≡ 2 ^ 58 → (key : ℕ) → key < 2 ^ 58
        → SomeSeen w key (λ n. test n ≡ true) ls }
    ensures found { (w : ℕ) (ls : List Seen) → AreLanes ls
        → ((key : ℕ) → key < 2 ^ 58 → SomeSeen w key (λ n. Unit {0}) ls) → covered w ls ≡ 2 ^ 58 }
    ensures there { (w : ℕ) (id : List ℕ) (ls : List Seen) → AreLanes ls
        → SomeSeen w (key_of id) (λ n. has_row id n.rows ≡ true) ls → times_counted w id ls ≡ 1 }
    ensures absent { (w : ℕ) (id : List ℕ) (ls : List Seen) → AreLanes ls
        → SomeSeen w (key_of id) (λ n. has_row id n.rows ≡ false) ls → times_counted w id ls ≡ 0 }
{}
