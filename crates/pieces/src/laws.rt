//! Laws of runs and of serials; no function here does anything.

ghost use Rattle.std.specs.Prelude.{◌≡◌, ◌≤◌, ◌+◌, ◌++◌, ◌∷◌, ◌<◌, ◌^◌, ◌||◌, ◌&&◌, not, ℕ, List, true, false};
ghost use Rattle.std.specs.List.{list_any};
ghost use Rattle.bucket_ids.specs.Buckets.{Low, IsBucket, has_key};
ghost use Rattle.pieces.specs.Pieces.{holds, meets, is_over, is_inside, is_exactly};
ghost use Rattle.pieces.specs.Holdings.{Holding, IsHolding, after_store, after_apply, after_split, after_join, after_ready, after_activate, after_delete};
ghost use Rattle.pieces.specs.Runs.{AreRuns};
ghost use Rattle.pieces.specs.Lives.{Change, life, names, stale, stale_at};

use bucket_ids::laws::{buckets_are_runs, runs_of_children};

/// What is known of the runs of buckets.
pub fn runs_are_known()
    ensures { AreRuns }
{
    buckets_are_runs();
    runs_of_children();
}

/// No bucket gets one serial twice, whatever changes are accepted: what a bucket had and lost it never has
/// again, and where a change gives a bucket a serial, that is the next one.
pub fn serials_come_once()
    ensures drawn { (cs : List Change) (b : Low) (s : ℕ) → names b s (life cs) ≡ true → s ≤ (life cs).serial }
    ensures given { (c : Change) (cs : List Change) (b : Low) (s : ℕ) → names b s (life cs) ≡ false
        → names b s (life (c ∷ cs)) ≡ true → s ≡ (life cs).serial + 1 }
    ensures once { (later between earlier : List Change) (b : Low) (s : ℕ) → names b s (life earlier) ≡ true
        → names b s (life (between ++ earlier)) ≡ false
        → names b s (life (later ++ (between ++ earlier))) ≡ false }
{}

/// Each piece that an accepted change meets or makes has the new serial.
pub fn what_is_met_is_renewed()
    ensures store { (key : ℕ) (h : Holding)
        → list_any (stale_at (h.serial + 1) key) (after_store key h).pieces ≡ false }
    ensures apply { (b : Low) (h : Holding) → IsBucket b → IsHolding h
        → list_any (stale (h.serial + 1) b) (after_apply b h).pieces ≡ false }
    ensures split { (b : Low) (h : Holding) → IsBucket b → IsHolding h → list_any (is_over b) h.pieces ≡ true
        → list_any (stale (h.serial + 1) b) (after_split b h).pieces ≡ false }
    ensures join { (b : Low) (h : Holding) → IsBucket b → IsHolding h → list_any (is_inside b) h.pieces ≡ true
        → list_any (stale (h.serial + 1) b) (after_join b h).pieces ≡ false }
    ensures ready { (b : Low) (h : Holding) → IsBucket b → IsHolding h → list_any (is_exactly b) h.pieces ≡ true
        → list_any (stale (h.serial + 1) b) (after_ready b h).pieces ≡ false }
    ensures activate { (b : Low) (h : Holding)
        → list_any (stale (h.serial + 1) b) (after_activate b h).pieces ≡ false }
{
    runs_are_known();
}

/// A piece that an accepted change does not meet stays, with its serial, and nothing comes with a serial that
/// was drawn before.
pub fn what_is_not_met_stays()
    ensures store { (key : ℕ) (h : Holding) (b : Low) (s : ℕ) → s ≤ h.serial → has_key b key ≡ false
        → names b s (after_store key h) ≡ names b s h }
    ensures apply { (c : Low) (h : Holding) (b : Low) (s : ℕ) → s ≤ h.serial → meets b c ≡ false
        → names b s (after_apply c h) ≡ names b s h }
    ensures split { (c : Low) (h : Holding) (b : Low) (s : ℕ) → s ≤ h.serial → meets b c ≡ false
        → names b s (after_split c h) ≡ names b s h }
    ensures join { (c : Low) (h : Holding) (b : Low) (s : ℕ) → s ≤ h.serial → meets b c ≡ false
        → names b s (after_join c h) ≡ names b s h }
    ensures ready { (c : Low) (h : Holding) (b : Low) (s : ℕ) → IsBucket c → s ≤ h.serial → meets b c ≡ false
        → names b s (after_ready c h) ≡ names b s h }
    ensures activate { (c : Low) (h : Holding) (b : Low) (s : ℕ) → s ≤ h.serial → meets b c ≡ false
        → names b s (after_activate c h) ≡ names b s h }
    ensures delete { (c : Low) (h : Holding) (b : Low) (s : ℕ) → IsBucket c → s ≤ h.serial → meets b c ≡ false
        → names b s (after_delete c h) ≡ names b s h }
{}

/// Which keys a node holds after an accepted change: a split, a store and the marks leave them, an apply and
/// a join add those of their bucket, and a delete takes them out.
pub fn keys_are_held()
    ensures store { (key : ℕ) (h : Holding) (other : ℕ)
        → holds other (after_store key h).pieces ≡ holds other h.pieces }
    ensures apply { (b : Low) (h : Holding) (key : ℕ) → IsBucket b → IsHolding h → key < 2 ^ 58
        → holds key (after_apply b h).pieces ≡ has_key b key || holds key h.pieces }
    ensures split { (b : Low) (h : Holding) (key : ℕ) → IsBucket b → IsHolding h → key < 2 ^ 58
        → holds key (after_split b h).pieces ≡ holds key h.pieces }
    ensures join { (b : Low) (h : Holding) (key : ℕ) → IsBucket b → IsHolding h → key < 2 ^ 58
        → list_any (is_inside b) h.pieces ≡ true
        → holds key (after_join b h).pieces ≡ has_key b key || holds key h.pieces }
    ensures ready { (b : Low) (h : Holding) (key : ℕ)
        → holds key (after_ready b h).pieces ≡ holds key h.pieces }
    ensures activate { (b : Low) (h : Holding) (key : ℕ)
        → holds key (after_activate b h).pieces ≡ holds key h.pieces }
    ensures delete { (b : Low) (h : Holding) (key : ℕ) → IsBucket b → IsHolding h → key < 2 ^ 58
        → list_any (is_exactly b) h.pieces ≡ true
        → holds key (after_delete b h).pieces ≡ (not (has_key b key) && holds key h.pieces) }
{
    runs_are_known();
}
