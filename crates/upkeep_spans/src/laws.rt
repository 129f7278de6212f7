//! The laws of spans; no function here does anything.

ghost use Rattle.std.specs.Prelude.{◌≡◌, ℕ, List, ◌∷◌, ◌++◌, length};
ghost use Rattle.carriers.specs.declared.fate.Fate.{Fate};
ghost use Rattle.lane_journals.specs.Buckets.{Id, Bucket};
ghost use Rattle.lane_journals.specs.Stamps.{Stamp};
ghost use Rattle.lane_journals.specs.Readers.{published, known, held, stopped, began, prepared, wrote, closed, refused, stamps_of, before_line, Acked};
ghost use Rattle.lane_journals.specs.Meanings.{history, entry_at, written};
ghost use Rattle.lane_journals.specs.Places.{state_in, published_states};
ghost use Rattle.lane_journals.specs.Facts.{Idle};
ghost use Rattle.lane_journals.specs.declared.event.LaneEvent.{LaneEvent};
ghost use Rattle.lane_carriage.specs.Carriage.{IsDealt, AreDelivered};
ghost use Rattle.upkeep_spans.specs.Spans.{IsUpkeepEvent, AreUpkeep, later, earlier, OfUpkeep};
ghost use Rattle.upkeep_spans.specs.Causes.{IsCause, IsUndisturbed};
ghost use Rattle.upkeep_spans.specs.declared.answers.Upkeep.TheVariants.{Rested};

/// An upkeep goes on event by event, and one behind another is one upkeep; what becomes of a message and the
/// late ones that are due are such events. Its span is the events behind those that were there.
pub fn upkeep_goes_on()
    ensures none { (d v : ℕ) (J : List LaneEvent) → AreUpkeep d v J J }
    ensures one_more { (d v : ℕ) (J K : List LaneEvent) (e : LaneEvent) → IsUpkeepEvent d v e → AreUpkeep d v J K
        → AreUpkeep d v J (e ∷ K) }
    ensures further { (d v : ℕ) (J K L : List LaneEvent) → AreUpkeep d v J K → AreUpkeep d v K L
        → AreUpkeep d v J L }
    ensures dealt { (d v : ℕ) (fate : Fate) (n : ℕ) (J K : List LaneEvent) → IsDealt fate n J K
        → AreUpkeep d v J K }
    ensures delivered { (d v : ℕ) (numbers : List ℕ) (J K : List LaneEvent) → AreDelivered numbers J K
        → AreUpkeep d v J K }
    ensures span { OfUpkeep (λ J K. K ≡ later (length J) K ++ J) }
    ensures behind { (J span : List LaneEvent) → later (length J) (span ++ J) ≡ span }
    ensures before { (J span : List LaneEvent) → earlier (length J) (span ++ J) ≡ J }
{}

/// An upkeep rested exactly where nothing in its span was lost or late.
pub fn undisturbed_spans_rest()
    ensures rested { (given : List Fate) (J K : List LaneEvent) → IsCause given (length J) K Rested
        → IsUndisturbed given J K }
    ensures undisturbed { (given : List Fate) (J K : List LaneEvent) → IsUndisturbed given J K
        → IsCause given (length J) K Rested }
{}

/// An upkeep begins, prepares, writes, refuses and closes no line, and acknowledges nothing.
pub fn upkeep_leaves_lines()
    ensures began { OfUpkeep (λ J K. (line : ℕ) → began line (history K) ≡ began line (history J)) }
    ensures prepared { OfUpkeep (λ J K. (line : ℕ) → prepared line (history K) ≡ prepared line (history J)) }
    ensures wrote { OfUpkeep (λ J K. (line : ℕ) → wrote line (history K) ≡ wrote line (history J)) }
    ensures closed { OfUpkeep (λ J K. (line : ℕ) → closed line (history K) ≡ closed line (history J)) }
    ensures refused { OfUpkeep (λ J K. (line : ℕ) → refused line (history K) ≡ refused line (history J)) }
    ensures stamps { OfUpkeep (λ J K. (v : ℕ) → stamps_of v (history K) ≡ stamps_of v (history J)) }
    ensures before { OfUpkeep (λ J K. (line : ℕ) → before_line line (history K) ≡ before_line line (history J)) }
    ensures idle { OfUpkeep (λ J K. (v : ℕ) (b : Bucket) → Idle v b (history J) → Idle v b (history K)) }
    ensures acked { OfUpkeep (λ J K. (v : ℕ) (id : Id) (s : Stamp) → Acked v id s (history K)
        → Acked v id s (history J)) }
    ensures entries { OfUpkeep (λ J K. (s : Stamp) → entry_at s K ≡ entry_at s J) }
    ensures documents { OfUpkeep (λ J K. (s : Stamp) → written s K ≡ written s J) }
{}

/// An upkeep publishes no state and lets nobody hear one, and no node stops or starts.
pub fn upkeep_leaves_states()
    ensures published { OfUpkeep (λ J K. (v : ℕ) → published v (history K) ≡ published v (history J)) }
    ensures known { OfUpkeep (λ J K. (v n : ℕ) → known v n (history K) ≡ known v n (history J)) }
    ensures states { OfUpkeep (λ J K. published_states K ≡ published_states J) }
    ensures state { OfUpkeep (λ J K. (v : ℕ) → state_in v K ≡ state_in v J) }
    ensures held { OfUpkeep (λ J K. (d : ℕ) → held d (history K) ≡ held d (history J)) }
    ensures stopped { OfUpkeep (λ J K. (n : ℕ) → stopped n (history K) ≡ stopped n (history J)) }
{}
