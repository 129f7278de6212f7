//! The laws of carriage; no function here does anything.

ghost use Rattle.std.specs.Prelude.{◌≡◌, ◌<◌, ◌≤◌, ◌+◌, ◌++◌, ◌&&◌, ℕ, true, false, List, [], ◌∷◌, length, None, Some, IsSome, slice_get, ◌↔◌, Contains};
ghost use Rattle.std.specs.List.Sorted.{IsStrictlyIncreasing};
ghost use Rattle.carriers.specs.declared.fate.Fate.{Fate};
ghost use Rattle.carriers.specs.declared.fate.Fate.TheVariants as fate;
ghost use Rattle.messages.specs.declared.noted.NotedReply.{NotedReply};
ghost use Rattle.messages.specs.declared.noted.NotedBody.{NotedBody};
ghost use Rattle.lane_journals.specs.Readers.{sent, stopped, first_reply, returned};
ghost use Rattle.lane_journals.specs.Meanings.{history};
ghost use Rattle.lane_journals.specs.declared.event.LaneEvent.{LaneEvent};
ghost use Rattle.lane_journals.specs.declared.event.LaneEvent.TheVariants.{Sent, Delivered};
ghost use Rattle.messages.specs.Waiting.{AreSentBefore, IsTaken};
ghost use Rattle.messages.specs.declared.late.Late.{Late};
ghost use Rattle.lane_carriage.specs.Carriage.{met, IsDealt, is_cut_off, AreDelivered, due, IsCarried};
ghost use Rattle.lane_carriage.specs.Readers.{sendings, last_sent, arrivals, receives, fate_of, times_sent, is_returned, IsPrompt, IsLate, arrivals_of};
ghost use Rattle.lane_carriage.specs.Waits.{numbers, IsWaiting, AreTaken};
ghost use Rattle.lane_carriage.specs.Laws.{OfCarried, OfTaken};

/// Each number from 1 to the count of fates was sent once, and no other; a message arrived just where its
/// fate says, a late one behind the message so many numbers on, and only where its receiver ran then; and
/// just those of the fates Deliver and Twice were returned whose receiver ran.
pub fn messages_are_carried()
    ensures fates { (given : List Fate) (i : ℕ) → fate_of (i + 1) given ≡ slice_get given i }
    ensures numbers { (given : List Fate) (k : ℕ) → IsSome (fate_of k given) ↔ ((1 ≤ k) × (k ≤ length given)) }
    ensures once { OfCarried (λ given J. (k : ℕ) → sendings k J ≡ times_sent (fate_of k given)) }
    ensures sent { OfCarried (λ given J. (k : ℕ) → 1 ≤ k → k ≤ length given → IsSome (sent k (history J))) }
    ensures unsent { OfCarried (λ given J. (k : ℕ) → fate_of k given ≡ None → sent k (history J) ≡ None) }
    ensures last { OfCarried (λ given J. last_sent J ≡ length given) }
    ensures arrivals { OfCarried (λ given J. (k : ℕ)
        → arrivals k J ≡ arrivals_of k (fate_of k given) (length given) (λ j. receives k j J)) }
    ensures returned { OfCarried (λ given J. (k : ℕ)
        → returned k (history J) ≡ (is_returned (fate_of k given) && receives k k J)) }
    ensures lost { OfCarried (λ given J. (k : ℕ) → fate_of k given ≡ Some fate.LoseRequest
        → first_reply k (history J) ≡ None) }
    ensures arrived { OfCarried (λ given J. (k : ℕ) (f : Fate) → fate_of k given ≡ Some f → IsPrompt f
        → receives k k J ≡ true → IsSome (first_reply k (history J))) }
    // its receiver was stopped as it was sent, and it didn't wait
    ensures cut_off { OfCarried (λ given J. (k : ℕ) (f : Fate) → fate_of k given ≡ Some f → (IsLate f → ⊥)
        → receives k k J ≡ false → first_reply k (history J) ≡ None) }
    ensures late { OfCarried (λ given J. (k later : ℕ) → fate_of k given ≡ Some (fate.Late later)
        → k + later ≤ length given → receives k (k + later) J ≡ true → IsSome (first_reply k (history J))) }
    // its receiver was stopped as it fell due
    ensures late_cut_off { OfCarried (λ given J. (k later : ℕ) → fate_of k given ≡ Some (fate.Late later)
        → receives k (k + later) J ≡ false → first_reply k (history J) ≡ None) }
    ensures not_yet { OfCarried (λ given J. (k later : ℕ) → fate_of k given ≡ Some (fate.Late later)
        → length given < k + later → first_reply k (history J) ≡ None) }
{}

/// The messages that are due with message n are just the late ones that are so many numbers before it, in
/// rising order.
pub fn late_messages_fall_due()
    ensures just { (given : List Fate) (n j : ℕ) → Contains (due given n) j
        ↔ ((k : ℕ) × (fate_of j given ≡ Some (fate.Late k)) × (j + k ≡ n)) }
    ensures rising { (given : List Fate) (n : ℕ) → IsStrictlyIncreasing (due given n) }
{}

/// Late messages wait in the order in which they fall due. As a message more is sent, it is kept if it is
/// late, and those due with it are taken one by one, and delivered or, where the receiver is stopped, lost:
/// then just those wait that are still to come, those taken are the ones that are due, and the journal has
/// the fates, with this one.
pub fn late_messages_wait()
    ensures none { IsWaiting [] 0 [] }
    ensures sent_before { (given : List Fate) (last : ℕ) (late : List Late) → IsWaiting given last late
        → AreSentBefore (last + 1) late }
    ensures begun { (now : ℕ) (late : List Late) → AreTaken now late [] late }
    ensures further { (now : ℕ) (late taken rest left : List Late) (l : Late) → AreTaken now late taken rest
        → IsTaken now rest (Some l) left → AreTaken now late (taken ++ l ∷ []) left }
    ensures delivered { (taken : List Late) (l : Late) (J K : List LaneEvent) (r : NotedReply)
        → AreDelivered (numbers taken) J K → is_cut_off l.number K ≡ false
        → AreDelivered (numbers (taken ++ l ∷ [])) J (Delivered l.number r ∷ K) }
    ensures passed_over { (taken : List Late) (l : Late) (J K : List LaneEvent)
        → AreDelivered (numbers taken) J K → is_cut_off l.number K ≡ true
        → AreDelivered (numbers (taken ++ l ∷ [])) J K }
    ensures waiting { OfTaken (λ given last late f taken rest. IsWaiting (given ++ f ∷ []) (last + 1) rest) }
    ensures taken { OfTaken (λ given last late f taken rest. numbers taken ≡ due (given ++ f ∷ []) (last + 1)) }
    ensures carried { OfTaken (λ given last late f taken rest. (J after K : List LaneEvent)
        (version sender receiver : ℕ) (body : NotedBody) → IsCarried given J
        → IsDealt (met (stopped receiver (history J)) f) (last + 1)
        (Sent (last + 1) version sender receiver body ∷ J) after
        → AreDelivered (numbers taken) after K → IsCarried (given ++ f ∷ []) K) }
{}
