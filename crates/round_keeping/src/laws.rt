//! Laws of the round that is under way in a lane; no function here does anything.

ghost use Rattle.std.specs.Prelude.{◌≡◌, ◌≢◌, ◌<◌, ◌+◌, ◌&&◌, ℕ, Bool, true, false, List, ◌∷◌, None, Some};
ghost use Rattle.node_sets.specs.Members.{has_node, size_of};
ghost use Rattle.cluster_states.specs.declared.cluster_state.ClusterState.{ClusterState};
ghost use Rattle.cluster_states.specs.Publishing.{serves};
ghost use Rattle.bucket_db.specs.declared.row.Row.{Row};
ghost use Rattle.messages.specs.declared.message.Message.{Message};
ghost use Rattle.messages.specs.declared.reply.Reply.{Reply};
ghost use Rattle.messages.specs.declared.noted.NotedReply.{NotedReply};
ghost use Rattle.messages.specs.declared.decision.Decision.TheVariants.{RoundBegun, RoundEnded};
ghost use Rattle.node_model.specs.Nodes.{Node};
ghost use Rattle.merge_rounds.specs.Rounds.{RoundState, new_round, did_show, IsNext, after_send, after_read, IsAfterApply};
ghost use Rattle.lane_journals.specs.Sets.{count};
ghost use Rattle.lane_journals.specs.Readers.{opened, stopped};
ghost use Rattle.lane_journals.specs.Endings.{RoundFellShort, UnionFellShort};
ghost use Rattle.lane_journals.specs.Meanings.{history, entry_at};
ghost use Rattle.lane_journals.specs.KeptJournals.{IsLegalStep};
ghost use Rattle.lane_journals.specs.declared.event.LaneEvent.TheVariants.{Delivered, Returned, Decided};
ghost use Rattle.lane_keeping.specs.Flights.{Brings, IsWhole};
ghost use Rattle.lane_keeping.specs.Replaying.{sending, delivered};
ghost use Rattle.lane_keeping.specs.LaneKeeping.{setting_of};
ghost use Rattle.lane_keeping.specs.Asking.{IsTakenBy};
ghost use Rattle.lane_keeping.specs.Laws.{OfKept};
ghost use Rattle.lane_keeping.specs.RoundKeeping.{origin_in, KnowsAnswers, KnowsRound, NoRound, IsAwaited};
ghost use Rattle.round_keeping.specs.Laws.{OfRound, OfAnswers, OfBegun, IsOfNoRound, IsOfOther, AreUnshown, HasTooFew};

/// Under a state that isn't opened no round is under way. Where none is, the round that the owner's part begins
/// may begin, and nothing was sent in it.
pub fn rounds_begin()
    ensures unopened { OfKept (λ lane rules J newest last nodes parts. (s : ClusterState)
        → opened s.version (history J) ≡ false → NoRound J s) }
    ensures legal { OfBegun (λ lane rules J d s bucket receivers.
        IsLegalStep (setting_of lane rules) J (Decided d s.version (RoundBegun bucket receivers))) }
    ensures knows { OfBegun (λ lane rules J d s bucket receivers. (readers : ℕ)
        → ((n : ℕ) → has_node readers n ≡ serves s n)
        → KnowsRound lane (Decided d s.version (RoundBegun bucket receivers) ∷ J) d s
        (new_round (origin_in lane d s) bucket readers receivers)) }
{}

/// The message that comes next in a round may be sent with the next number, and is waited for then.
pub fn rounds_send()
    ensures legal { OfRound (λ lane rules J last nodes d s r. (m : Message) → IsNext r (Some m)
        → IsLegalStep (setting_of lane rules) J (sending (last + 1) m)) }
    ensures brings { OfRound (λ lane rules J last nodes d s r. (m : Message) → IsNext r (Some m)
        → Brings (λ t. entry_at t J) m.body) }
    ensures whole { OfRound (λ lane rules J last nodes d s r. (m : Message) → IsNext r (Some m)
        → IsWhole m.body) }
    ensures knows { OfRound (λ lane rules J last nodes d s r. (m : Message) → IsNext r (Some m)
        → KnowsRound lane (sending (last + 1) m ∷ J) d s (after_send r (Some m))) }
    ensures awaited { OfRound (λ lane rules J last nodes d s r. (m : Message) → IsNext r (Some m)
        → IsAwaited (sending (last + 1) m ∷ J) (after_send r (Some m)) (last + 1) m) }
{}

/// A delivery changes nothing in a round, be it late or a second one, nor does the return of another message,
/// nor what is sent and belongs to no round.
/// The message that is waited for waits on over the delivery of another one.
pub fn rounds_wait()
    ensures delivered { OfRound (λ lane rules J last nodes d s r. (number : ℕ) (y : NotedReply)
        → KnowsRound lane (Delivered number y ∷ J) d s r) }
    ensures returned { OfRound (λ lane rules J last nodes d s r. (number : ℕ) → IsOfOther J s r.row number
        → KnowsRound lane (Returned number ∷ J) d s r) }
    ensures sent { OfRound (λ lane rules J last nodes d s r. (number : ℕ) (m : Message) → IsOfNoRound m.body
        → KnowsRound lane (sending number m ∷ J) d s r) }
    ensures awaited { OfRound (λ lane rules J last nodes d s r. (number other : ℕ) (m : Message) (y : NotedReply)
        → IsAwaited J r number m → other ≢ number → IsAwaited (Delivered other y ∷ J) r number m) }
    ensures answers { OfAnswers (λ lane rules J s r. (number : ℕ) (y : NotedReply)
        → KnowsAnswers (Delivered number y ∷ J) s r) }
{}

/// The message that is waited for is taken by its node, which isn't stopped, and the reply is returned and told;
/// or none is.
pub fn rounds_hear()
    ensures read { OfRound (λ lane rules J last nodes d s r. (number : ℕ) (m : Message) (y : Reply)
        (now : List Node) → IsAwaited J r number m → stopped m.receiver (history J) ≡ false → IsTakenBy nodes now m y
        → r.applies ≡ 0
        → KnowsRound lane (Returned number ∷ delivered number y ∷ J) d s (after_read r m.receiver (Some y))) }
    ensures applied { OfRound (λ lane rules J last nodes d s r. (number : ℕ) (m : Message) (y : Reply)
        (now : List Node) (after : RoundState) → IsAwaited J r number m → stopped m.receiver (history J) ≡ false
        → IsTakenBy nodes now m y
        → 0 < r.applies → IsAfterApply r after m.receiver (Some y)
        → KnowsRound lane (Returned number ∷ delivered number y ∷ J) d s after) }
    ensures unread { OfRound (λ lane rules J last nodes d s r. (n : ℕ)
        → KnowsRound lane J d s (after_read r n None)) }
    ensures unapplied { OfRound (λ lane rules J last nodes d s r. (n : ℕ) (after : RoundState)
        → IsAfterApply r after n None → KnowsRound lane J d s after) }
{}

/// A round may end at any time with the receivers that answered its union; then none is under way, and
/// what its answers were is still known.
pub fn rounds_end()
    ensures legal { OfRound (λ lane rules J last nodes d s r. (complete : ℕ)
        → ((n : ℕ) → has_node complete n ≡ has_node r.holders n)
        → IsLegalStep (setting_of lane rules) J (Decided d s.version (RoundEnded r.row complete))) }
    ensures over { OfRound (λ lane rules J last nodes d s r. (complete : ℕ)
        → NoRound (Decided d s.version (RoundEnded r.row complete) ∷ J) s) }
    ensures answers { OfRound (λ lane rules J last nodes d s r. (complete : ℕ)
        → KnowsAnswers (Decided d s.version (RoundEnded r.row complete) ∷ J) s r) }
{}

/// Where a reader wasn't shown, or the row has too few complete members after all, the operation that the
/// round was for falls short, and names one that didn't answer. Sets and tests are counted alike.
pub fn rounds_fall_short()
    ensures reads { OfAnswers (λ lane rules J s r. (missing shown serving absent : ℕ)
        → AreUnshown s r missing shown → ((n : ℕ) → has_node serving n ≡ serves s n)
        → has_node missing absent ≡ true
        → RoundFellShort (history J) s.version r.row (size_of shown) (size_of serving) absent) }
    ensures counted { OfAnswers (λ lane rules J s r. (absent : ℕ)
        → serves s absent ≡ true → did_show absent r.shown ≡ false
        → RoundFellShort (history J) s.version r.row (count (λ n. serves s n && did_show n r.shown)) (count (serves s))
        absent) }
    ensures applies { OfAnswers (λ lane rules J s r. (key absent : ℕ) (row : Row)
        → HasTooFew rules.acks J s r key row absent
        → UnionFellShort (setting_of lane rules) J s.version key r.row (size_of row.complete) rules.acks absent) }
    ensures sizes { (set : ℕ) (test : ℕ → Bool) → ((n : ℕ) → has_node set n ≡ test n) → size_of set ≡ count test }
{}
