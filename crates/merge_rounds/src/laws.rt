//! Laws of rounds; no function here does anything.

ghost use Rattle.std.specs.Prelude.{◌≡◌, ℕ, true, List, [], ◌∷◌, Option, Some};
ghost use Rattle.bucket_ids.specs.Buckets.{Low};
ghost use Rattle.node_sets.specs.Members.{has_node};
ghost use Rattle.messages.specs.declared.message.Message.{Message};
ghost use Rattle.messages.specs.declared.message.Origin.{Origin};
ghost use Rattle.messages.specs.declared.reply.Reply.{Reply};
ghost use Rattle.merge_rounds.specs.Rounds.{RoundState, new_round, IsRead, after_send, after_read, HaveAllShown, is_answer};
ghost use Rattle.merge_rounds.specs.Runs.{HasRead};

/// Whatever each reader replies to its Read, the round's union is the join of all answers so far, and once
/// it is given each reader has answered.
pub fn rounds_join_all_answers()
    ensures begins { (replies : ℕ → Option Reply) (origin : Origin) (row : Low) (readers receivers : ℕ)
        → HasRead replies [] (new_round origin row readers receivers) }
    ensures goes_on { (replies : ℕ → Option Reply) (asked : List ℕ) (r : RoundState) (m : Message)
        → HasRead replies asked r → IsRead r m
        → HasRead replies (m.receiver ∷ asked)
        (after_read (after_send r (Some m)) m.receiver (replies m.receiver)) }
    ensures whole { (replies : ℕ → Option Reply) (asked : List ℕ) (r : RoundState)
        → HasRead replies asked r → HaveAllShown r.readers r.shown
        → (node : ℕ) → has_node r.readers node ≡ true → is_answer (replies node) ≡ true }
{}
