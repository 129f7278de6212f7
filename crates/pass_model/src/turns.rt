//! Laws of a pass that goes turn by turn; no function here does anything.

ghost use Rattle.std.specs.Prelude.{◌≡◌, ◌+◌, ℕ, false, List, Some};
ghost use Rattle.pass_model.specs.Rows.{Settings};
ghost use Rattle.pass_model.specs.Passes.{Passes, Resends, World};
ghost use Rattle.pass_model.specs.Resting.{AreSettings};
ghost use Rattle.pass_model.specs.Turns.{Finished, ResendingDelete, Rounding, Stand, stand, turn, turn_at, turns, Unanswered};
ghost use Rattle.pass_model.specs.Messages.{after_message, is_round, Message, message_of};
ghost use Rattle.pass_model.specs.Orders.{AreInOrder, AreOfBuckets};

/// Turns from the round of the first row to the end are a pass that nothing disturbs. Where they begin with what is
/// sent again, the pass is behind that.
pub fn turns_are_a_pass()
    ensures pass { (s : Settings) (before after : World) (many : ℕ) → AreSettings s → AreInOrder s before.rows
        → turns s many (stand (Rounding 0) before) ≡ stand Finished after → Passes s before after }
    ensures resent { (s : Settings) (before after : World) (deletes : List Unanswered) (many : ℕ) → AreSettings s
        → AreInOrder s before.rows → AreOfBuckets deletes
        → turns s many (stand (ResendingDelete deletes) before) ≡ stand Finished after
        → (resent : World) × Resends s before resent × Passes s resent after }
{}

/// There are such turns from any nodes and rows.
pub fn turns_end()
    ensures pass { (s : Settings) (before : World)
        → (many : ℕ) × (after : World) × (turns s many (stand (Rounding 0) before) ≡ stand Finished after) }
    ensures resent { (s : Settings) (before : World) (deletes : List Unanswered)
        → (many : ℕ) × (after : World) × (turns s many (stand (ResendingDelete deletes) before) ≡ stand Finished after) }
{}

/// Turns follow each other. One that is no round changes the nodes by the message that it sends, if it sends one, and
/// then it changes no row.
pub fn turns_follow()
    ensures one { (s : Settings) (x : Stand) → turns s 1 x ≡ turn_at s x.doing x.world }
    ensures more { (s : Settings) (m n : ℕ) (x : Stand) → turns s (m + n) x ≡ turns s n (turns s m x) }
    ensures nodes { (s : Settings) (x : Stand) → is_round x.doing ≡ false
        → (turn s x).world.nodes ≡ after_message (message_of s x.doing x.world) x.world.nodes }
    ensures rows { (s : Settings) (x : Stand) (m : Message) → message_of s x.doing x.world ≡ Some m
        → (turn s x).world.rows ≡ x.world.rows }
{}
