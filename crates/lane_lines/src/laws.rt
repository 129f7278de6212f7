//! Laws of the rounds that are run for the operation of a line; no function here does anything.

ghost use Rattle.std.specs.Prelude.{◌≡◌, ◌<◌, ℕ, List, Option, None};
ghost use Rattle.stamps.specs.declared.stamp.Stamp.{Stamp};
ghost use Rattle.carriers.specs.declared.fate.Fate.{Fate};
ghost use Rattle.messages.specs.declared.operation.Operation.{Operation};
ghost use Rattle.distributor_part.specs.Steps.{BeginsRound};
ghost use Rattle.lane_journals.specs.Readers.{Journal, sent};
ghost use Rattle.operation_keeping.specs.Wants.{IsRunSince, IsCutRunSince};
ghost use Rattle.round_keeping.specs.declared.round_run.RoundRun.{RoundRun};
ghost use Rattle.round_keeping.specs.declared.round_run.RoundEnd.{RoundEnd};
ghost use Rattle.round_keeping.specs.RoundRuns.{NoneRuns, IsRunning, IsRunBy, Begins, IsWholeRun, IsCutShort};
ghost use Rattle.lane_states.specs.declared.lane_state.LaneState.{LaneState};
ghost use Rattle.lane_states.specs.LaneStates.{journal_of, IsKept, part_of};
ghost use Rattle.lane_lines.specs.RoundLines.{IsBegunFor, OfWaited};

use lane_keeping::laws::owners_act;

/// The round that begins for the operation of a line is what the line wants. Where an operation waits for a round, all
/// that the round sends is what its line wants, and so is the round's end, be it run to its end or cut off.
pub fn rounds_are_wanted()
    ensures begun { (c e : LaneState) (d key : ℕ) (run : RoundRun) → IsKept c → NoneRuns (journal_of c)
        → Begins c.lane (journal_of c) (journal_of e) d key run
        → BeginsRound (part_of c d) (part_of e d) key run.round.row run.round.receivers
        → (line : ℕ) (o : Operation) (stamp : Option Stamp) (from : Journal)
        → IsBegunFor from c.lane (journal_of c) run line o stamp
        → IsRunSince c.lane c.rules line o from (journal_of c) (journal_of e) }
    ensures whole { (c e : LaneState) (run : RoundRun) (end : RoundEnd) (given now : List Fate)
        → IsRunning c.lane (journal_of c) run → IsRunBy (part_of c run.distributor) run
        → IsWholeRun c.lane run end given now c.last e.last c.late.late e.late.late (journal_of c) (journal_of e)
        → (from : Journal) → ((n : ℕ) → c.last < n → sent n from ≡ None)
        → OfWaited c.lane (journal_of c) run
        (λ line o. IsRunSince c.lane c.rules line o from (journal_of c) (journal_of e)) }
    ensures cut { (c e : LaneState) (run : RoundRun) (given now : List Fate)
        → IsRunning c.lane (journal_of c) run → IsRunBy (part_of c run.distributor) run
        → IsCutShort c.lane run given now c.last e.last c.late.late e.late.late (journal_of c) (journal_of e)
        → (from : Journal) → ((n : ℕ) → c.last < n → sent n from ≡ None)
        → OfWaited c.lane (journal_of c) run
        (λ line o. IsCutRunSince c.lane c.rules line o from (journal_of c) (journal_of e)) }
{
    owners_act();
}
