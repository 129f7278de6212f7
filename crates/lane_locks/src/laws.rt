//! What the calls of a lane are in a segment, and what marks tell of their numbers; no function here does anything.

ghost use Rattle.std.specs.Prelude.{◌≡◌, ℕ, Option, Some, ◌+◌, ◌^◌, ◌<◌, List, length};
ghost use Rattle.cluster_states.specs.declared.cluster_state.ClusterState.{ClusterState};
ghost use Rattle.ideal_nodes.specs.Placement.{IsOwner};
ghost use Rattle.messages.specs.declared.outcome.Outcome.{Outcome};
ghost use Rattle.lane_keeping.specs.Tidings.{last_state};
ghost use Rattle.lane_calls.specs.declared.answers.Hear.{Hear};
ghost use Rattle.lane_calls.specs.declared.answers.Begin.{Begin};
ghost use Rattle.lane_calls.specs.declared.answers.Advance.{Advance};
ghost use Rattle.lane_calls.specs.LaneValues.{LaneValue, IsHearing, Closes};
ghost use Rattle.lane_calls.specs.Lines.{FeedLine, Lines};
ghost use Rattle.lane_core.specs.Advancing.{IsAdvance};
ghost use Rattle.lane_calls.specs.Segments.{IsNext, BeginsAs, IsCall};
ghost use Rattle.lane_locks.specs.Powers.{powers, StandsOnce};

/// Each call of a lane is a call of a segment, whatever it answers: the owner hears the newest state, a line of which it is
/// the turn begins, its operation goes on, and is closed.
pub fn lanes_call()
    ensures hear { (feeders : ℕ) (lines : Lines) (v w : LaneValue) (owner : ℕ) (state : ClusterState) (answer : Hear)
        → last_state v.journal ≡ Some state → IsOwner v.lane state owner → IsHearing owner v w answer
        → IsCall feeders lines v w }
    ensures begin { (feeders : ℕ) (lines : Lines) (v w : LaneValue) (line : FeedLine) (answer : Begin)
        → IsNext feeders lines line v.journal → BeginsAs line line.via v w answer → IsCall feeders lines v w }
    ensures advance { (feeders : ℕ) (lines : Lines) (v w : LaneValue) (line : ℕ) (answer : Advance)
        → IsAdvance line v w answer → IsCall feeders lines v w }
    ensures close { (feeders : ℕ) (lines : Lines) (v w : LaneValue) (line : ℕ) (outcome : Outcome)
        → Closes line outcome v w → IsCall feeders lines v w }
{}

/// So many numbers, whose powers of two add up to one less than the power of their count, are the numbers below the
/// count, each once.
pub fn powers_stand_once()
    ensures { (ns : List ℕ) → powers ns + 1 ≡ 2 ^ length ns → (k : ℕ) → k < length ns → StandsOnce k ns }
{}
