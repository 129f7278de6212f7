//! What every life of a lane says of its journal; no function here does anything.

ghost use Rattle.std.specs.Prelude.{◌≡◌, ◌⊎◌, ℕ, true, List, [], ◌∷◌, Some, IsSome};
ghost use Rattle.bucket_ids.specs.Buckets.{Low, has_key};
ghost use Rattle.carriers.specs.declared.fate.Fate.{Fate};
ghost use Rattle.lane_journals.specs.KeptJournals.{IsLegal};
ghost use Rattle.lane_journals.specs.Meanings.{history};
ghost use Rattle.lane_journals.specs.Places.{published_states};
ghost use Rattle.lane_journals.specs.declared.event.LaneEvent.{LaneEvent};
ghost use Rattle.lane_keeping.specs.LaneKeeping.{setting_of};
ghost use Rattle.lane_keeping.specs.Lines.{IsFresh};
ghost use Rattle.lane_keeping.specs.Tidings.{last_state};
ghost use Rattle.lane_calls.specs.LaneValues.{LaneValue};
ghost use Rattle.lane_calls.specs.Lines.{FeedLine, Lines, AreRising};
ghost use Rattle.lane_calls.specs.Segments.{IsAmong, IsSegment};
ghost use Rattle.lane_lives.specs.declared.setting.Setting.{Setting};
ghost use Rattle.lane_lives.specs.Lives.{Deed, Runs, Feeds, Does, IsLife, lines_of, states_in, newest_in, deed_events};
ghost use Rattle.lane_calls.specs.Readings.{outcome_in, told_events};
ghost use Rattle.lane_lives.specs.Serving.{IsServing};
ghost use Rattle.lane_lives.specs.Rested.{RestsIn, IsCovered};
ghost use Rattle.lane_calls.specs.Upkept.{HaveRun};

use lane_calls::laws::{lines_alone_grow, segments_grow};

/// What a lane is told of states and nodes is what its journal says: the events of states and nodes are those of
/// its deeds, in their order, and of no other cause. A stop of a stopped node, and a start of one that runs, has
/// none. So they are the same in all lanes of a session.
pub fn states_follow_deeds()
    ensures events { (s : Setting) (lane : Low) (deeds : List Deed) (J : List LaneEvent) → IsLife s lane deeds J
        → told_events J ≡ deed_events s deeds }
    ensures states { (s : Setting) (lane : Low) (deeds : List Deed) (J : List LaneEvent) → IsLife s lane deeds J
        → published_states J ≡ states_in s deeds }
    ensures newest { (s : Setting) (lane : Low) (deeds : List Deed) (J : List LaneEvent) → IsLife s lane deeds J
        → last_state J ≡ Some (newest_in s deeds) }
{}

/// A line that runs alone, and had no event before, is a segment of one line: whatever is said of segments is said of it.
pub fn lines_alone_are_segments()
    ensures { (s : Setting) (lane : Low) (feeders : ℕ) (line : FeedLine) (J K : List LaneEvent)
        → IsFresh (history J) line.number → IsLegal (setting_of lane s.rules) K
        → Does s lane (Runs line) J K → Does s lane (Feeds feeders (line ∷ []) []) J K }
{
    lines_alone_grow();
}

/// A lane that serves does so after a segment of further lines, as soon as no operation is under way there, whatever lines were
/// left without an answer.
pub fn segments_serve()
    ensures { (s : Setting) (planned : List Fate) (lane : ℕ) (deeds : List Deed) (v w : LaneValue) (feeders : ℕ)
        (lines left : Lines) → IsServing s planned lane deeds v → IsSegment feeders lines v w → w.under_way ≡ []
        → AreRising (lines_of (Feeds feeders lines left ∷ deeds))
        → ((line : FeedLine) → IsAmong lines line → IsAmong left line ⊎ IsSome (outcome_in line.number w.journal))
        → IsServing s planned lane (Feeds feeders lines left ∷ deeds) w }
{
    segments_grow();
}

/// At rest, each key of the lane is covered, where all nodes run that serve.
pub fn lanes_at_rest_are_covered()
    ensures { (s : Setting) (lane : Low) (J : List LaneEvent) → IsLegal (setting_of lane s.rules) J → RestsIn s lane J
        → HaveRun J → (key : ℕ) → has_key lane key ≡ true → IsCovered key J }
{}
