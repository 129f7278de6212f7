//! What follows of the calls of a segment; no function here does anything.

ghost use Rattle.std.specs.Prelude.{◌≡◌, ◌⊎◌, ◌<◌, ◌≤◌, ◌++◌, ℕ, List, [], ◌∷◌, length, None, Some, IsSome, slice_get};
ghost use Rattle.bucket_ids.specs.Buckets.{Low};
ghost use Rattle.distributor_part.specs.declared.rules.Rules.{Rules};
ghost use Rattle.messages.specs.declared.outcome.Outcome.{Outcome};
ghost use Rattle.messages.specs.declared.outcome.Outcome.TheVariants.{NoMemory};
ghost use Rattle.lane_journals.specs.Readers.{Beginning, began};
ghost use Rattle.lane_journals.specs.Meanings.{history};
ghost use Rattle.lane_journals.specs.Places.{Setting};
ghost use Rattle.lane_journals.specs.KeptJournals.{IsLegal};
ghost use Rattle.lane_journals.specs.declared.event.LaneEvent.{LaneEvent};
ghost use Rattle.lane_journals.specs.declared.event.LaneEvent.TheVariants.{Closed};
ghost use Rattle.lane_keeping.specs.Lines.{IsNotOf};
ghost use Rattle.lane_keeping.specs.LaneKeeping.{setting_of};
ghost use Rattle.lane_calls.specs.declared.progress.UnderWay.{UnderWay};
ghost use Rattle.lane_calls.specs.LaneValues.{LaneValue, IsLaneValue};
ghost use Rattle.lane_calls.specs.Lines.{FeedLine, Lines, IsNone, IsCarriedOut};
ghost use Rattle.lane_calls.specs.Readings.{outcome_in};
ghost use Rattle.lane_calls.specs.Segments.{feeder_of, GaveOn, IsAmong, AreApart, IsNext, IsCall, IsSegment};
ghost use Rattle.lane_calls.specs.Courses.{GoesItsCourse, HasEnded, WantedEnd};
ghost use Rattle.lane_calls.specs.Growth.{IsLater, IsStep, Grows};
ghost use Rattle.lane_calls.specs.LineEvents.{StartsLine, answers};

/// By calls the lane's journal grows as `Grows` says, and stays legal; the lane, its rules, its types and what was planned are the same,
/// the carrier gave further fates behind those that it had given, and each operation that is under way is that of one of the lines, and
/// went its course. A call more goes on with it.
pub fn segments_grow()
    ensures grows { (feeders : ℕ) (lines : Lines) (first last : LaneValue) → IsSegment feeders lines first last
        → Grows feeders lines first.lane first.rules first.journal last.journal }
    ensures holds { (feeders : ℕ) (lines : Lines) (first last : LaneValue) → IsSegment feeders lines first last
        → IsLaneValue last }
    ensures same { (feeders : ℕ) (lines : Lines) (first last : LaneValue) → IsSegment feeders lines first last
        → (last.lane ≡ first.lane) × (last.rules ≡ first.rules) }
    ensures kept { (feeders : ℕ) (lines : Lines) (first last : LaneValue) → IsSegment feeders lines first last
        → (last.types ≡ first.types) × (last.planned ≡ first.planned) × (last.takes_plans ≡ first.takes_plans) }
    ensures gives { (feeders : ℕ) (lines : Lines) (first last : LaneValue) → IsSegment feeders lines first last
        → GaveOn last.given first.given }
    ensures own { (feeders : ℕ) (lines : Lines) (first last : LaneValue) → IsSegment feeders lines first last
        → (at : ℕ) (u : UnderWay) → slice_get last.under_way at ≡ Some u → GoesItsCourse lines first last u }
    ensures goes_on { (feeders : ℕ) (lines : Lines) (first last next : LaneValue) → IsSegment feeders lines first last
        → IsCall feeders lines last next → IsLaneValue next → IsSegment feeders lines first next }
{}

/// A line that is carried out alone, in its turn, makes the journal grow so; and what grew so twice grew so.
pub fn lines_alone_grow()
    ensures alone { (feeders : ℕ) (lines : Lines) (lane : Low) (rules : Rules) (line : FeedLine) (J K : List LaneEvent)
        → IsNext feeders lines line J → IsLegal (setting_of lane rules) K
        → IsCarriedOut lane rules line line.via J K → Grows feeders lines lane rules J K }
    ensures twice { (feeders : ℕ) (lines : Lines) (lane : Low) (rules : Rules) (I J K : List LaneEvent)
        → Grows feeders lines lane rules I J → Grows feeders lines lane rules J K
        → Grows feeders lines lane rules I K }
{}

/// The journal that grew begins with what it was, and each event that came is such a step where it came.
pub fn steps_stand()
    ensures later { (feeders : ℕ) (lines : Lines) (lane : Low) (rules : Rules) (J K : List LaneEvent)
        → Grows feeders lines lane rules J K → IsLater J K }
    ensures steps { (feeders : ℕ) (lines : Lines) (lane : Low) (rules : Rules) (J K : List LaneEvent)
        → Grows feeders lines lane rules J K → (after : List LaneEvent) (e : LaneEvent) (before : List LaneEvent)
        → K ≡ after ++ e ∷ before → length J ≤ length before → IsStep feeders lines lane rules before e }
{}

/// Of two lines of one feeder, and of two lines of one document, the earlier has its outcome before the later begins.
pub fn lines_come_in_order()
    ensures feeder { (feeders : ℕ) (lines : Lines) (lane : Low) (rules : Rules) (J K : List LaneEvent) → AreApart lines
        → Grows feeders lines lane rules J K → (earlier line : FeedLine) → IsAmong lines earlier → IsAmong lines line
        → feeder_of feeders earlier ≡ feeder_of feeders line → earlier.number < line.number
        → (after : List LaneEvent) (e : LaneEvent) (before : List LaneEvent) → K ≡ after ++ e ∷ before
        → length J ≤ length before → StartsLine line.number e → IsSome (outcome_in earlier.number before) }
    ensures document { (feeders : ℕ) (lines : Lines) (lane : Low) (rules : Rules) (J K : List LaneEvent) → AreApart lines
        → Grows feeders lines lane rules J K → (earlier line : FeedLine) → IsAmong lines earlier → IsAmong lines line
        → earlier.operation.id ≡ line.operation.id → earlier.number < line.number
        → (after : List LaneEvent) (e : LaneEvent) (before : List LaneEvent) → K ≡ after ++ e ∷ before
        → length J ≤ length before → StartsLine line.number e → IsSome (outcome_in earlier.number before) }
{}

/// No event that came has the number of another line.
pub fn others_have_no_event()
    ensures { (feeders : ℕ) (lines : Lines) (lane : Low) (rules : Rules) (J K : List LaneEvent)
        → Grows feeders lines lane rules J K → (n : ℕ) → IsNone n lines
        → (after : List LaneEvent) (e : LaneEvent) (before : List LaneEvent) → K ≡ after ++ e ∷ before
        → length J ≤ length before → IsNotOf n e }
{}

/// A line is closed with the outcome to which its course led: the one with which it wanted to end, since when others alone
/// did something, or NoMemory.
pub fn lines_go_their_courses()
    ensures ended { (feeders : ℕ) (lines : Lines) (lane : Low) (rules : Rules) (J K : List LaneEvent)
        → Grows feeders lines lane rules J K → (after : List LaneEvent) (n : ℕ) (x : Outcome) (before : List LaneEvent)
        → K ≡ after ++ Closed n x ∷ before → length J ≤ length before
        → (line : FeedLine) × IsAmong lines line × (line.number ≡ n) × HasEnded lane rules line before x }
    ensures wanted { (lane : Low) (rules : Rules) (line : FeedLine) (J : List LaneEvent) (x : Outcome)
        → HasEnded lane rules line J x → WantedEnd lane rules line J x ⊎ (x ≡ NoMemory) }
{}

/// In a legal journal one event at most closes or refuses a line, and one does where the line has an outcome; each line that
/// was begun has one where no operation is under way.
pub fn lines_are_answered_once()
    ensures once { (S : Setting) (J : List LaneEvent) → IsLegal S J → (n : ℕ) → answers n J ≤ 1 }
    ensures one { (S : Setting) (J : List LaneEvent) → IsLegal S J → (n : ℕ) → IsSome (outcome_in n J)
        → answers n J ≡ 1 }
    ensures none { (J : List LaneEvent) (n : ℕ) → outcome_in n J ≡ None → answers n J ≡ 0 }
    ensures idle { (v : LaneValue) → IsLaneValue v → v.under_way ≡ [] → (n : ℕ) (begin : Beginning)
        → began n (history v.journal) ≡ Some begin → IsSome (outcome_in n v.journal) }
{}
