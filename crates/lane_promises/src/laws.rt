//! What every lane of a session promises; no function here does anything.

ghost use Rattle.std.specs.Prelude.{◌≡◌, ◌≤◌, ◌<◌, ℕ, true, false, List, ◌∷◌, ◌++◌, Some, IsSome};
ghost use Rattle.bucket_ids.specs.Buckets.{Low, has_key};
ghost use Rattle.node_sets.specs.Members.{has_node};
ghost use Rattle.carriers.specs.declared.fate.Fate.{Fate};
ghost use Rattle.distributor_part.specs.declared.rules.Rules.{Rules};
ghost use Rattle.messages.specs.declared.outcome.Outcome.TheVariants.{OwnedElsewhere, TooFew};
ghost use Rattle.lane_journals.specs.Readers.{held};
ghost use Rattle.lane_journals.specs.Meanings.{history};
ghost use Rattle.lane_journals.specs.KeptJournals.{IsLegal};
ghost use Rattle.lane_journals.specs.declared.event.LaneEvent.{LaneEvent};
ghost use Rattle.lane_journals.specs.declared.event.LaneEvent.TheVariants.{Heard};
ghost use Rattle.lane_keeping.specs.LaneKeeping.{setting_of};
ghost use Rattle.lane_carriage.specs.Carriage.{IsCarried};
ghost use Rattle.lane_calls.specs.LaneValues.{LaneValue};
ghost use Rattle.lane_lives.specs.Settings.{IsSetting};
ghost use Rattle.lane_lives.specs.declared.setting.Setting.{Setting};
ghost use Rattle.lane_promises.specs.Hearings.{deaf_in, HeardNewest};
ghost use Rattle.lane_lives.specs.Lives.{Deed, Maintains, IsLife, lines_of, AreAlone, newest_in};
ghost use Rattle.lane_calls.specs.Readings.{outcome_in};
ghost use Rattle.lane_calls.specs.Lines.{FeedLine, IsNone};
ghost use Rattle.lane_calls.specs.LineEvents.{StartsLine};
ghost use Rattle.lane_calls.specs.Segments.{IsAmong};
ghost use Rattle.lane_lives.specs.Rested.{IsCovered, AreCalm};
ghost use Rattle.lane_lives.specs.Upkeep.{SpanStands};
ghost use Rattle.lane_lives.specs.declared.spans.UpkeepSpan.{UpkeepSpan};
ghost use Rattle.upkeep_spans.specs.declared.answers.Upkeep.TheVariants.{Rested};
ghost use Rattle.lane_promises.specs.Promises.{IsComplete, KeepsWrites, WasRefused, LineFellShort, LineFellShortBeside, NoneIsLeft};

use lane_carriage::laws::messages_are_carried;
use lane_completeness::laws::{
    answered_lines_are_undisturbed, heard_operations_are_decided, replies_return_in_turn,
    too_few_has_its_cause, undisturbed_operations_are_decided, undisturbed_writes_end_well,
    unheard_messages_are_lost,
};
use lane_durability::theorem::kept_journals_are_durable;
use lane_lives::laws::lanes_at_rest_are_covered;

/// A line that goes to the owner under the newest state isn't refused; and if no message that was sent between its beginning and
/// its end is lost, it comes to what nodes answer, and a put or a remove without condition to its acknowledgement, unless memory
/// was wanted. So does a line of a segment, whatever others do beside it.
pub fn lanes_are_complete()
    ensures { (s : Setting) → IsSetting s → (lane : Low) (v : LaneValue) → IsLegal (setting_of lane s.rules) v.journal
        → IsCarried v.given v.journal → IsComplete s lane v }
{
    undisturbed_operations_are_decided();
    undisturbed_writes_end_well();
    heard_operations_are_decided();
    answered_lines_are_undisturbed();
    replies_return_in_turn();
    messages_are_carried();
}

/// The durability theorem holds in a lane.
pub fn lanes_are_durable()
    ensures { (lane : Low) (rules : Rules) → 1 ≤ rules.acks → (J : List LaneEvent)
        → IsLegal (setting_of lane rules) J → KeepsWrites rules.acks (history J) }
{
    kept_journals_are_durable();
}

/// Who hears which state. A distributor that isn't deaf to the newest state holds it; and each hearing is of the
/// state that was published last, by a distributor that isn't deaf to it, or by the lane's owner under it.
pub fn hearings_follow_deeds()
    ensures hold { (s : Setting) (lane : Low) (deeds : List Deed) (J : List LaneEvent) → IsLife s lane deeds J
        → (d : ℕ) → d < 32 → has_node (deaf_in deeds) d ≡ false
        → held d (history J) ≡ Some (newest_in s deeds).version }
    ensures hear { (s : Setting) (lane : Low) (deeds : List Deed) (J : List LaneEvent) → IsLife s lane deeds J
        → (after before : List LaneEvent) (d version : ℕ) → J ≡ after ++ Heard d version ∷ before
        → HeardNewest s lane deeds before d version }
{}

/// A line of a later deed begins once each line of the earlier ones has its outcome, where feeders left none without one. Of
/// lines that feeders run at once says that `lines_come_in_order` of `lane_calls`.
pub fn deeds_come_in_order()
    ensures { (s : Setting) (lane : Low) (more deeds : List Deed) (J : List LaneEvent) → IsLife s lane (more ++ deeds) J
        → NoneIsLeft deeds → (earlier : FeedLine) → IsAmong (lines_of deeds) earlier → (n : ℕ) → IsNone n (lines_of deeds)
        → (after : List LaneEvent) (e : LaneEvent) (before : List LaneEvent) → J ≡ after ++ e ∷ before
        → StartsLine n e → IsSome (outcome_in earlier.number before) }
{}

/// A line that ended since another distributor owns the lane was refused at the distributor
/// that it names, which held a state under which that other one is the owner, and it isn't.
pub fn lines_are_refused_with_cause()
    ensures { (s : Setting) (lane : Low) (deeds : List Deed) (J : List LaneEvent) → IsLife s lane deeds J
        → IsLegal (setting_of lane s.rules) J → (number owner version : ℕ)
        → outcome_in number J ≡ Some (OwnedElsewhere owner version)
        → WasRefused lane (lines_of deeds) J number owner version }
{}

/// A line that got too few answers sent the absent node a message of the phase that ended it, of which nothing came
/// back but that the node took a newer version; where nothing came back at all, its fate loses it, or its receiver
/// was stopped as it was sent. Of a line that others went on beside that is so as it wanted to end.
pub fn lines_fall_short_with_cause()
    ensures alone { (s : Setting) → IsSetting s → (lane : Low) (deeds : List Deed) (J : List LaneEvent) (given : List Fate)
        → IsLife s lane deeds J → AreAlone deeds → IsLegal (setting_of lane s.rules) J → IsCarried given J
        → (number answered needed absent : ℕ) → outcome_in number J ≡ Some (TooFew answered needed absent)
        → LineFellShort given (lines_of deeds) J number answered needed absent }
    ensures beside { (s : Setting) → IsSetting s → (lane : Low) (deeds : List Deed) (J : List LaneEvent) (given : List Fate)
        → IsLife s lane deeds J → IsLegal (setting_of lane s.rules) J → IsCarried given J
        → (number answered needed absent : ℕ) → outcome_in number J ≡ Some (TooFew answered needed absent)
        → LineFellShortBeside given (lines_of deeds) J number answered needed absent }
{
    too_few_has_its_cause();
    replies_return_in_turn();
    unheard_messages_are_lost();
    messages_are_carried();
}

/// Behind an upkeep that rested each key of the lane is covered, whatever was done since, while no state was announced
/// and no node stopped.
pub fn rested_lanes_stay_covered()
    ensures { (s : Setting) (lane : Low) (more deeds : List Deed) (given : List Fate) (J K later : List LaneEvent)
        (span : UpkeepSpan) → IsLegal (setting_of lane s.rules) J → SpanStands s lane deeds given J span
        → span.answer ≡ Rested → AreCalm more
        → IsLife s lane (more ++ Maintains (Some span) ∷ deeds) K → J ≡ later ++ K
        → (key : ℕ) → has_key lane key ≡ true → IsCovered key K }
{
    lanes_at_rest_are_covered();
}
