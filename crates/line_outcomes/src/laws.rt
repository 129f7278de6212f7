//! The laws of outcomes; no function here does anything.

ghost use Rattle.std.specs.Prelude.{◌≡◌, ℕ, List};
ghost use Rattle.bucket_ids.specs.Buckets.{Low};
ghost use Rattle.messages.specs.declared.operation.Operation.{Operation};
ghost use Rattle.messages.specs.declared.outcome.Outcome.{Outcome};
ghost use Rattle.distributor_part.specs.declared.rules.Rules.{Rules};
ghost use Rattle.lane_journals.specs.Readers.{Journal};
ghost use Rattle.lane_journals.specs.KeptJournals.{IsLegal};
ghost use Rattle.lane_journals.specs.declared.event.LaneEvent.{LaneEvent};
ghost use Rattle.lane_keeping.specs.LaneKeeping.{setting_of};
ghost use Rattle.operation_keeping.specs.Wants.{IsEndSince};
ghost use Rattle.line_outcomes.specs.Outcomes.{FallsShortNow, IsOutcome};

/// With whatever outcome an operation wants to end, that is its outcome; where it isn't prepared and tells of too few, it is
/// short of them as the journal stands.
pub fn ends_are_outcomes()
    ensures { (lane : Low) (rules : Rules) (line : ℕ) (o : Operation) (from : Journal) (J : List LaneEvent) (x : Outcome)
        → IsLegal (setting_of lane rules) J → FallsShortNow (setting_of lane rules) J line x
        → IsEndSince lane rules line o from J x → IsOutcome rules.acks line o from J x }
{}

/// An operation has one outcome at most.
pub fn outcomes_agree()
    ensures { (acks line : ℕ) (o : Operation) (from : Journal) (J : List LaneEvent) (x y : Outcome)
        → IsOutcome acks line o from J x → IsOutcome acks line o from J y → x ≡ y }
{}
