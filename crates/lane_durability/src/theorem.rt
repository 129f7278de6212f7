//! The law on the versions below a version, and the durability theorem; no function here does anything.

ghost use Rattle.std.specs.Prelude.{◌≡◌, ℕ, List};
ghost use Rattle.lane_journals.specs.Below.{below};
ghost use Rattle.lane_journals.specs.Meanings.{history};
ghost use Rattle.lane_journals.specs.Places.{Setting};
ghost use Rattle.lane_journals.specs.KeptJournals.{IsLegal};
ghost use Rattle.lane_journals.specs.declared.event.LaneEvent.{LaneEvent};
ghost use Rattle.lane_journals.specs.ActiveCopies.{InAll};
ghost use Rattle.lane_journals.specs.States.{state_of};
ghost use Rattle.lane_durability.specs.Laws.{InAllKept};
ghost use Rattle.lane_durability.specs.KeptBelow.{kept_below};
ghost use Rattle.lane_durability.specs.Durability.{VersionsStandAlone, IsFound, IsDurable, LaterIsNewer, ReadsAreFresh, EnoughReadsAreCurrent, SeenIsCurrent, SawNothingOlder, CountedOnce, SearchIsCurrent, LateAreOutside, FewAreOutside, AnsweredBefore};

/// The events of the versions below a version are a legal journal, whose stores are what each node held
/// as it first took that version or a greater one. So what was acknowledged below a published version
/// is held by a node that serves under it, as that node takes it. The same holds of journals as they are
/// kept, with places, names and outcomes.
pub fn versions_below()
    ensures law { InAll VersionsStandAlone }
    ensures found { InAll (λ acks P J. IsFound P J) }
    ensures kept { (S : Setting) (J : List LaneEvent) → IsLegal S J → (v : ℕ) → IsLegal S (kept_below v J) }
    ensures means { (S : Setting) (J : List LaneEvent) → IsLegal S J → (v : ℕ)
        → history (kept_below v J) ≡ below v (history J) }
{}

/// The durability theorem: what was acknowledged, or something newer, is in enough node stores; an
/// acknowledged operation that began after another's acknowledgement is newer; and an operation that read
/// at enough nodes saw nothing older, as long as it is open and as it is closed. Once a version is opened,
/// what smaller versions sent is taken outside its nodes alone, and there are fewer than enough known nodes
/// there; so no operation of a smaller version is acknowledged unless enough answers were given before.
pub fn durability()
    ensures durable { InAll (λ acks P J. IsDurable acks J) }
    ensures later { InAll (λ acks P J. LaterIsNewer J) }
    ensures fresh { InAll (λ acks P J. ReadsAreFresh J) }
    ensures current { InAll (λ acks P J. EnoughReadsAreCurrent acks J) }
    ensures seen { InAll (λ acks P J. SeenIsCurrent acks J) }
    ensures closed { InAll (λ acks P J. SawNothingOlder acks J) }
    ensures late { InAll LateAreOutside }
    ensures few { InAll FewAreOutside }
    ensures before { InAll AnsweredBefore }
{}

/// The durability theorem of journals as they are kept.
pub fn kept_journals_are_durable()
    ensures durable { InAllKept (λ S J. IsDurable S.acks (history J)) }
    ensures later { InAllKept (λ S J. LaterIsNewer (history J)) }
    ensures fresh { InAllKept (λ S J. ReadsAreFresh (history J)) }
    ensures current { InAllKept (λ S J. EnoughReadsAreCurrent S.acks (history J)) }
    ensures seen { InAllKept (λ S J. SeenIsCurrent S.acks (history J)) }
    ensures closed { InAllKept (λ S J. SawNothingOlder S.acks (history J)) }
    ensures before { InAllKept (λ S J. AnsweredBefore S.acks (state_of (history J)) (history J)) }
    ensures apart { InAllKept (λ S J. CountedOnce (history J)) }
    ensures held { InAllKept (λ S J. SearchIsCurrent (history J)) }
{}

/// Regions of one version have no key in common, and a node that is at the version of its region holds
/// there at least all that was acknowledged under that version and smaller ones.
pub fn regions_count_once()
    ensures apart { InAll (λ acks P J. CountedOnce J) }
    ensures current { InAll (λ acks P J. SearchIsCurrent J) }
{}
