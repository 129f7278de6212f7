//! The laws of completeness; no function here does anything.

ghost use Rattle.std.specs.Prelude.{◌≡◌, ◌≤◌, ◌++◌, ℕ, false, not, List, [], Option, Some, None, length};
ghost use Rattle.bucket_ids.specs.Buckets.{Low};
ghost use Rattle.stamps.specs.declared.stamp.Stamp.{Stamp};
ghost use Rattle.carriers.specs.Fates.{delivered};
ghost use Rattle.carriers.specs.declared.fate.Fate.{Fate};
ghost use Rattle.messages.specs.declared.operation.Operation.{Operation};
ghost use Rattle.messages.specs.declared.outcome.Outcome.{Outcome};
ghost use Rattle.messages.specs.declared.outcome.Outcome.TheVariants.{TooFew};
ghost use Rattle.op_machine.specs.Judging.{looks};
ghost use Rattle.distributor_part.specs.declared.rules.Rules.{Rules};
ghost use Rattle.lane_journals.specs.Readers.{Message, sent, returned, stopped};
ghost use Rattle.lane_journals.specs.Meanings.{history};
ghost use Rattle.lane_journals.specs.KeptJournals.{IsLegal};
ghost use Rattle.lane_journals.specs.declared.event.LaneEvent.{LaneEvent};
ghost use Rattle.lane_carriage.specs.Carriage.{IsCarried};
ghost use Rattle.lane_carriage.specs.Readers.{receives};
ghost use Rattle.lane_keeping.specs.LaneKeeping.{setting_of};
ghost use Rattle.lane_completeness.specs.Completeness.{AreAnswered, RunSince, NoneStops, IsUndisturbed, IsUndisturbedLine, IsDecided, EndsWell};
ghost use Rattle.operation_keeping.specs.RuleBounds.{AreRules};
ghost use Rattle.lane_completeness.specs.Causes.{IsMissing, IsLost, ReturnInTurn, IsRunLine, IsRunLineSince, IsHeardLine};

/// An operation that was begun under the newest state, and of which no message is lost, doesn't end for want
/// of answers: it comes to what they say, or to NoMemory where a node wanted memory.
pub fn undisturbed_operations_are_decided()
    ensures { (lane : Low) (rules : Rules) → AreRules rules → (line d v : ℕ) (o : Operation) (stamp : Option Stamp)
        (J K : List LaneEvent) (outcome : Outcome)
        → IsUndisturbedLine lane rules line d v o stamp J K outcome
        → IsDecided (history K) line outcome }
{}

/// So a put or a remove without condition ends with the acknowledgement of its stamp, or with NoMemory where
/// a node wanted memory.
pub fn undisturbed_writes_end_well()
    ensures { (lane : Low) (rules : Rules) → AreRules rules → (line d v : ℕ) (o : Operation) (stamp : Option Stamp)
        (J K : List LaneEvent) (outcome : Outcome) → looks o ≡ false
        → IsUndisturbedLine lane rules line d v o stamp J K outcome
        → EndsWell stamp (history K) line outcome }
{}

/// So does one that others went on beside, whose search for its row may have begun with a later journal, where of each message
/// that was sent since the operation began the reply came back.
pub fn heard_operations_are_decided()
    ensures decided { (lane : Low) (rules : Rules) → AreRules rules → (line d v : ℕ) (o : Operation) (stamp : Option Stamp)
        (J K : List LaneEvent) (outcome : Outcome)
        → IsHeardLine lane rules line d v o stamp J K outcome
        → IsDecided (history K) line outcome }
    ensures well { (lane : Low) (rules : Rules) → AreRules rules → (line d v : ℕ) (o : Operation) (stamp : Option Stamp)
        (J K : List LaneEvent) (outcome : Outcome) → looks o ≡ false
        → IsHeardLine lane rules line d v o stamp J K outcome
        → EndsWell stamp (history K) line outcome }
{}

/// Where the fate of each message from a number on is to be delivered and answered at once, and its receiver
/// runs, nothing that was sent since is lost; and where that is so of all messages, as with a perfect carrier
/// and nodes that never stop, no line loses any. Where no node stops or starts since, those run then that run
/// now.
pub fn answered_lines_are_undisturbed()
    ensures since { (before given : List Fate) (J K : List LaneEvent) → IsCarried before J → IsCarried given K
        → AreAnswered (length before) given → RunSince J K → IsUndisturbed J K }
    ensures all { (given : List Fate) (J K : List LaneEvent) → IsCarried given K → AreAnswered 0 given
        → RunSince [] K → IsUndisturbed J K }
    ensures perfect { (many : ℕ) → AreAnswered 0 (delivered many) }
    ensures running { (J K : List LaneEvent) → NoneStops K → (number : ℕ) (m : Message)
        → sent number (history (K ++ J)) ≡ Some m → sent number (history J) ≡ None
        → receives number number (K ++ J) ≡ not (stopped m.receiver (history (K ++ J))) }
{}

/// An operation that ends with too few answers asked the absent node: since it began a message of the phase that ended
/// it was sent there, and its reply didn't come back, or said just that the node took a newer version. So does one that
/// others went on beside, whose search for its row began with a later journal.
pub fn too_few_has_its_cause()
    ensures alone { (lane : Low) (rules : Rules) → AreRules rules → (line d v : ℕ) (o : Operation) (stamp : Option Stamp)
        (J K : List LaneEvent) (answered needed absent : ℕ)
        → IsRunLine lane rules line d v o stamp J K (TooFew answered needed absent)
        → IsMissing (history K) line absent }
    ensures since { (lane : Low) (rules : Rules) → AreRules rules → (line d v : ℕ) (o : Operation) (stamp : Option Stamp)
        (J F K : List LaneEvent) (answered needed absent : ℕ)
        → IsRunLineSince lane rules line d v o stamp J F K (TooFew answered needed absent)
        → IsMissing (history K) line absent }
{}

/// Where messages have fates, each reply comes back before anything else happens than what carriers do, or not at all.
pub fn replies_return_in_turn()
    ensures { (given : List Fate) (J K : List LaneEvent) → IsCarried given K → ReturnInTurn J K }
{}

/// A message whose reply didn't come back was lost: by its fate, or since its receiver was stopped as it was sent.
pub fn unheard_messages_are_lost()
    ensures { (given : List Fate) (K : List LaneEvent) (number : ℕ) → IsCarried given K
        → returned number (history K) ≡ false → IsLost given K number }
{}
