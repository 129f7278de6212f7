ghost use Rattle.std.specs.Prelude.{◌≡◌, ◌<◌, IfOk, OnErr, vec_len, is_some, IsSome, None, Some};
ghost use Rattle.cluster_states.specs.declared.cluster_state.ClusterState.{ClusterState};
ghost use Rattle.lane_states.specs.FreeRows.{IsRowFree};
ghost use Rattle.bucket_ids.specs.Buckets.{IsIn};
ghost use Rattle.lane_keeping.specs.Asking.{OthersStay};
ghost use Rattle.lane_states.specs.LaneStates.{journal_of, IsKept, HasRoom, part_of, IsResting, IsCarriedBy, GivesOn, IsSetUp};
ghost use Rattle.round_keeping.specs.RoundRuns.{NoneRuns};
ghost use Rattle.lane_lines.specs.Steps.{IsUneventful};
ghost use Rattle.lane_states.specs.Written.{AddsNoEntry};
ghost use Rattle.lane_lines.specs.Readying.{outcome_of, IsForLine, OfUnprepared, search_from, GoesOnWith, IsCutOffWith, HasRowWith, FindsOr};

use crate::filled_rows::fill_row;
use crate::opened_lines::open_for_line;
use bucket_db::Row;
use carriers::Carrier;
use lane_keeping::laws::owners_act;
use lane_states::lane_state::LaneState;
use messages::Outcome;
use value_lists::NoMemory;

/// How an operation ends that can't be prepared.
#[derive(Clone, Copy, PartialEq, Eq)]
pub enum Shortage {
    /// A node that was asked last wanted memory.
    NoMemory,
    /// So many answered where so many were needed; the absent one is the first to look for.
    TooFew {
        answered: u8,
        needed: u8,
        absent: u8,
    },
}

impl Shortage {
    /// The outcome of the operation.
    pub fn outcome(self) -> Outcome
        ensures { result ≡ outcome_of self }
    {
        match self {
            Shortage::NoMemory => Outcome::NoMemory,
            Shortage::TooFew {
                answered,
                needed,
                absent,
            } => Outcome::TooFew {
                answered,
                needed,
                absent,
            },
        }
    }
}

/// Whether a distributor has opened its state.
fn has_rows(lane: &LaneState, distributor: u8) -> bool
    requires part { distributor < vec_len lane.now.parts }
    ensures { result ≡ is_some (part_of lane.now distributor).rows }
{
    lane.parts[usize::from(distributor)].is_opened()
}

/// Opens the state, and finds the row of the key for the operation of a line.
fn open_row<C: Carrier>(
    lane: &mut LaneState,
    distributor: u8,
    key: u64,
    carrier: &mut C,
) -> Result<Option<Shortage>, NoMemory>
    requires keeps { IsKept lane.old }
    requires spare { HasRoom 0 lane.old }
    requires carried { IsCarriedBy lane.old (C.given carrier.old) }
    requires part { distributor < vec_len lane.old.parts }
    requires resting { IsResting (part_of lane.old distributor) }
    requires none_runs { NoneRuns (journal_of lane.old) }
    requires set_up { IsSetUp lane.old.lane lane.old.rules }
    requires for_line { IsForLine lane.old distributor key }
    requires unopened { (part_of lane.old distributor).rows ≡ None }
    ensures keeps { IsKept lane.new }
    ensures spare { HasRoom 0 lane.new }
    ensures carried { IsCarriedBy lane.new (C.given carrier.new) }
    ensures planned { C.planned carrier.new ≡ C.planned carrier.old }
    ensures kind { C.takes_plans carrier.new ≡ C.takes_plans carrier.old }
    ensures gives { GivesOn (C.given carrier.old) (C.given carrier.new) }
    ensures goes_on { IfOk result (λ end. OfUnprepared lane.old distributor key (λ line o s stamp.
        GoesOnWith (search_from lane.old) lane.old lane.new line o distributor s stamp)) }
    ensures finds { IfOk result (λ end. OfUnprepared lane.old distributor key (λ line o s stamp.
        FindsOr (search_from lane.old) lane.new line o s end)) }
    ensures cut { OnErr result (OfUnprepared lane.old distributor key (λ line o s stamp.
        IsCutOffWith (search_from lane.old) lane.old lane.new line o distributor s stamp)) }
    ensures quiet { IsUneventful (journal_of lane.old) (journal_of lane.new) }
    ensures entries { AddsNoEntry (journal_of lane.old) (journal_of lane.new) }
    ensures resting { IsResting (part_of lane.new distributor) }
    ensures others { OthersStay lane.old.lane lane.old.rules lane.old.parts.items lane.new.parts.items distributor }
    ensures after { lane.new ≡ record lane.old {
      journal = lane.new.journal;
      last = lane.new.last;
      nodes = lane.new.nodes;
      parts = lane.new.parts;
      late = lane.new.late;
    } }
    ensures parts { vec_len lane.new.parts ≡ vec_len lane.old.parts }
{
    owners_act();
    match open_for_line(lane, distributor, key, carrier)? {
        Some(shortage) => Ok(Some(shortage)),
        None => fill_row(lane, distributor, key, carrier),
    }
}

/// Finds the row of the key for the operation of a line, with enough complete members: the state is opened where it
/// isn't, and a round is run where they are too few and no operation is prepared there. Answers why the operation ends where it finds
/// none.
pub fn find_row<C: Carrier>(
    lane: &mut LaneState,
    distributor: u8,
    key: u64,
    carrier: &mut C,
) -> Result<Option<Shortage>, NoMemory>
    requires keeps { IsKept lane.old }
    requires spare { HasRoom 0 lane.old }
    requires carried { IsCarriedBy lane.old (C.given carrier.old) }
    requires part { distributor < vec_len lane.old.parts }
    requires resting { IsResting (part_of lane.old distributor) }
    requires none_runs { NoneRuns (journal_of lane.old) }
    requires set_up { IsSetUp lane.old.lane lane.old.rules }
    requires for_line { IsForLine lane.old distributor key }
    requires free { IsSome (part_of lane.old distributor).rows → (s : ClusterState)
        → (part_of lane.old distributor).state ≡ Some s
        → IsRowFree (journal_of lane.old) s lane.old.rules.acks key }
    ensures keeps { IsKept lane.new }
    ensures spare { HasRoom 0 lane.new }
    ensures carried { IsCarriedBy lane.new (C.given carrier.new) }
    ensures planned { C.planned carrier.new ≡ C.planned carrier.old }
    ensures kind { C.takes_plans carrier.new ≡ C.takes_plans carrier.old }
    ensures gives { GivesOn (C.given carrier.old) (C.given carrier.new) }
    ensures goes_on { IfOk result (λ end. OfUnprepared lane.old distributor key (λ line o s stamp.
        GoesOnWith (search_from lane.old) lane.old lane.new line o distributor s stamp)) }
    ensures finds { IfOk result (λ end. OfUnprepared lane.old distributor key (λ line o s stamp.
        FindsOr (search_from lane.old) lane.new line o s end)) }
    ensures cut { OnErr result (OfUnprepared lane.old distributor key (λ line o s stamp.
        IsCutOffWith (search_from lane.old) lane.old lane.new line o distributor s stamp)) }
    ensures quiet { IsUneventful (journal_of lane.old) (journal_of lane.new) }
    ensures entries { AddsNoEntry (journal_of lane.old) (journal_of lane.new) }
    ensures resting { IsResting (part_of lane.new distributor) }
    ensures others { OthersStay lane.old.lane lane.old.rules lane.old.parts.items lane.new.parts.items distributor }
    ensures after { lane.new ≡ record lane.old {
      journal = lane.new.journal;
      last = lane.new.last;
      nodes = lane.new.nodes;
      parts = lane.new.parts;
      late = lane.new.late;
    } }
    ensures parts { vec_len lane.new.parts ≡ vec_len lane.old.parts }
{
    if has_rows(lane, distributor) {
        return fill_row(lane, distributor, key, carrier);
    }
    open_row(lane, distributor, key, carrier)
}

/// The row of a key, as a distributor that opened its state has it.
pub fn row_with(lane: &LaneState, distributor: u8, key: u64) -> Row
    requires keeps { IsKept lane.now }
    requires opened { IsSome (part_of lane.now distributor).rows }
    requires key { IsIn lane.now.lane key }
    ensures { HasRowWith (part_of lane.now distributor).rows key result }
{
    let Some(part) = lane.parts.get(usize::from(distributor)) else {
        unreachable!();
    };
    part.rows()[part.row_of(key)]
}
