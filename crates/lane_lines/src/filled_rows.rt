ghost use Rattle.std.specs.Prelude.{◌≡◌, ◌<◌, Some, IsSome, IfOk, OnErr, vec_len};
ghost use Rattle.cluster_states.specs.declared.cluster_state.ClusterState.{ClusterState};
ghost use Rattle.lane_states.specs.FreeRows.{IsRowFree};
ghost use Rattle.lane_keeping.specs.Asking.{OthersStay};
ghost use Rattle.lane_states.specs.LaneStates.{journal_of, IsKept, HasRoom, part_of, IsResting, IsCarriedBy, GivesOn, IsSetUp};
ghost use Rattle.round_keeping.specs.RoundRuns.{NoneRuns};
ghost use Rattle.lane_lines.specs.Steps.{IsUneventful};
ghost use Rattle.lane_states.specs.Written.{AddsNoEntry};
ghost use Rattle.lane_lines.specs.FilledRows.{shortage_after, IsFound};
ghost use Rattle.lane_lines.specs.Readying.{IsForLine, OfSearches, GoesOnWith, IsCutOffWith, FindsOr};

use crate::laws::rounds_are_wanted;
use crate::readying::Shortage;
use carriers::Carrier;
use lane_keeping::laws::owners_act;
use lane_rounds::rounds::{begin_round, run_round};
use lane_states::at_shortage::AtShortage;
use lane_states::lane_state::LaneState;
use node_sets::NodeSet;
use op_machine::counting::absent_in;
use operation_keeping::laws::{operations_end, preparing_ends};
use operation_keeping::want_laws::rounds_reach_enough;
use round_keeping::RoundEnd;
use round_keeping::laws::rounds_fall_short;
use value_lists::NoMemory;

/// Why an operation ends whose row has too few complete members after its round.
fn shortage_of(end: &RoundEnd, serving: NodeSet, acks: u8) -> Shortage
    ensures { result ≡ shortage_after end.now serving acks }
{
    if end.short {
        Shortage::NoMemory
    } else if end.whole {
        Shortage::TooFew {
            answered: end.row.complete.len(),
            needed: acks,
            absent: absent_in(end.row.active, end.missing),
        }
    } else {
        Shortage::TooFew {
            answered: serving.difference(end.missing).len(),
            needed: serving.len(),
            absent: absent_in(end.row.active, end.missing),
        }
    }
}

/// What the row of an operation comes to after its round: none where it has enough complete members, else why the
/// operation ends.
fn found_after(end: &RoundEnd, serving: NodeSet, acks: u8) -> Option<Shortage>
    ensures { IsFound end.now serving acks result }
{
    if acks <= end.row.complete.len() {
        return None;
    }
    Some(shortage_of(end, serving, acks))
}

/// Runs a round in the row of the key where that has too few complete members, and no operation is prepared there; answers why the operation of
/// the line ends where they are too few after it.
pub fn fill_row<C: Carrier>(
    lane: &mut LaneState,
    distributor: u8,
    key: u64,
    carrier: &mut C,
) -> Result<Option<Shortage>, NoMemory>
    requires set_up { IsSetUp lane.old.lane lane.old.rules }
    requires keeps { IsKept lane.old }
    requires spare { HasRoom 0 lane.old }
    requires carried { IsCarriedBy lane.old (C.given carrier.old) }
    requires part { distributor < vec_len lane.old.parts }
    requires resting { IsResting (part_of lane.old distributor) }
    requires none_runs { NoneRuns (journal_of lane.old) }
    requires for_line { IsForLine lane.old distributor key }
    requires opened { IsSome (part_of lane.old distributor).rows }
    requires free { (s : ClusterState) → (part_of lane.old distributor).state ≡ Some s
        → IsRowFree (journal_of lane.old) s lane.old.rules.acks key }
    ensures keeps { IsKept lane.new }
    ensures spare { HasRoom 0 lane.new }
    ensures carried { IsCarriedBy lane.new (C.given carrier.new) }
    ensures planned { C.planned carrier.new ≡ C.planned carrier.old }
    ensures kind { C.takes_plans carrier.new ≡ C.takes_plans carrier.old }
    ensures gives { GivesOn (C.given carrier.old) (C.given carrier.new) }
    ensures goes_on { IfOk result (λ end. OfSearches lane.old distributor key (λ from line o s stamp.
        GoesOnWith from lane.old lane.new line o distributor s stamp)) }
    ensures finds { IfOk result (λ end. OfSearches lane.old distributor key (λ from line o s stamp.
        FindsOr from lane.new line o s end)) }
    ensures cut { OnErr result (OfSearches lane.old distributor key (λ from line o s stamp.
        IsCutOffWith from lane.old lane.new line o distributor s stamp)) }
    ensures quiet { IsUneventful (journal_of lane.old) (journal_of lane.new) }
    ensures entries { AddsNoEntry (journal_of lane.old) (journal_of lane.new) }
    ensures resting { IsResting (part_of lane.new distributor) }
    ensures others { OthersStay lane.old.lane lane.old.rules lane.old.parts.items lane.new.parts.items distributor }
    ensures after { lane.new ≡ record lane.old {
      journal = lane.new.journal;
      last = lane.new.last;
      nodes = lane.new.nodes;
      parts = lane.new.parts;
      late = lane.new.late;
    } }
    ensures parts { vec_len lane.new.parts ≡ vec_len lane.old.parts }
{
    owners_act();
    rounds_reach_enough();
    rounds_fall_short();
    preparing_ends();
    operations_end();
    rounds_are_wanted();
    lane.journal.events.reserve(2 + lane.spare)?;
    let Some(begun) = begin_round(lane, distributor, key) else {
        return Ok(None);
    };
    let serving = begun.state.serving();
    let mut run = begun;
    let end = run_round(lane, carrier, &mut run, AtShortage::GoOn)?;
    Ok(found_after(&end, serving, lane.rules.acks))
}
