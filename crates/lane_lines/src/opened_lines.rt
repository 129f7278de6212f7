ghost use Rattle.std.specs.Prelude.{◌≡◌, ◌<◌, None, IfOk, OnErr, vec_len};
ghost use Rattle.node_sets.specs.Members.{has_node};
ghost use Rattle.lane_keeping.specs.Asking.{OthersStay};
ghost use Rattle.lane_states.specs.LaneStates.{journal_of, IsKept, HasRoom, part_of, IsResting, IsCarriedBy, GivesOn};
ghost use Rattle.round_keeping.specs.RoundRuns.{NoneRuns};
ghost use Rattle.lane_lines.specs.Steps.{IsUneventful};
ghost use Rattle.lane_states.specs.Written.{AddsNoEntry};
ghost use Rattle.lane_lines.specs.OpeningRuns.{opening_shortage};
ghost use Rattle.lane_lines.specs.Readying.{IsForLine, OfUnprepared, search_from, GoesOnWith, IsCutOffWith, OpensOr};

use crate::readying::Shortage;
use carriers::Carrier;
use lane_keeping::laws::owners_act;
use lane_rounds::opening::open_state;
use lane_states::at_shortage::AtShortage;
use lane_states::lane_state::LaneState;
use node_sets::NodeSet;
use op_machine::counting::absent_in;
use operation_keeping::laws::operations_end;
use value_lists::NoMemory;

/// Why an operation ends where these nodes haven't answered an Ask; all that serve are needed.
fn shortage_of(serving: NodeSet, answered: NodeSet, missing: NodeSet, short: bool) -> Shortage
    ensures { result ≡ opening_shortage (has_node serving) answered missing short }
{
    if short {
        return Shortage::NoMemory;
    }
    Shortage::TooFew {
        answered: serving.intersection(answered).len(),
        needed: serving.len(),
        absent: absent_in(None, missing),
    }
}

/// The nodes that answered an Ask of the state that a distributor holds.
fn answered_at(lane: &LaneState, distributor: u8) -> NodeSet
    requires { distributor < vec_len lane.now.parts }
    ensures { result ≡ (part_of lane.now distributor).answered }
{
    match lane.parts.get(usize::from(distributor)) {
        Some(part) => part.answered(),
        None => unreachable!(),
    }
}

/// Opens the state of the owner for the operation of a line, which answers why it ends where not all nodes
/// answer.
pub fn open_for_line<C: Carrier>(
    lane: &mut LaneState,
    distributor: u8,
    key: u64,
    carrier: &mut C,
) -> Result<Option<Shortage>, NoMemory>
    requires keeps { IsKept lane.old }
    requires spare { HasRoom 0 lane.old }
    requires carried { IsCarriedBy lane.old (C.given carrier.old) }
    requires part { distributor < vec_len lane.old.parts }
    requires resting { IsResting (part_of lane.old distributor) }
    requires none_runs { NoneRuns (journal_of lane.old) }
    requires for_line { IsForLine lane.old distributor key }
    requires unopened { (part_of lane.old distributor).rows ≡ None }
    ensures keeps { IsKept lane.new }
    ensures spare { HasRoom 0 lane.new }
    ensures carried { IsCarriedBy lane.new (C.given carrier.new) }
    ensures planned { C.planned carrier.new ≡ C.planned carrier.old }
    ensures kind { C.takes_plans carrier.new ≡ C.takes_plans carrier.old }
    ensures gives { GivesOn (C.given carrier.old) (C.given carrier.new) }
    ensures goes_on { IfOk result (λ end. OfUnprepared lane.old distributor key (λ line o s stamp.
        GoesOnWith (search_from lane.old) lane.old lane.new line o distributor s stamp)) }
    ensures opens { IfOk result (λ end. OfUnprepared lane.old distributor key (λ line o s stamp.
        OpensOr (search_from lane.old) lane.new distributor line o s end)) }
    ensures cut { OnErr result (OfUnprepared lane.old distributor key (λ line o s stamp.
        IsCutOffWith (search_from lane.old) lane.old lane.new line o distributor s stamp)) }
    ensures quiet { IsUneventful (journal_of lane.old) (journal_of lane.new) }
    ensures entries { AddsNoEntry (journal_of lane.old) (journal_of lane.new) }
    ensures resting { IsResting (part_of lane.new distributor) }
    ensures others { OthersStay lane.old.lane lane.old.rules lane.old.parts.items lane.new.parts.items distributor }
    ensures after { lane.new ≡ record lane.old {
      journal = lane.new.journal;
      last = lane.new.last;
      nodes = lane.new.nodes;
      parts = lane.new.parts;
      late = lane.new.late;
    } }
    ensures parts { vec_len lane.new.parts ≡ vec_len lane.old.parts }
{
    owners_act();
    operations_end();
    let end = open_state(lane, distributor, key, carrier, AtShortage::GoOn)?;
    match end.missing {
        None => Ok(None),
        Some(missing) => {
            let Some(state) = lane.state_at(distributor) else {
                unreachable!();
            };
            let answered = answered_at(lane, distributor);
            Ok(Some(shortage_of(state.serving(), answered, missing, end.short)))
        }
    }
}
