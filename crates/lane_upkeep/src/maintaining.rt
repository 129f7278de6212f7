ghost use Rattle.std.specs.Prelude.{◌≡◌, true, false, None, Some, IfOk, OnOk};
ghost use Rattle.lane_upkeep.specs.Passing.{IsPassing, PassesOn};
ghost use Rattle.lane_upkeep.specs.Maintaining.{IsBetween, AreReturned, HasOpened, HaveRun};
ghost use Rattle.lane_upkeep.specs.Rests.{RestsWhereQuiet};
ghost use Rattle.lane_upkeep.specs.Taking.{OpensThenPasses};
ghost use Rattle.lane_states.specs.LaneStates.{journal_of, GivesOn};
ghost use Rattle.lane_states.specs.Shortages.{NoneIsShort, EndsAtOnce};

use crate::owner::Owner;
use crate::pass::make_pass;
use crate::rest_laws::passes_bring_rest;
use crate::row_places::rows_are_whole;
use crate::steps::nodes_are_few;
use carriers::Carrier;
use lane_keeping::laws::owners_act;
use lane_rounds::opening::{OpeningEnd, open_state};
use lane_states::at_shortage::AtShortage;
use lane_states::lane_state::LaneState;
use pass_model::settings::settings_are_found;
use upkeep_spans::laws::{upkeep_goes_on, upkeep_leaves_lines, upkeep_leaves_states};
use value_lists::NoMemory;

/// Whether the state is opened at the end of an opening.
fn is_open(end: OpeningEnd) -> bool
    ensures opened { result ≡ true → end.missing ≡ None }
    ensures lacking { result ≡ false → end.missing ≡ None → ⊥ }
{
    end.missing.is_none()
}

/// Opens the state of the owner, where it isn't opened; whether it is then. `NoMemory` is of the lane or of a node,
/// which ends the opening at once.
fn open_owner<C: Carrier>(
    lane: &mut LaneState,
    carrier: &mut C,
    owner: &Owner,
) -> Result<bool, NoMemory>
    requires between { IsBetween lane.old owner.now (C.given carrier.old) }
    requires newest { lane.old.newest ≡ Some owner.now.state }
    ensures between { IsBetween lane.new owner.now (C.given carrier.new) }
    ensures on { PassesOn lane.old lane.new owner.now }
    ensures planned { C.planned carrier.new ≡ C.planned carrier.old }
    ensures kind { C.takes_plans carrier.new ≡ C.takes_plans carrier.old }
    ensures gives { GivesOn (C.given carrier.old) (C.given carrier.new) }
    ensures passing { IfOk result (λ opened. opened ≡ true
        → IsPassing lane.new owner.now (C.given carrier.new)) }
    ensures lacking { IfOk result (λ opened. opened ≡ false → AreReturned lane.old lane.new → ⊥) }
    ensures none_is_short { OnOk result (NoneIsShort lane.old.last lane.new.last (journal_of lane.new)) }
    ensures at_once { EndsAtOnce lane.old.last lane.new.last (journal_of lane.new) }
{
    owners_act();
    upkeep_goes_on();
    upkeep_leaves_lines();
    upkeep_leaves_states();
    if lane.parts[usize::from(owner.distributor)].is_opened() {
        return Ok(true);
    }
    let key = lane.lane.low();
    match open_state(lane, owner.distributor, key, carrier, AtShortage::End) {
        Ok(end) => Ok(is_open(end)),
        Err(error) => Err(error),
    }
}

/// The owner makes a pass of upkeep, for which its state is opened first; where not all nodes answer, that is all. A
/// pass asks each node that serves, so where all was returned, all of these run. `NoMemory` is of the lane or of a
/// node.
pub fn maintain<C: Carrier>(
    lane: &mut LaneState,
    carrier: &mut C,
    owner: &Owner,
) -> Result<(), NoMemory>
    requires between { IsBetween lane.old owner.now (C.given carrier.old) }
    requires newest { lane.old.newest ≡ Some owner.now.state }
    ensures between { IsBetween lane.new owner.now (C.given carrier.new) }
    ensures on { PassesOn lane.old lane.new owner.now }
    ensures planned { C.planned carrier.new ≡ C.planned carrier.old }
    ensures kind { C.takes_plans carrier.new ≡ C.takes_plans carrier.old }
    ensures gives { GivesOn (C.given carrier.old) (C.given carrier.new) }
    ensures opened { OnOk result (AreReturned lane.old lane.new → HasOpened lane.new owner.now) }
    ensures run { OnOk result (AreReturned lane.old lane.new → HaveRun lane.new owner.now) }
    ensures passes { OnOk result (OpensThenPasses lane.old lane.new owner.now (C.given carrier.new)) }
    ensures rests { OnOk result (RestsWhereQuiet (C.given carrier.new) lane.old lane.new) }
{
    owners_act();
    upkeep_goes_on();
    upkeep_leaves_states();
    settings_are_found();
    passes_bring_rest();
    nodes_are_few(owner);
    if !open_owner(lane, carrier, owner)? {
        return Ok(());
    }
    rows_are_whole(lane, owner);
    make_pass(lane, carrier, owner)
}
