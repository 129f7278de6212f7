ghost use Rattle.std.specs.Prelude.{◌≡◌, true, false, OnOk, IfOk, ◌<◌};
ghost use Rattle.pass_machine.specs.declared.doing.Doing.TheVariants.{Finished};
ghost use Rattle.lane_states.specs.LaneStates.{GivesOn};
ghost use Rattle.lane_upkeep.specs.Passing.{IsPassing, PassesOn};
ghost use Rattle.lane_upkeep.specs.Quiet.{DoesQuietly, PassesQuietly, StandsOn};
ghost use Rattle.lane_upkeep.specs.Taking.{GoesOneOn, IsPass};
ghost use Rattle.lane_upkeep.specs.UnderWay.{IsUnderWay, IsNearer};

use crate::owner::Owner;
use crate::row_places::{row_count, rows_are_whole};
use crate::steps::{decide, next_of, note_acceptance, round, say};
use carriers::Carrier;
use lane_states::LaneState;
use pass_machine::{UpkeepPass, UpkeepStep};
use pass_runs::laws::{passes_end, passes_stand};
use undisturbed_spans::spans::undisturbed_spans_part;
use value_lists::NoMemory;

/// Takes the next step of a pass; whether there was one. `NoMemory` is of the lane or of a node.
fn go_on<C: Carrier>(
    lane: &mut LaneState,
    carrier: &mut C,
    owner: &Owner,
    pass: &mut UpkeepPass,
) -> Result<bool, NoMemory>
    requires passing { IsPassing lane.old owner.now (C.given carrier.old) }
    requires under_way { IsUnderWay lane.old owner.now pass.old }
    ensures passing { IsPassing lane.new owner.now (C.given carrier.new) }
    ensures on { PassesOn lane.old lane.new owner.now }
    ensures planned { C.planned carrier.new ≡ C.planned carrier.old }
    ensures kind { C.takes_plans carrier.new ≡ C.takes_plans carrier.old }
    ensures gives { GivesOn (C.given carrier.old) (C.given carrier.new) }
    ensures under_way { OnOk result (IsUnderWay lane.new owner.now pass.new) }
    ensures nearer { IfOk result (λ more. more ≡ true → IsNearer lane.old lane.new owner.now pass.old pass.new) }
    ensures ends { IfOk result (λ more. more ≡ false → pass.new.doing ≡ Finished) }
    ensures takes { IfOk result (GoesOneOn lane.old lane.new owner.now pass.old pass.new
        (C.given carrier.old) (C.given carrier.new)) }
    ensures quiet { OnOk result (DoesQuietly (C.given carrier.old) (C.given carrier.new) lane.old lane.new owner.now
        (λ d s. StandsOn d s lane.old lane.new owner.now pass.old pass.new)) }
{
    passes_stand();
    undisturbed_spans_part();
    rows_are_whole(lane, owner);
    match next_of(lane, owner, pass) {
        UpkeepStep::Tell { node, body } => say(lane, carrier, owner, pass, node, body)?,
        UpkeepStep::Decide { at, decision } => decide(lane, owner, pass, at, decision)?,
        UpkeepStep::Accept { at } => note_acceptance(lane, owner, pass, at),
        UpkeepStep::Round { at } => round(lane, carrier, owner, pass, at)?,
        UpkeepStep::Finished => return Ok(false),
    }
    Ok(true)
}

/// A pass once the owner opened its state: the machine of `pass_machine` says what comes next, and this takes each of
/// its steps. `NoMemory` is of the lane or of a node.
pub fn make_pass<C: Carrier>(
    lane: &mut LaneState,
    carrier: &mut C,
    owner: &Owner,
) -> Result<(), NoMemory>
    requires passing { IsPassing lane.old owner.now (C.given carrier.old) }
    ensures passing { IsPassing lane.new owner.now (C.given carrier.new) }
    ensures on { PassesOn lane.old lane.new owner.now }
    ensures planned { C.planned carrier.new ≡ C.planned carrier.old }
    ensures kind { C.takes_plans carrier.new ≡ C.takes_plans carrier.old }
    ensures gives { GivesOn (C.given carrier.old) (C.given carrier.new) }
    ensures pass { OnOk result (IsPass lane.old lane.new owner.now (C.given carrier.old) (C.given carrier.new)) }
    ensures quiet { OnOk result (DoesQuietly (C.given carrier.old) (C.given carrier.new) lane.old lane.new owner.now
        (λ d s. PassesQuietly d s lane.old lane.new owner.now)) }
{
    passes_stand();
    passes_end();
    undisturbed_spans_part();
    rows_are_whole(lane, owner);
    // that they can be counted bounds what is left of the pass
    let _many = row_count(lane, owner);
    let mut pass = UpkeepPass::new(lane.alloc);
    while go_on(lane, carrier, owner, &mut pass)? {
        let _many = row_count(lane, owner);
    }
    Ok(())
}
