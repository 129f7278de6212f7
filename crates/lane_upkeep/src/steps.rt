ghost use Rattle.std.specs.Prelude.{◌≡◌, ◌≤◌, ◌<◌, ℕ, true, List, Option, length, OnOk, OnErr, if◌then◌else◌};
ghost use Rattle.cluster_states.specs.Publishing.{serves};
ghost use Rattle.carriers.specs.declared.fate.Fate.{Fate};
ghost use Rattle.messages.specs.declared.reply.Reply.{Reply as GivenReply};
ghost use Rattle.pass_machine.specs.declared.doing.UpkeepStep.TheVariants.{Tell, Decide, Accept, Round};
ghost use Rattle.pass_machine.specs.Going.{Awaits, IsTellingRow, IsDecided, IsAccepted, IsRounded, left};
ghost use Rattle.lane_states.specs.LaneStates.{GivesOn};
ghost use Rattle.lane_upkeep.specs.CameBack.{is_taken, is_end};
ghost use Rattle.lane_upkeep.specs.Deciding.{DecidesNothing};
ghost use Rattle.lane_upkeep.specs.Noted.{StaysKnown};
ghost use Rattle.lane_upkeep.specs.Passing.{IsPassing, Passes, PassesOn, MayTell, rows_in};
ghost use Rattle.lane_upkeep.specs.Quiet.{DoesQuietly, StandsOn};
ghost use Rattle.lane_upkeep.specs.Taking.{DoesTell, DoesDecide, DoesAccept, DoesRound};
ghost use Rattle.lane_upkeep.specs.UnderWay.{OfRow, IsRowAccepted, IsUnderWay, MayDecide, NamesDeleted, IfTold, MayComeNext, Comes, IsNextStep, is_taken_as, DidDecide, IsNearer};

use crate::deciding;
use crate::owner::Owner;
use crate::rounding::run_round_at;
use crate::row_places::{row_count, rows_are_whole};
use crate::telling::tell_node;
use carriers::Carrier;
use lane_states::LaneState;
use messages::{Body, Decision, Reply};
use pass_machine::{UpkeepPass, UpkeepStep};
use pass_runs::laws::passes_stand;
use value_lists::NoMemory;

// ---- what comes next

/// That the bucket which a Delete names is one; does nothing.
fn look_at(body: &Body)
    ensures { NamesDeleted body.now }
{
    match body {
        Body::Delete { bucket, .. } => {
            let _bits = bucket.bits();
        }
        _ => {}
    }
}

/// The same of the message of a step, if it is one.
fn look_into(step: &UpkeepStep)
    ensures { IfTold step.now (λ node body. NamesDeleted body) }
{
    match step {
        UpkeepStep::Tell { body, .. } => look_at(body),
        _ => {}
    }
}

/// That nodes which serve have numbers below 32; does nothing.
pub fn nodes_are_few(owner: &Owner)
    ensures { (n : ℕ) → serves owner.now.state n ≡ true → n < 32 }
{
    let _serving = owner.state.serving();
}

/// The next step of a pass, which the lane permits.
pub fn next_of(lane: &LaneState, owner: &Owner, pass: &mut UpkeepPass) -> UpkeepStep
    requires passing { Passes lane.now owner.now }
    requires under_way { IsUnderWay lane.now owner.now pass.old }
    ensures may { MayComeNext lane.now owner.now result }
    ensures comes { Comes lane.now owner.now pass.old pass.new result }
    ensures awaits { Awaits (length (rows_in lane.now owner.now)) result pass.new.doing }
    ensures under_way { IsUnderWay lane.now owner.now pass.new }
    ensures nearer { (most : ℕ) → length (rows_in lane.now owner.now) ≤ most
        → left most (length (rows_in lane.now owner.now)) pass.new.doing
        ≤ left most (length (rows_in lane.now owner.now)) pass.old.doing }
{
    rows_are_whole(lane, owner);
    nodes_are_few(owner);
    let part = &lane.parts[usize::from(owner.distributor)];
    let step = pass.next_step(part, lane.rules);
    look_into(&step);
    step
}

// ---- a message

/// Whether a node took what it was sent.
fn is_answer(reply: &Option<Reply>) -> bool
    ensures { result ≡ is_taken reply.now }
{
    match reply {
        Some(Reply::Answer { .. }) => true,
        _ => false,
    }
}

/// Whether a node took a Delete, or has nothing that it names.
fn ends_delete(reply: &Option<Reply>) -> bool
    ensures { result ≡ is_end reply.now }
{
    match reply {
        Some(Reply::Answer { .. } | Reply::NoBucket | Reply::Differs) => true,
        _ => false,
    }
}

/// Whether it is a Delete.
fn is_delete(body: &Body) -> bool
    ensures { (reply : Option GivenReply) → is_taken_as body.now reply
        ≡ (if result then is_end reply else is_taken reply) }
{
    match body {
        Body::Delete { .. } => true,
        _ => false,
    }
}

/// Says something of a row to a node, and tells the pass what came of it. `NoMemory` comes before the message is sent
/// or at the node.
pub fn say<C: Carrier>(
    lane: &mut LaneState,
    carrier: &mut C,
    owner: &Owner,
    pass: &mut UpkeepPass,
    node: u8,
    body: Body,
) -> Result<(), NoMemory>
    requires passing { IsPassing lane.old owner.now (C.given carrier.old) }
    requires under_way { IsUnderWay lane.old owner.now pass.old }
    requires may { MayTell lane.old owner.now node body }
    requires told { IsTellingRow (length (rows_in lane.old owner.now)) pass.old.doing }
    requires next { IsNextStep lane.old owner.now pass.old (Tell node body) }
    ensures passing { IsPassing lane.new owner.now (C.given carrier.new) }
    ensures on { PassesOn lane.old lane.new owner.now }
    ensures planned { C.planned carrier.new ≡ C.planned carrier.old }
    ensures kind { C.takes_plans carrier.new ≡ C.takes_plans carrier.old }
    ensures gives { GivesOn (C.given carrier.old) (C.given carrier.new) }
    ensures under_way { OnOk result (IsUnderWay lane.new owner.now pass.new) }
    ensures nearer { OnOk result (IsNearer lane.old lane.new owner.now pass.old pass.new) }
    ensures does { OnOk result (DoesTell lane.old lane.new owner.now pass.old pass.new node body
        (C.given carrier.old) (C.given carrier.new)) }
    ensures quiet { OnOk result (DoesQuietly (C.given carrier.old) (C.given carrier.new) lane.old lane.new owner.now
        (λ d s. StandsOn d s lane.old lane.new owner.now pass.old pass.new)) }
{
    passes_stand();
    rows_are_whole(lane, owner);
    let delete = is_delete(&body);
    let reply = tell_node(lane, carrier, owner, node, body)?;
    let taken = if delete {
        ends_delete(&reply)
    } else {
        is_answer(&reply)
    };
    pass.answer(&lane.parts[usize::from(owner.distributor)], taken);
    Ok(())
}

// ---- a decision

/// Decides this of the row of a place.
fn decide_row(
    lane: &mut LaneState,
    owner: &Owner,
    at: usize,
    decision: Decision,
) -> Result<(), NoMemory>
    requires passing { Passes lane.old owner.now }
    requires may { MayDecide lane.old owner.now at decision }
    ensures passing { (given : List Fate) → IsPassing lane.old owner.now given → IsPassing lane.new owner.now given }
    ensures on { PassesOn lane.old lane.new owner.now }
    ensures known { StaysKnown lane.old lane.new owner.now }
    ensures did { OnOk result (DidDecide lane.old lane.new owner.now at decision) }
    ensures err { OnErr result (DecidesNothing lane.old lane.new owner.now) }
{
    match decision {
        Decision::RowSplit { .. } => deciding::split_row(lane, owner, at),
        Decision::RowsJoined { .. } => deciding::join_rows(lane, owner, at),
        Decision::ActiveOn { node, .. } => deciding::activate(lane, owner, at, node),
        Decision::DeleteFrom { node, serial, .. } => deciding::delete_from(
            lane, owner, at, node, serial,
        ),
        Decision::DeleteOver { bucket, node } => deciding::delete_over(lane, owner, bucket, node),
        _ => unreachable!(),
    }
}

/// Decides what the pass wants of the row of a place.
pub fn decide(
    lane: &mut LaneState,
    owner: &Owner,
    pass: &mut UpkeepPass,
    at: usize,
    decision: Decision,
) -> Result<(), NoMemory>
    requires passing { Passes lane.old owner.now }
    requires under_way { IsUnderWay lane.old owner.now pass.old }
    requires may { MayDecide lane.old owner.now at decision }
    requires decided { IsDecided (length (rows_in lane.old owner.now)) pass.old.doing decision }
    requires next { IsNextStep lane.old owner.now pass.old (Decide at decision) }
    ensures passing { (given : List Fate) → IsPassing lane.old owner.now given → IsPassing lane.new owner.now given }
    ensures on { PassesOn lane.old lane.new owner.now }
    ensures under_way { OnOk result (IsUnderWay lane.new owner.now pass.new) }
    ensures nearer { OnOk result (IsNearer lane.old lane.new owner.now pass.old pass.new) }
    ensures does { OnOk result (DoesDecide lane.old lane.new owner.now pass.old pass.new at decision) }
    ensures quiet { OnOk result ((given : List Fate) → IsPassing lane.old owner.now given
        → DoesQuietly given given lane.old lane.new owner.now
        (λ d s. StandsOn d s lane.old lane.new owner.now pass.old pass.new)) }
{
    passes_stand();
    rows_are_whole(lane, owner);
    let made = decision;
    decide_row(lane, owner, at, decision)?;
    rows_are_whole(lane, owner);
    let many = row_count(lane, owner);
    pass.decided(many, made);
    Ok(())
}

// ---- an acceptance

/// Notes that the active node of the row of a place accepted, which is no decision.
pub fn note_acceptance(lane: &mut LaneState, owner: &Owner, pass: &mut UpkeepPass, at: usize)
    requires passing { Passes lane.old owner.now }
    requires under_way { IsUnderWay lane.old owner.now pass.old }
    requires place { at < length (rows_in lane.old owner.now) }
    requires row { OfRow lane.old owner.now at (IsRowAccepted lane.old owner.now) }
    requires accepted { IsAccepted (length (rows_in lane.old owner.now)) pass.old.doing }
    requires next { IsNextStep lane.old owner.now pass.old (Accept at) }
    ensures passing { (given : List Fate) → IsPassing lane.old owner.now given → IsPassing lane.new owner.now given }
    ensures on { PassesOn lane.old lane.new owner.now }
    ensures under_way { IsUnderWay lane.new owner.now pass.new }
    ensures nearer { IsNearer lane.old lane.new owner.now pass.old pass.new }
    ensures does { DoesAccept lane.old lane.new owner.now pass.old pass.new at }
    ensures quiet { (given : List Fate) → IsPassing lane.old owner.now given
        → DoesQuietly given given lane.old lane.new owner.now
        (λ d s. StandsOn d s lane.old lane.new owner.now pass.old pass.new) }
{
    passes_stand();
    rows_are_whole(lane, owner);
    deciding::accept(lane, owner, at);
    rows_are_whole(lane, owner);
    pass.accepted(row_count(lane, owner));
}

// ---- a round

/// Runs a round of the row of a place, and tells the pass what it showed. `NoMemory` comes before the round begins,
/// while it runs or at a node, which ends it at once, or for what it showed.
pub fn round<C: Carrier>(
    lane: &mut LaneState,
    carrier: &mut C,
    owner: &Owner,
    pass: &mut UpkeepPass,
    at: usize,
) -> Result<(), NoMemory>
    requires passing { IsPassing lane.old owner.now (C.given carrier.old) }
    requires under_way { IsUnderWay lane.old owner.now pass.old }
    requires place { at < length (rows_in lane.old owner.now) }
    requires rounded { IsRounded (length (rows_in lane.old owner.now)) pass.old.doing }
    requires next { IsNextStep lane.old owner.now pass.old (Round at) }
    ensures passing { IsPassing lane.new owner.now (C.given carrier.new) }
    ensures on { PassesOn lane.old lane.new owner.now }
    ensures planned { C.planned carrier.new ≡ C.planned carrier.old }
    ensures kind { C.takes_plans carrier.new ≡ C.takes_plans carrier.old }
    ensures gives { GivesOn (C.given carrier.old) (C.given carrier.new) }
    ensures under_way { OnOk result (IsUnderWay lane.new owner.now pass.new) }
    ensures nearer { OnOk result (IsNearer lane.old lane.new owner.now pass.old pass.new) }
    ensures does { OnOk result (DoesRound lane.old lane.new owner.now pass.old pass.new at
        (C.given carrier.old) (C.given carrier.new)) }
    ensures quiet { OnOk result (DoesQuietly (C.given carrier.old) (C.given carrier.new) lane.old lane.new owner.now
        (λ d s. StandsOn d s lane.old lane.new owner.now pass.old pass.new)) }
{
    passes_stand();
    rows_are_whole(lane, owner);
    let note = run_round_at(lane, carrier, owner, at)?;
    rows_are_whole(lane, owner);
    pass.round_over(&lane.parts[usize::from(owner.distributor)], note)
}
