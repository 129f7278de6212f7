ghost use Rattle.std.specs.Prelude.{◌≡◌, ◌≤◌, ◌<◌, ◌+◌, ◌↔◌, ◌&&◌, ◌||◌, ℕ, List, true, false, None, Some, IsSome, OnOk, OnErr, IfOk, IfSome, IfNone, length, vec_len, vec_capacity};
ghost use Rattle.bucket_ids.specs.Buckets.{Low, IsIn};
ghost use Rattle.node_sets.specs.Members.{has_node};
ghost use Rattle.messages.specs.Noting.{noted_reply};
ghost use Rattle.cluster_states.specs.declared.cluster_state.ClusterState.{ClusterState};
ghost use Rattle.carriers.specs.declared.fate.Fate.{Fate};
ghost use Rattle.distributor_part.specs.declared.stage.Stage.TheVariants as stage;
ghost use Rattle.distributor_part.specs.Parts.{IsOwning, rows_of};
ghost use Rattle.distributor_part.specs.Upkeep.{BeginsRoundAt};
ghost use Rattle.distributor_part.specs.Steps.{BeginsRound};
ghost use Rattle.distributor_part.specs.Steps as steps;
ghost use Rattle.merge_rounds.specs.Rounds.{HaveAllShown, IsOver};
ghost use Rattle.lane_journals.specs.Facts.{Idle};
ghost use Rattle.lane_journals.specs.Meanings.{history};
ghost use Rattle.lane_keeping.specs.Asking.{OthersStay};
ghost use Rattle.lane_states.specs.LaneStates.{journal_of, IsKept, HasRoom, part_of, IsCarriedBy, NodesOn};
ghost use Rattle.round_keeping.specs.RoundRuns.{IsAfterReply, is_refusal, NoneRuns, IsRunning, IsCutOff, GoesOn, IsRunToldBy, left, IsRunBy, MayBegin, MayBeginAt, LowIsThere, IsNewRun, EndsEnough, Begins, RunsOn, EndsWith, IsStageOver, IsToldOver, EndsJob, EndsRun, are_missing, is_short, IsEnd, IsWholeRun, IsCutShort};
ghost use Rattle.lane_states.specs.Growing.{IsSettled};
ghost use Rattle.lane_states.specs.FreeRows.{IsRowFree};
ghost use Rattle.lane_rounds.specs.RoundSteps.{IsRunTold};
ghost use Rattle.lane_states.specs.Shortages.{WhereItEnds, NoneIsShort, EndsAtOnce};
ghost use Rattle.round_keeping.specs.RoundShortages.{wants_memory, HadMemory};

use bucket_db::Row;
use bucket_ids::Bucket;
use carriers::Carrier;
use cluster_states::ClusterState;
use distributor_part::DistributorPart;
use lane_journals::LaneEvent;
use lane_keeping::laws::{events_are_kept, marks_are_kept, owners_act, parts_are_told};
use lane_states::at_shortage::AtShortage;
use lane_states::event_log::push_within;
use lane_states::lane_state::LaneState;
use merge_rounds::Round;
use messages::{Decision, Job, Origin, Reply, Step};
use node_sets::NodeSet;
use round_keeping::laws::{rounds_begin, rounds_end, rounds_hear, rounds_send};
use round_keeping::{RoundEnd, RoundRun};
use std::alloc::Global;
use value_lists::NoMemory;

/// A round that begins.
#[derive(Clone, Copy)]
pub struct RoundPlan {
    pub bucket: Bucket,
    pub receivers: NodeSet,
}

/// Whether a node replied that it wants memory.
fn is_refusal(reply: &Reply) -> bool
    ensures { result ≡ is_refusal (noted_reply reply.now) }
{
    match reply {
        Reply::NoMemory => true,
        _ => false,
    }
}

/// A flag that a refusal raises in its phase.
fn raised(flag: bool, phase: bool, refused: bool) -> bool
    ensures { result ≡ (flag || (phase && refused)) }
{
    flag || (phase && refused)
}

/// Tells a round the reply of a node, or that none comes.
fn tell(round: &mut Round, node: u8, reply: Option<Reply>)
    requires awaited { round.old.awaited ≡ Some node }
    requires small { node < 32 }
    ensures { IsAfterReply round.old round.new node reply }
{
    round.take_reply(node, reply);
}

/// Tells a round the reply of a node, and keeps in mind that the node wants memory.
fn tell_run(run: &mut RoundRun, node: u8, reply: Reply)
    requires awaited { run.old.round.awaited ≡ Some node }
    requires small { node < 32 }
    ensures { IsRunToldBy run.old run.new node reply }
{
    let refused = is_refusal(&reply);
    let reading = run.round.is_reading();
    tell(&mut run.round, node, Some(reply));
    run.unread = raised(run.unread, reading, refused);
    run.unapplied = raised(run.unapplied, !reading, refused);
}

/// Tells a round what came back of the message to a node.
fn tell_back(run: &mut RoundRun, node: u8, reply: Option<Reply>)
    requires awaited { run.old.round.awaited ≡ Some node }
    requires small { node < 32 }
    ensures { IsRunTold run.old run.new node reply }
{
    match reply {
        Some(reply) => tell_run(run, node, reply),
        None => tell(&mut run.round, node, None),
    }
}

/// Whether a node has wanted memory for a round so far.
fn wants_memory(run: &RoundRun) -> bool
    ensures { result ≡ wants_memory run.now }
{
    run.unread || run.unapplied
}

/// The step by which a part begins the round of a key's row; none where the row has enough complete members.
fn begin_step(alloc: Global, part: &mut DistributorPart, key: u64) -> Option<RoundPlan>
    requires opened { IsSome part.old.rows }
    requires owner { IsOwning part.old }
    requires told { part.old.awaited ≡ None }
    requires no_round { part.old.stage ≡ stage.Before }
    requires inside { IsIn part.old.lane key }
    ensures some { IfSome result (λ plan. BeginsRound part.old part.new key plan.bucket plan.receivers) }
    ensures none { IfNone result (EndsEnough part.old part.new key) }
{
    let Ok(step) = part.next_step(alloc, Job::Prepare { key }) else {
        unreachable!();
    };
    match &step {
        Step::Decide(Decision::RoundBegun { bucket, receivers }) => Some(RoundPlan {
            bucket: *bucket,
            receivers: *receivers,
        }),
        Step::Finished { .. } => None,
        _ => unreachable!(),
    }
}

/// Begins the round of the row of a place at a part, and says what it is.
fn begin_at(part: &mut DistributorPart, at: usize) -> RoundPlan
    requires heard { IsSome part.old.state }
    requires opened { IsSome part.old.rows }
    requires place { at < length (rows_of part.old.rows) }
    requires no_round { part.old.stage ≡ stage.Before }
    ensures begins { BeginsRoundAt part.old part.new at result.bucket result.receivers }
    ensures key { LowIsThere part.old.lane result.bucket }
{
    let bucket = part.rows()[at].bucket;
    let receivers = part.begin_round(at);
    RoundPlan { bucket, receivers }
}

/// Tells a part that its round is over. Whom the round lacks is asked of the round, and so it is
/// of no matter here whether there is a union.
fn tell_over(part: &mut DistributorPart, round: &Round)
    requires { steps.IsRunning part.old.stage }
    ensures { IsToldOver part.old part.new round.now.holders }
{
    let Ok(()) = part.round_over(round.holders(), None, round.shown()) else {
        unreachable!();
    };
}

/// The step by which a part ends its round, and its job is over; gives the row of the key.
fn end_step(alloc: Global, part: &mut DistributorPart, key: u64) -> Row
    requires over { IsStageOver part.old.stage }
    requires opened { IsSome part.old.rows }
    requires owner { IsOwning part.old }
    requires told { part.old.awaited ≡ None }
    requires inside { IsIn part.old.lane key }
    ensures { EndsJob part.old part.new key result }
{
    let Ok(Step::Decide(Decision::RoundEnded { .. })) = part.next_step(alloc, Job::Prepare { key })
    else {
        unreachable!();
    };
    part.give_up();
    let at = part.row_of(key);
    part.rows()[at]
}

/// A round that has sent nothing.
fn run_of(
    alloc: Global,
    lane: Bucket,
    distributor: u8,
    state: ClusterState,
    key: u64,
    plan: RoundPlan,
) -> RoundRun
    requires { lane.bits ≤ 6 }
    ensures { IsNewRun lane distributor state key plan.bucket plan.receivers result }
{
    let origin = Origin {
        version: state.version(),
        lane: lane.low() as u8,
        sender: distributor,
    };
    let round = Round::new(alloc, origin, plan.bucket, state.serving(), plan.receivers);
    RoundRun {
        distributor,
        state,
        key,
        round,
        unread: false,
        unapplied: false,
    }
}

/// What a round came to, whose row is this.
fn end_of(run: &RoundRun, row: Row) -> RoundEnd
    ensures row { result.row ≡ row }
    ensures whole { (result.whole ≡ true) ↔ HaveAllShown run.now.round.readers run.now.round.shown }
    ensures missing { (n : ℕ) → has_node result.missing n ≡ are_missing run.now.round result.whole n }
    ensures short { result.short ≡ is_short run.now result.whole }
{
    if run.round.is_whole() {
        RoundEnd {
            row,
            whole: true,
            missing: run.round.receivers().difference(run.round.holders()),
            short: run.unapplied,
        }
    } else {
        RoundEnd {
            row,
            whole: false,
            missing: run.round.silent(),
            short: run.unread,
        }
    }
}

// ---- one message

/// Exchanges the next message of a round, and tells the round what came back; answers whether there was one.
fn step_round<C: Carrier>(
    lane: &mut LaneState,
    carrier: &mut C,
    run: &mut RoundRun,
) -> Result<bool, NoMemory>
    requires keeps { IsKept lane.old }
    requires spare { HasRoom 0 lane.old }
    requires runs { IsRunning lane.old.lane (journal_of lane.old) run.old }
    requires told { run.old.round.awaited ≡ None }
    requires carried { IsCarriedBy lane.old (C.given carrier.old) }
    ensures planned { C.planned carrier.new ≡ C.planned carrier.old }
    ensures kind { C.takes_plans carrier.new ≡ C.takes_plans carrier.old }
    ensures keeps { IsKept lane.new }
    ensures took { NodesOn lane.old lane.new }
    ensures spare { HasRoom 0 lane.new }
    ensures carried { IsCarriedBy lane.new (C.given carrier.new) }
    ensures runs { OnOk result (IsRunning lane.old.lane (journal_of lane.new) run.new) }
    ensures told { OnOk result (run.new.round.awaited ≡ None) }
    ensures less { IfOk result (λ some. some ≡ true → left run.new.round < left run.old.round) }
    ensures over { IfOk result (λ some. some ≡ false → IsOver run.new.round) }
    ensures cut { OnErr result (IsCutOff lane.old.lane (journal_of lane.new) run.new) }
    ensures on { RunsOn lane.old.lane run.old.distributor run.old.state (C.given carrier.old) (C.given carrier.new)
        lane.old.last lane.new.last lane.old.late.late lane.new.late.late (journal_of lane.old)
        (journal_of lane.new) }
    ensures same { GoesOn run.old run.new }
    ensures next { IfOk result (λ some. some ≡ true → lane.new.last ≡ lane.old.last + 1) }
    ensures settled { IfOk result (λ some. some ≡ true → HadMemory run.old
        → IsSettled lane.new.last (journal_of lane.new) (wants_memory run.new)) }
    ensures still { IfOk result (λ some. some ≡ false → lane.new.last ≡ lane.old.last) }
    ensures minds { IfOk result (λ some. some ≡ false → HadMemory run.old → HadMemory run.new) }
    ensures unsent { OnErr result (lane.new.last ≡ lane.old.last) }
    ensures after { lane.new ≡ record lane.old {
      journal = lane.new.journal;
      nodes = lane.new.nodes;
      late = lane.new.late;
      last = lane.new.last;
    } }
{
    events_are_kept();
    rounds_hear();
    rounds_send();
    let Some(message) = run.round.send(lane.alloc)? else {
        return Ok(false);
    };
    let node = message.receiver;
    let reply = lane.exchange(message, None, carrier)?;
    tell_back(run, node, reply);
    Ok(true)
}

/// Sends the messages of a round one after the other, until none is left. `NoMemory` is of the lane or where it ends
/// the round of a node, which cuts the round off.
fn send_all<C: Carrier>(
    lane: &mut LaneState,
    carrier: &mut C,
    run: &mut RoundRun,
    at_shortage: AtShortage,
) -> Result<(), NoMemory>
    requires keeps { IsKept lane.old }
    requires spare { HasRoom 0 lane.old }
    requires runs { IsRunning lane.old.lane (journal_of lane.old) run.old }
    requires told { run.old.round.awaited ≡ None }
    requires carried { IsCarriedBy lane.old (C.given carrier.old) }
    ensures planned { C.planned carrier.new ≡ C.planned carrier.old }
    ensures kind { C.takes_plans carrier.new ≡ C.takes_plans carrier.old }
    ensures keeps { IsKept lane.new }
    ensures took { NodesOn lane.old lane.new }
    ensures spare { HasRoom 0 lane.new }
    ensures carried { IsCarriedBy lane.new (C.given carrier.new) }
    ensures cut { IsCutOff lane.old.lane (journal_of lane.new) run.new }
    ensures runs { OnOk result (IsRunning lane.old.lane (journal_of lane.new) run.new) }
    ensures over { OnOk result (IsOver run.new.round) }
    ensures on { RunsOn lane.old.lane run.old.distributor run.old.state (C.given carrier.old) (C.given carrier.new)
        lane.old.last lane.new.last lane.old.late.late lane.new.late.late (journal_of lane.old)
        (journal_of lane.new) }
    ensures same { GoesOn run.old run.new }
    ensures fine { OnOk result (WhereItEnds at_shortage (HadMemory run.old → HadMemory run.new)) }
    ensures none_is_short { OnOk result (WhereItEnds at_shortage (HadMemory run.old
        → NoneIsShort lane.old.last lane.new.last (journal_of lane.new))) }
    ensures at_once { WhereItEnds at_shortage (HadMemory run.old
        → EndsAtOnce lane.old.last lane.new.last (journal_of lane.new)) }
    ensures after { lane.new ≡ record lane.old {
      journal = lane.new.journal;
      nodes = lane.new.nodes;
      late = lane.new.late;
      last = lane.new.last;
    } }
{
    'sending: while step_round(lane, carrier, run)? {
        if at_shortage.ends(wants_memory(run)) {
            return Err(NoMemory);
        }
    }
    Ok(())
}

// ---- a whole round

/// Begins a round in the row of a key, if it has too few complete members. No round is under
/// way in the lane, and no operation is prepared.
pub fn begin_round(lane: &mut LaneState, distributor: u8, key: u64) -> Option<RoundRun>
    requires keeps { IsKept lane.old }
    requires there { distributor < vec_len lane.old.parts }
    requires may { MayBegin lane.old.lane distributor (part_of lane.old distributor) key }
    requires none_runs { NoneRuns (journal_of lane.old) }
    requires free { (s : ClusterState) → (part_of lane.old distributor).state ≡ Some s
        → IsRowFree (journal_of lane.old) s lane.old.rules.acks key }
    requires room { vec_len lane.old.journal.events + 1 ≤ vec_capacity lane.old.journal.events }
    ensures keeps { IsKept lane.new }
    ensures begins { IfSome result (λ run. Begins lane.old.lane (journal_of lane.old) (journal_of lane.new)
        distributor key run) }
    ensures run_by { IfSome result (λ run. IsRunBy (part_of lane.new distributor) run) }
    ensures step { IfSome result (λ run. BeginsRound (part_of lane.old distributor) (part_of lane.new distributor)
        key run.round.row run.round.receivers) }
    ensures enough { IfNone result (EndsEnough (part_of lane.old distributor) (part_of lane.new distributor) key) }
    ensures nothing { IfNone result (journal_of lane.new ≡ journal_of lane.old) }
    ensures carried { (given : List Fate) → IsCarriedBy lane.old given → IsCarriedBy lane.new given }
    ensures others { OthersStay lane.old.lane lane.old.rules lane.old.parts.items lane.new.parts.items distributor }
    ensures after { lane.new ≡ record lane.old { journal = lane.new.journal; parts = lane.new.parts } }
    ensures parts { vec_len lane.new.parts ≡ vec_len lane.old.parts }
    ensures len { vec_len lane.new.journal.events ≤ vec_len lane.old.journal.events + 1 }
    ensures capacity { vec_capacity lane.old.journal.events ≤ vec_capacity lane.new.journal.events }
{
    events_are_kept();
    owners_act();
    parts_are_told();
    rounds_begin();
    let part = &mut lane.parts[usize::from(distributor)];
    let Some(state) = part.state() else {
        unreachable!();
    };
    let Some(plan) = begin_step(lane.alloc, part, key) else {
        return None;
    };
    // that it is a bucket is known once its bits are read
    let _bits = plan.bucket.bits();
    push_within(
        &mut lane.journal.events,
        LaneEvent::Decided {
            distributor,
            version: state.version(),
            decision: Decision::RoundBegun {
                bucket: plan.bucket,
                receivers: plan.receivers,
            },
        },
    );
    Some(run_of(lane.alloc, lane.lane, distributor, state, key, plan))
}

/// Begins a round in the row of a place, whatever its marks are. Its key is the row's lowest. No
/// round is under way in the lane, and no operation is prepared.
pub fn begin_round_at(lane: &mut LaneState, distributor: u8, at: usize) -> RoundRun
    requires keeps { IsKept lane.old }
    requires there { distributor < vec_len lane.old.parts }
    requires may { MayBeginAt lane.old.lane distributor (part_of lane.old distributor) at }
    requires none_runs { NoneRuns (journal_of lane.old) }
    requires idle { (v : ℕ) (b : Low) → Idle v b (history (journal_of lane.old)) }
    requires room { vec_len lane.old.journal.events + 1 ≤ vec_capacity lane.old.journal.events }
    ensures keeps { IsKept lane.new }
    ensures begins { Begins lane.old.lane (journal_of lane.old) (journal_of lane.new) distributor result.key
        result }
    ensures run_by { IsRunBy (part_of lane.new distributor) result }
    ensures step { BeginsRoundAt (part_of lane.old distributor) (part_of lane.new distributor) at
        result.round.row result.round.receivers }
    ensures inside { IsIn lane.old.lane result.key }
    ensures carried { (given : List Fate) → IsCarriedBy lane.old given → IsCarriedBy lane.new given }
    ensures others { OthersStay lane.old.lane lane.old.rules lane.old.parts.items lane.new.parts.items distributor }
    ensures after { lane.new ≡ record lane.old { journal = lane.new.journal; parts = lane.new.parts } }
    ensures parts { vec_len lane.new.parts ≡ vec_len lane.old.parts }
    ensures len { vec_len lane.new.journal.events ≡ vec_len lane.old.journal.events + 1 }
    ensures capacity { vec_capacity lane.old.journal.events ≤ vec_capacity lane.new.journal.events }
{
    events_are_kept();
    owners_act();
    parts_are_told();
    rounds_begin();
    let part = &mut lane.parts[usize::from(distributor)];
    let Some(state) = part.state() else {
        unreachable!();
    };
    let plan = begin_at(part, at);
    // that it is a bucket is known once its bits are read
    let _bits = plan.bucket.bits();
    let key = plan.bucket.low();
    push_within(
        &mut lane.journal.events,
        LaneEvent::Decided {
            distributor,
            version: state.version(),
            decision: Decision::RoundBegun {
                bucket: plan.bucket,
                receivers: plan.receivers,
            },
        },
    );
    run_of(lane.alloc, lane.lane, distributor, state, key, plan)
}

/// Ends a round with those that answered its union until then.
pub fn end_round(lane: &mut LaneState, run: &RoundRun) -> RoundEnd
    requires keeps { IsKept lane.old }
    requires there { run.now.distributor < vec_len lane.old.parts }
    requires runs { IsCutOff lane.old.lane (journal_of lane.old) run.now }
    requires run_by { IsRunBy (part_of lane.old run.now.distributor) run.now }
    requires inside { IsIn lane.old.lane run.now.key }
    requires room { vec_len lane.old.journal.events + 1 ≤ vec_capacity lane.old.journal.events }
    ensures keeps { IsKept lane.new }
    ensures grows { EndsWith run.now (journal_of lane.old) (journal_of lane.new) }
    ensures end { IsEnd (journal_of lane.new) run.now result }
    ensures none_runs { NoneRuns (journal_of lane.new) }
    ensures job { EndsRun (part_of lane.old run.now.distributor) (part_of lane.new run.now.distributor) run.now
        result.row }
    ensures carried { (given : List Fate) → IsCarriedBy lane.old given → IsCarriedBy lane.new given }
    ensures others { OthersStay lane.old.lane lane.old.rules lane.old.parts.items lane.new.parts.items
        run.now.distributor }
    ensures after { lane.new ≡ record lane.old { journal = lane.new.journal; parts = lane.new.parts } }
    ensures parts { vec_len lane.new.parts ≡ vec_len lane.old.parts }
    ensures len { vec_len lane.new.journal.events ≡ vec_len lane.old.journal.events + 1 }
    ensures capacity { vec_capacity lane.old.journal.events ≤ vec_capacity lane.new.journal.events }
{
    marks_are_kept();
    owners_act();
    parts_are_told();
    rounds_end();
    let part = &mut lane.parts[usize::from(run.distributor)];
    tell_over(part, &run.round);
    let row = end_step(lane.alloc, part, run.key);
    push_within(
        &mut lane.journal.events,
        LaneEvent::Decided {
            distributor: run.distributor,
            version: run.state.version(),
            decision: Decision::RoundEnded {
                bucket: run.round.row(),
                complete: run.round.holders(),
            },
        },
    );
    end_of(run, row)
}

/// Runs a round to its end: its messages one after the other, and then its end is decided. `NoMemory` is of the lane or
/// where that ends the round of a node, and it ends the round at once. There is room for the end. What it was told can
/// be read from it then.
pub fn run_round<C: Carrier>(
    lane: &mut LaneState,
    carrier: &mut C,
    run: &mut RoundRun,
    at_shortage: AtShortage,
) -> Result<RoundEnd, NoMemory>
    requires keeps { IsKept lane.old }
    requires there { run.old.distributor < vec_len lane.old.parts }
    requires runs { IsRunning lane.old.lane (journal_of lane.old) run.old }
    requires told { run.old.round.awaited ≡ None }
    requires run_by { IsRunBy (part_of lane.old run.old.distributor) run.old }
    requires inside { IsIn lane.old.lane run.old.key }
    requires carried { IsCarriedBy lane.old (C.given carrier.old) }
    requires room { HasRoom 1 lane.old }
    ensures planned { C.planned carrier.new ≡ C.planned carrier.old }
    ensures kind { C.takes_plans carrier.new ≡ C.takes_plans carrier.old }
    ensures keeps { IsKept lane.new }
    ensures took { NodesOn lane.old lane.new }
    ensures room { HasRoom 0 lane.new }
    ensures carried { IsCarriedBy lane.new (C.given carrier.new) }
    ensures whole { IfOk result (λ end. IsWholeRun lane.old.lane run.old end (C.given carrier.old) (C.given carrier.new)
        lane.old.last lane.new.last lane.old.late.late lane.new.late.late (journal_of lane.old)
        (journal_of lane.new)) }
    ensures cut { OnErr result (IsCutShort lane.old.lane run.old (C.given carrier.old) (C.given carrier.new)
        lane.old.last lane.new.last lane.old.late.late lane.new.late.late (journal_of lane.old)
        (journal_of lane.new)) }
    ensures same { GoesOn run.old run.new }
    ensures fine { OnOk result (WhereItEnds at_shortage (HadMemory run.old → HadMemory run.new)) }
    ensures none_is_short { OnOk result (WhereItEnds at_shortage (HadMemory run.old
        → NoneIsShort lane.old.last lane.new.last (journal_of lane.new))) }
    ensures at_once { WhereItEnds at_shortage (HadMemory run.old
        → EndsAtOnce lane.old.last lane.new.last (journal_of lane.new)) }
    ensures end { IfOk result (IsEnd (journal_of lane.new) run.new) }
    ensures none_runs { NoneRuns (journal_of lane.new) }
    ensures job { (row : Row) × EndsRun (part_of lane.old run.old.distributor)
        (part_of lane.new run.old.distributor) run.new row }
    ensures others { OthersStay lane.old.lane lane.old.rules lane.old.parts.items lane.new.parts.items
        run.old.distributor }
    ensures after { lane.new ≡ record lane.old {
      journal = lane.new.journal;
      nodes = lane.new.nodes;
      parts = lane.new.parts;
      late = lane.new.late;
      last = lane.new.last;
    } }
    ensures parts { vec_len lane.new.parts ≡ vec_len lane.old.parts }
{
    owners_act();
    let spare = lane.spare;
    lane.spare = spare + 1;
    let sent = send_all(lane, carrier, run, at_shortage);
    lane.spare = spare;
    let end = end_round(lane, run);
    match sent {
        Ok(()) => Ok(end),
        Err(_) => Err(NoMemory),
    }
}
