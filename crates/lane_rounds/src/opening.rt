ghost use Rattle.std.specs.Prelude.{◌≡◌, ℕ, ◌<◌, ◌+◌, ◌||◌, false, Some, OnOk, OnErr, IfOk, vec_len};
ghost use Rattle.lane_keeping.specs.Asking.{OthersStay};
ghost use Rattle.lane_states.specs.LaneStates.{journal_of, IsKept, HasRoom, part_of, Asks, IsCarriedBy, GivesOn, IsResting, Stays, Went, NodesOn};
ghost use Rattle.lane_states.specs.Growing.{HasHeard, IsSettled};
ghost use Rattle.lane_rounds.specs.Openings.{came_short, IsOpening, IsNext, AsksOn, StopsAsking, EndsAsking, StopsAfter, GivesUp, EndsOpening, StopsOpening};
ghost use Rattle.bucket_ids.specs.Buckets.{Low, IsIn};
ghost use Rattle.lane_journals.specs.Readers.{running};
ghost use Rattle.lane_journals.specs.Facts.{Idle};
ghost use Rattle.lane_journals.specs.Meanings.{history};
ghost use Rattle.lane_states.specs.Shortages.{WhereItEnds, NoneIsShort, EndsAtOnce};

use carriers::Carrier;
use lane_journals::LaneEvent;
use lane_keeping::laws::{asks_are_kept, openings_are_kept, parts_are_told};
use lane_states::at_shortage::AtShortage;
use lane_states::event_log::push_within;
use lane_states::lane_state::LaneState;
use messages::{Job, Message, Reply, Step};
use node_sets::NodeSet;
use value_lists::NoMemory;

/// The next step of a distributor that opens its state.
#[derive(Drop)]
pub enum OpeningStep {
    /// This Ask is to be sent.
    Asks(Message),
    /// The state was opened.
    Opened,
    /// Nobody is left to ask, and these haven't answered.
    Lacks(NodeSet),
}

/// What came of a step of a distributor that opens its state.
#[derive(Drop)]
pub enum Asking {
    /// A node was asked; whether it replied that it wants memory.
    Further(bool),
    /// The state was opened.
    Opened,
    /// Nobody is left to ask, and these haven't answered.
    Lacks(NodeSet),
}

/// How the job to open a state ended.
#[derive(Clone, Copy, PartialEq, Eq)]
pub struct OpeningEnd {
    /// None where the state was opened, else those that serve and haven't answered.
    pub missing: Option<NodeSet>,
    /// Whether one of those asked replied that it wants memory.
    pub short: bool,
}

fn either(one: bool, other: bool) -> bool
    ensures { result ≡ (one || other) }
{
    one || other
}

/// Whether a reply came that says that the node wants memory.
fn is_short(reply: &Option<Reply>) -> bool
    ensures { result ≡ came_short reply.now }
{
    match reply {
        Some(Reply::NoMemory) => true,
        _ => false,
    }
}

/// Exchanges the Ask of a distributor, and tells it the reply that came back, or that none did; answers whether the
/// node wants memory.
fn ask<C: Carrier>(
    lane: &mut LaneState,
    distributor: u8,
    message: Message,
    carrier: &mut C,
) -> Result<bool, NoMemory>
    requires keeps { IsKept lane.old }
    requires spare { HasRoom 0 lane.old }
    requires carried { IsCarriedBy lane.old (C.given carrier.old) }
    requires asks { Asks lane.old distributor message }
    requires awaited { (part_of lane.old distributor).awaited ≡ Some message.receiver }
    requires small { message.receiver < 32 }
    requires part { distributor < vec_len lane.old.parts }
    ensures planned { C.planned carrier.new ≡ C.planned carrier.old }
    ensures kind { C.takes_plans carrier.new ≡ C.takes_plans carrier.old }
    ensures gives { GivesOn (C.given carrier.old) (C.given carrier.new) }
    ensures keeps { IsKept lane.new }
    ensures took { NodesOn lane.old lane.new }
    ensures spare { HasRoom 0 lane.new }
    ensures carried { IsCarriedBy lane.new (C.given carrier.new) }
    ensures went { OnOk result (Went lane.old lane.new message (C.given carrier.old) (C.given carrier.new)) }
    ensures settled { IfOk result (λ short. IsSettled (lane.old.last + 1) (journal_of lane.new) short) }
    ensures told { OnOk result (HasHeard (part_of lane.old distributor) (part_of lane.new distributor)) }
    ensures others { OthersStay lane.old.lane lane.old.rules lane.old.parts.items lane.new.parts.items distributor }
    ensures stays { OnErr result (Stays lane.old lane.new) }
    ensures given { OnErr result (C.given carrier.new ≡ C.given carrier.old) }
    ensures after { lane.new ≡ record lane.old {
      journal = lane.new.journal;
      last = lane.new.last;
      nodes = lane.new.nodes;
      parts = lane.new.parts;
      late = lane.new.late;
    } }
    ensures parts { vec_len lane.new.parts ≡ vec_len lane.old.parts }
{
    asks_are_kept();
    parts_are_told();
    let node = message.receiver;
    let reply = lane.exchange(message, None, carrier)?;
    let short = is_short(&reply);
    lane.parts[usize::from(distributor)].take_reply(node, reply);
    Ok(short)
}

/// The next step of a distributor that owns the lane and opens its state; where all have answered the
/// state is opened.
fn opening_step(lane: &mut LaneState, distributor: u8, key: u64) -> Result<OpeningStep, NoMemory>
    requires keeps { IsKept lane.old }
    requires spare { HasRoom 0 lane.old }
    requires part { distributor < vec_len lane.old.parts }
    requires opening { IsOpening (part_of lane.old distributor) }
    requires key { IsIn lane.old.lane key }
    ensures keeps { IsKept lane.new }
    ensures spare { HasRoom 0 lane.new }
    ensures next { IfOk result (λ step. IsNext lane.old lane.new distributor step) }
    ensures stays { OnErr result (Stays lane.old lane.new) }
    ensures others { OthersStay lane.old.lane lane.old.rules lane.old.parts.items lane.new.parts.items distributor }
    ensures after { lane.new ≡ record lane.old { journal = lane.new.journal; parts = lane.new.parts } }
    ensures parts { vec_len lane.new.parts ≡ vec_len lane.old.parts }
{
    openings_are_kept();
    parts_are_told();
    lane.journal.events.reserve(1 + lane.spare)?;
    let step = lane.parts[usize::from(distributor)].next_step(lane.alloc, Job::Prepare { key })?;
    match step {
        Step::Send(message) => Ok(OpeningStep::Asks(message)),
        Step::Open { rows } => {
            let version = lane.parts[usize::from(distributor)].version();
            push_within(
                &mut lane.journal.events,
                LaneEvent::Opened {
                    distributor,
                    version,
                    rows,
                },
            );
            Ok(OpeningStep::Opened)
        }
        Step::Finished { missing } => Ok(OpeningStep::Lacks(missing)),
        Step::Decide(_) => unreachable!(),
    }
}

/// Asks one node more, or opens the state.
fn ask_next<C: Carrier>(
    lane: &mut LaneState,
    distributor: u8,
    key: u64,
    carrier: &mut C,
) -> Result<Asking, NoMemory>
    requires keeps { IsKept lane.old }
    requires spare { HasRoom 0 lane.old }
    requires carried { IsCarriedBy lane.old (C.given carrier.old) }
    requires part { distributor < vec_len lane.old.parts }
    requires opening { IsOpening (part_of lane.old distributor) }
    requires key { IsIn lane.old.lane key }
    ensures planned { C.planned carrier.new ≡ C.planned carrier.old }
    ensures kind { C.takes_plans carrier.new ≡ C.takes_plans carrier.old }
    ensures gives { GivesOn (C.given carrier.old) (C.given carrier.new) }
    ensures keeps { IsKept lane.new }
    ensures took { NodesOn lane.old lane.new }
    ensures spare { HasRoom 0 lane.new }
    ensures carried { IsCarriedBy lane.new (C.given carrier.new) }
    ensures asks { IfOk result (λ asking. AsksOn lane.old lane.new distributor asking) }
    ensures stops { OnErr result (StopsAsking lane.old lane.new distributor) }
    ensures others { OthersStay lane.old.lane lane.old.rules lane.old.parts.items lane.new.parts.items distributor }
    ensures after { lane.new ≡ record lane.old {
      journal = lane.new.journal;
      last = lane.new.last;
      nodes = lane.new.nodes;
      parts = lane.new.parts;
      late = lane.new.late;
    } }
    ensures parts { vec_len lane.new.parts ≡ vec_len lane.old.parts }
{
    match opening_step(lane, distributor, key)? {
        OpeningStep::Asks(message) => {
            let short = ask(lane, distributor, message, carrier)?;
            Ok(Asking::Further(short))
        }
        OpeningStep::Opened => Ok(Asking::Opened),
        OpeningStep::Lacks(missing) => Ok(Asking::Lacks(missing)),
    }
}

/// Asks node after node until the state is opened, or nobody is left to ask. `NoMemory` is of the lane or where that
/// ends it of a node.
fn ask_all<C: Carrier>(
    lane: &mut LaneState,
    distributor: u8,
    key: u64,
    carrier: &mut C,
    at_shortage: AtShortage,
) -> Result<OpeningEnd, NoMemory>
    requires keeps { IsKept lane.old }
    requires spare { HasRoom 0 lane.old }
    requires carried { IsCarriedBy lane.old (C.given carrier.old) }
    requires part { distributor < vec_len lane.old.parts }
    requires opening { IsOpening (part_of lane.old distributor) }
    requires key { IsIn lane.old.lane key }
    ensures planned { C.planned carrier.new ≡ C.planned carrier.old }
    ensures kind { C.takes_plans carrier.new ≡ C.takes_plans carrier.old }
    ensures gives { GivesOn (C.given carrier.old) (C.given carrier.new) }
    ensures keeps { IsKept lane.new }
    ensures took { NodesOn lane.old lane.new }
    ensures spare { HasRoom 0 lane.new }
    ensures carried { IsCarriedBy lane.new (C.given carrier.new) }
    ensures ends { IfOk result (λ end.
        EndsAsking lane.old distributor end (journal_of lane.new) (part_of lane.new distributor)) }
    ensures stops { OnErr result
        (StopsAfter lane.old distributor (journal_of lane.new) (part_of lane.new distributor)) }
    ensures fine { IfOk result (λ end. WhereItEnds at_shortage (end.short ≡ false)) }
    ensures none_is_short { OnOk result (WhereItEnds at_shortage
        (NoneIsShort lane.old.last lane.new.last (journal_of lane.new))) }
    ensures at_once { WhereItEnds at_shortage
        (EndsAtOnce lane.old.last lane.new.last (journal_of lane.new)) }
    ensures others { OthersStay lane.old.lane lane.old.rules lane.old.parts.items lane.new.parts.items distributor }
    ensures after { lane.new ≡ record lane.old {
      journal = lane.new.journal;
      last = lane.new.last;
      nodes = lane.new.nodes;
      parts = lane.new.parts;
      late = lane.new.late;
    } }
    ensures parts { vec_len lane.new.parts ≡ vec_len lane.old.parts }
{
    let mut short = false;
    'asking: loop {
        match ask_next(lane, distributor, key, carrier)? {
            Asking::Further(one) => {
                short = either(short, one);
                if at_shortage.ends(short) {
                    return Err(NoMemory);
                }
            }
            Asking::Opened => {
                return Ok(OpeningEnd {
                    missing: None,
                    short,
                });
            }
            Asking::Lacks(missing) => {
                return Ok(OpeningEnd {
                    missing: Some(missing),
                    short,
                });
            }
        }
    }
}

/// The job of a distributor ends before it is finished.
pub fn give_up(lane: &mut LaneState, distributor: u8)
    requires keeps { IsKept lane.old }
    requires part { distributor < vec_len lane.old.parts }
    ensures keeps { IsKept lane.new }
    ensures gives_up { GivesUp (part_of lane.old distributor) (part_of lane.new distributor) }
    ensures others { OthersStay lane.old.lane lane.old.rules lane.old.parts.items lane.new.parts.items distributor }
    ensures after { lane.new ≡ record lane.old { parts = lane.new.parts } }
    ensures parts { vec_len lane.new.parts ≡ vec_len lane.old.parts }
{
    parts_are_told();
    lane.parts[usize::from(distributor)].give_up();
}

/// Opens the state of a distributor that owns the lane, or asks all that serve and haven't answered yet. `NoMemory` is
/// of the lane or where that ends the opening of a node.
pub fn open_state<C: Carrier>(
    lane: &mut LaneState,
    distributor: u8,
    key: u64,
    carrier: &mut C,
    at_shortage: AtShortage,
) -> Result<OpeningEnd, NoMemory>
    requires keeps { IsKept lane.old }
    requires spare { HasRoom 0 lane.old }
    requires carried { IsCarriedBy lane.old (C.given carrier.old) }
    requires part { distributor < vec_len lane.old.parts }
    requires opening { IsOpening (part_of lane.old distributor) }
    requires key { IsIn lane.old.lane key }
    ensures planned { C.planned carrier.new ≡ C.planned carrier.old }
    ensures kind { C.takes_plans carrier.new ≡ C.takes_plans carrier.old }
    ensures gives { GivesOn (C.given carrier.old) (C.given carrier.new) }
    ensures keeps { IsKept lane.new }
    ensures took { NodesOn lane.old lane.new }
    ensures spare { HasRoom 0 lane.new }
    ensures carried { IsCarriedBy lane.new (C.given carrier.new) }
    ensures ends { IfOk result (λ end. EndsOpening lane.old lane.new distributor end) }
    ensures stops { OnErr result (StopsOpening lane.old lane.new distributor) }
    ensures fine { IfOk result (λ end. WhereItEnds at_shortage (end.short ≡ false)) }
    ensures none_is_short { OnOk result (WhereItEnds at_shortage
        (NoneIsShort lane.old.last lane.new.last (journal_of lane.new))) }
    ensures at_once { WhereItEnds at_shortage
        (EndsAtOnce lane.old.last lane.new.last (journal_of lane.new)) }
    ensures resting { IsResting (part_of lane.new distributor) }
    ensures rounds { (v : ℕ) (b : Low)
        → running v b (history (journal_of lane.new)) ≡ running v b (history (journal_of lane.old)) }
    ensures idle { ((v : ℕ) (b : Low) → Idle v b (history (journal_of lane.old)))
        → (v : ℕ) (b : Low) → Idle v b (history (journal_of lane.new)) }
    ensures others { OthersStay lane.old.lane lane.old.rules lane.old.parts.items lane.new.parts.items distributor }
    ensures after { lane.new ≡ record lane.old {
      journal = lane.new.journal;
      last = lane.new.last;
      nodes = lane.new.nodes;
      parts = lane.new.parts;
      late = lane.new.late;
    } }
    ensures parts { vec_len lane.new.parts ≡ vec_len lane.old.parts }
{
    match ask_all(lane, distributor, key, carrier, at_shortage) {
        Ok(end) => {
            give_up(lane, distributor);
            Ok(end)
        }
        Err(error) => {
            give_up(lane, distributor);
            Err(error)
        }
    }
}
