ghost use Rattle.std.specs.Prelude.{◌≡◌, ◌≤◌, ◌+◌, false, Some, OnErr, OnOk, IfOk, IfSome, IfNone};
ghost use Rattle.messages.specs.Noting.{message_of};
ghost use Rattle.messages.specs.declared.reply.Reply.TheVariants as replies;
ghost use Rattle.lane_journals.specs.Readers.{returned};
ghost use Rattle.lane_journals.specs.Meanings.{history};
ghost use Rattle.lane_keeping.specs.RoundKeeping.{origin_in};
ghost use Rattle.lane_states.specs.LaneStates.{journal_of, GivesOn, Went};
ghost use Rattle.lane_upkeep.specs.CameBack.{CameBack};
ghost use Rattle.lane_upkeep.specs.Noted.{StaysKnown};
ghost use Rattle.lane_upkeep.specs.Passing.{IsPassing, PassesOn, MayTell};
ghost use Rattle.lane_upkeep.specs.Quiet.{InQuiet, IsToldQuietly};

use crate::owner::Owner;
use bucket_ids::Bucket;
use carriers::Carrier;
use lane_carriage::laws::late_messages_wait;
use lane_states::LaneState;
use messages::{Body, Message, Origin, Reply};
use row_keeping::laws::rows_are_told;
use undisturbed_spans::tellings::undisturbed_tellings_are_told;
use upkeep_spans::laws::{upkeep_goes_on, upkeep_leaves_lines, upkeep_leaves_states};
use value_lists::NoMemory;

/// The message of the owner of a lane to a node.
fn message_to(lane: Bucket, owner: &Owner, node: u8, body: Body) -> Message
    requires { lane.bits ≤ 6 }
    ensures { result ≡ message_of (origin_in lane owner.now.distributor owner.now.state) node body }
{
    let origin = Origin {
        version: owner.state.version(),
        lane: lane.low() as u8,
        sender: owner.distributor,
    };
    origin.message(node, body)
}

/// The reply that came back, unless it says that the node wants memory.
fn unless_short(reply: Option<Reply>) -> Result<Option<Reply>, NoMemory>
    ensures same { IfOk result (λ given. given ≡ reply) }
    ensures fine { IfOk result (λ given. given ≡ Some replies.NoMemory → ⊥) }
    ensures short { OnErr result (reply ≡ Some replies.NoMemory) }
{
    match reply {
        Some(Reply::NoMemory) => Err(NoMemory),
        given => Ok(given),
    }
}

/// Says something of a row of the owner to a node: the message is dealt with by its fate, and the late messages that
/// are due then are given out. Answers the reply that came back. `NoMemory` comes before the message is sent or at the
/// node.
pub fn tell_node<C: Carrier>(
    lane: &mut LaneState,
    carrier: &mut C,
    owner: &Owner,
    node: u8,
    body: Body,
) -> Result<Option<Reply>, NoMemory>
    requires passing { IsPassing lane.old owner.now (C.given carrier.old) }
    requires may { MayTell lane.old owner.now node body }
    ensures planned { C.planned carrier.new ≡ C.planned carrier.old }
    ensures kind { C.takes_plans carrier.new ≡ C.takes_plans carrier.old }
    ensures passing { IsPassing lane.new owner.now (C.given carrier.new) }
    ensures on { PassesOn lane.old lane.new owner.now }
    ensures parts { lane.new.parts ≡ lane.old.parts }
    ensures went { OnOk result (Went lane.old lane.new
        (message_of (origin_in lane.old.lane owner.now.distributor owner.now.state) node body)
        (C.given carrier.old) (C.given carrier.new)) }
    ensures gives { GivesOn (C.given carrier.old) (C.given carrier.new) }
    ensures came { IfOk result (λ reply. IfSome reply (λ r. CameBack (journal_of lane.new) owner.now node body r)) }
    ensures silent { IfOk result (λ reply. IfNone reply
        (returned (lane.old.last + 1) (history (journal_of lane.new)) ≡ false)) }
    ensures fine { IfOk result (λ reply. reply ≡ Some replies.NoMemory → ⊥) }
    ensures quiet { IfOk result (λ reply. InQuiet (C.given carrier.new) lane.old lane.new owner.now
        (λ d s. IsToldQuietly d lane.old lane.new node body reply)) }
    ensures known { StaysKnown lane.old lane.new owner.now }
{
    rows_are_told();
    upkeep_goes_on();
    upkeep_leaves_lines();
    upkeep_leaves_states();
    late_messages_wait();
    undisturbed_tellings_are_told();
    let message = message_to(lane.lane, owner, node, body);
    let reply = lane.exchange(message, None, carrier)?;
    unless_short(reply)
}
