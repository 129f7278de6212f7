ghost use Rattle.std.specs.Prelude.{◌≡◌, ◌∷◌, true, false, None, OnOk, OnErr, IfOk};
ghost use Rattle.global_ids.specs.Keys.{key_of};
ghost use Rattle.node_model.specs.Takes.{IsKeyOf};
ghost use Rattle.op_machine.specs.Outcomes.{Asks, message_in};
ghost use Rattle.op_machine.specs.Standings.{next_at};
ghost use Rattle.lane_journals.specs.KeptJournals.{IsLegalStep};
ghost use Rattle.lane_journals.specs.declared.event.LaneEvent.TheVariants as event;
ghost use Rattle.lane_keeping.specs.LaneKeeping.{setting_of};
ghost use Rattle.lane_states.specs.LaneStates.{journal_of, IsKept, HasRoom, IsCarriedBy, StaysCarried};
ghost use Rattle.lane_lines.specs.Steps.{IsToWrite, IsToSend, IsReady, WritesOn, SendsIn, SentIn, IsPreparedIn, StandsOn, GoesIn, RunsIn, IsStandingTold, TellsOne, GivesOne, GivesFew, IsUneventful};
ghost use Rattle.stamps.specs.Places.{place_of};
ghost use Rattle.lane_states.specs.Written.{FindsEntries, AddsNoEntry};

use carriers::Carrier;
use documents::SharedEntry;
use lane_journals::LaneEvent;
use lane_keeping::node_laws::entries_are_written;
use lane_states::lane_state::LaneState;
use lane_states::written::keep_place;
use messages::{Body, Message};
use op_machine::OpMachine;
use operation_keeping::laws::{operations_hear, operations_send, operations_write};
use stamps::StampPlaces;
use value_lists::{NoMemory, TryCopy};

/// Notes that a line writes an entry, which may come next, and keeps its place.
fn write_entry(
    lane: &mut LaneState,
    places: &mut StampPlaces,
    line: u32,
    entry: &SharedEntry,
) -> Result<(), NoMemory>
    requires keeps { IsKept lane.old }
    requires spare { HasRoom 0 lane.old }
    requires legal { IsLegalStep (setting_of lane.old.lane lane.old.rules) (journal_of lane.old)
        (event.Wrote line entry.now) }
    requires finds { FindsEntries (place_of places.old) lane.old.journal.events.items }
    ensures keeps { IsKept lane.new }
    ensures spare { HasRoom 0 lane.new }
    ensures finds { FindsEntries (place_of places.new) lane.new.journal.events.items }
    ensures grows { OnOk result (journal_of lane.new ≡ event.Wrote line entry.now ∷ journal_of lane.old) }
    ensures err { OnErr result (journal_of lane.new ≡ journal_of lane.old) }
    ensures after { lane.new ≡ record lane.old { journal = lane.new.journal } }
{
    entries_are_written();
    let entry = entry.copy(lane.alloc)?;
    lane.journal.events.reserve(1 + lane.spare)?;
    let stamp = entry.entry().stamp;
    keep_place(lane.alloc, places, stamp, lane.journal.events.len())?;
    lane.note(LaneEvent::Wrote { line, entry });
    Ok(())
}

/// Writes the entry of the message that comes next, if that is a Store and nothing is written yet; answers
/// whether an entry is written.
fn write_wanted(
    lane: &mut LaneState,
    places: &mut StampPlaces,
    line: u32,
    written: bool,
    message: &Message,
) -> Result<bool, NoMemory>
    requires keeps { IsKept lane.old }
    requires spare { HasRoom 0 lane.old }
    requires wants { IsToWrite lane.old line written message.now }
    requires finds { FindsEntries (place_of places.old) lane.old.journal.events.items }
    ensures keeps { IsKept lane.new }
    ensures spare { HasRoom 0 lane.new }
    ensures finds { FindsEntries (place_of places.new) lane.new.journal.events.items }
    ensures ready { IfOk result (λ now. IsReady now message.now.body) }
    ensures writes { IfOk result (λ now. WritesOn lane.old lane.new line written now message.now) }
    ensures carried { StaysCarried lane.old lane.new }
    ensures quiet { IsUneventful (journal_of lane.old) (journal_of lane.new) }
    ensures err { OnErr result (journal_of lane.new ≡ journal_of lane.old) }
    ensures after { lane.new ≡ record lane.old { journal = lane.new.journal } }
{
    operations_write();
    match &message.body {
        Body::Store { entry } => {
            if written {
                return Ok(true);
            }
            write_entry(lane, places, line, entry)?;
            Ok(true)
        }
        Body::Ask
        | Body::Read { .. }
        | Body::Apply { .. }
        | Body::Delete { .. }
        | Body::Split { .. }
        | Body::Join { .. }
        | Body::Ready { .. }
        | Body::Activate { .. } => Ok(written),
    }
}

/// Exchanges the message that comes next, the key of whose document is known, and tells the machine the reply that came
/// back, or that none did.
fn exchange_operation<C: Carrier>(
    lane: &mut LaneState,
    machine: &mut OpMachine,
    key: u64,
    message: Message,
    carrier: &mut C,
) -> Result<(), NoMemory>
    requires keeps { IsKept lane.old }
    requires spare { HasRoom 0 lane.old }
    requires carried { IsCarriedBy lane.old (C.given carrier.old) }
    requires key { IsKeyOf message.body key }
    requires sends { IsToSend lane.old message }
    requires next { next_at machine.old ≡ Asks message }
    ensures keeps { IsKept lane.new }
    ensures spare { HasRoom 0 lane.new }
    ensures carried { IsCarriedBy lane.new (C.given carrier.new) }
    ensures planned { C.planned carrier.new ≡ C.planned carrier.old }
    ensures kind { C.takes_plans carrier.new ≡ C.takes_plans carrier.old }
    ensures quiet { IsUneventful (journal_of lane.old) (journal_of lane.new) }
    ensures entries { AddsNoEntry (journal_of lane.old) (journal_of lane.new) }
    ensures runs { OnOk result (SendsIn lane.old lane.new message machine.old) }
    ensures stands { OnOk result (SentIn lane.old lane.new message machine.old machine.new) }
    ensures told { OnOk result (IsStandingTold message machine.old machine.new) }
    ensures one { OnOk result (GivesOne (C.given carrier.old) (C.given carrier.new)) }
    ensures given { OnErr result (C.given carrier.new ≡ C.given carrier.old) }
    ensures err { OnErr result (journal_of lane.new ≡ journal_of lane.old) }
    ensures after { lane.new ≡ record lane.old {
      journal = lane.new.journal;
      last = lane.new.last;
      nodes = lane.new.nodes;
      late = lane.new.late;
    } }
{
    operations_send();
    operations_hear();
    let node = message.receiver;
    let reply = lane.exchange(message, Some(key), carrier)?;
    machine.take_reply(node, reply);
    Ok(())
}

/// Sends the next message of an operation that is prepared, if one is left, and deals with it; the entry of a Store is
/// written before. The key of its document is known. Answers whether one was left. At want of memory nothing more is
/// known of the operation than that it is under way.
pub fn send_next<C: Carrier>(
    lane: &mut LaneState,
    line: u32,
    key: u64,
    written: &mut bool,
    machine: &mut OpMachine,
    places: &mut StampPlaces,
    carrier: &mut C,
) -> Result<bool, NoMemory>
    requires keeps { IsKept lane.old }
    requires spare { HasRoom 0 lane.old }
    requires carried { IsCarriedBy lane.old (C.given carrier.old) }
    requires stands { IsPreparedIn lane.old line written.old machine.old }
    requires key { key ≡ key_of machine.old.plan.operation.id }
    requires finds { FindsEntries (place_of places.old) lane.old.journal.events.items }
    ensures keeps { IsKept lane.new }
    ensures spare { HasRoom 0 lane.new }
    ensures finds { FindsEntries (place_of places.new) lane.new.journal.events.items }
    ensures carried { IsCarriedBy lane.new (C.given carrier.new) }
    ensures planned { C.planned carrier.new ≡ C.planned carrier.old }
    ensures kind { C.takes_plans carrier.new ≡ C.takes_plans carrier.old }
    ensures quiet { IsUneventful (journal_of lane.old) (journal_of lane.new) }
    ensures run { RunsIn lane.old lane.new line machine.old }
    ensures going { GoesIn lane.new line machine.old.plan }
    ensures stands { OnOk result (StandsOn lane.old lane.new line written.old written.new machine.old machine.new) }
    ensures told { IfOk result (λ more. more ≡ true → TellsOne machine.old machine.new) }
    ensures over { IfOk result (λ more. more ≡ false → message_in (next_at machine.new) ≡ None) }
    ensures same { IfOk result (λ more. more ≡ false → machine.new ≡ machine.old) }
    ensures one { IfOk result (λ more. more ≡ true → GivesOne (C.given carrier.old) (C.given carrier.new)) }
    ensures few { GivesFew (C.given carrier.old) (C.given carrier.new) }
    ensures after { lane.new ≡ record lane.old {
      journal = lane.new.journal;
      last = lane.new.last;
      nodes = lane.new.nodes;
      late = lane.new.late;
    } }
{
    let Some(message) = machine.send(lane.alloc)? else {
        return Ok(false);
    };
    let ready = write_wanted(lane, places, line, *written, &message)?;
    *written = ready;
    exchange_operation(lane, machine, key, message, carrier)?;
    Ok(true)
}
