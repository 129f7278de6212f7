ghost use Rattle.std.specs.Prelude.{◌≡◌, ◌≤◌, ◌<◌, [], ◌∷◌, List, true, false, None, Some, IsSome, IfSome, IfOk, OnOk, OnErr, length, ℕ, ◌^◌, Option, ◌⊎◌};
ghost use Rattle.std.specs.Option.{option_copied};
ghost use Rattle.bucket_ids.specs.Buckets.{IsIn};
ghost use Rattle.global_ids.specs.Keys as keys;
ghost use Rattle.cluster_states.specs.Publishing.{publish_fault};
ghost use Rattle.carriers.specs.Fates.{planned_with};
ghost use Rattle.op_machine.specs.Plans.{IsOwn};
ghost use Rattle.lane_journals.specs.Buckets.{key_of};
ghost use Rattle.lane_journals.specs.Readers.{held};
ghost use Rattle.lane_journals.specs.Meanings.{history, entry_at};
ghost use Rattle.lane_journals.specs.Places.{told};
ghost use Rattle.lane_journals.specs.KeptJournals.{past};
ghost use Rattle.lane_journals.specs.declared.event.LaneEvent.TheVariants as event;
ghost use Rattle.lane_keeping.specs.NodeKeeping.{NodeKeeps};
ghost use Rattle.lane_keeping.specs.LaneKeeping.{setting_of};
ghost use Rattle.lane_keeping.specs.Lines.{IsFresh};
ghost use Rattle.op_machine.specs.Plans.{IsPlainGet};
ghost use Rattle.lane_keeping.specs.Tidings.{announced, stopped_next, started_next, last_state};
ghost use Rattle.lane_calls.specs.LaneValues.{LaneValue, new_value, IsLaneValue, IsHearing, IsBeginning, IsBeginningAtOwner, MayAdvance, MayClose, Closes};
ghost use Rattle.lane_core.specs.Advancing.{IsAdvance};
ghost use Rattle.lane_states.specs.LaneStates.{IsSetUp};
ghost use Rattle.lane_states.specs.Told.{ShowsOn, change_count};
ghost use Rattle.lane_keeping.specs.Shown.{node_or_new, HasEntries, HasRows};
ghost use Rattle.lane_calls.specs.Upkept.{IsUpkept};
ghost use Rattle.lane_lives.specs.Settings.{IsSetting};
ghost use Rattle.lane_lives.specs.Serving.{IsServing};
ghost use Rattle.lane_core.specs.Runs.{IsLineRun, HasAlone, IsFinish};
ghost use Rattle.lane_core.specs.Shelved.{HoldsFirst};
ghost use Rattle.lane_core.specs.Showing.{IsSettled, AreActivated};
ghost use Rattle.lane_changes.specs.Changes.{changes_of};
ghost use Rattle.view_changes.specs.declared.change.LaneChange.{LaneChange};
ghost use Rattle.view_changes.specs.Kept.{IsView};
ghost use Rattle.search_laws.specs.Searches.{LieIn};
ghost use Rattle.journal_views.specs.JournalViews.{view_of, Shows, FindRoom};
ghost use Rattle.shelves.specs.Shelves.{ShowsSame};
ghost use Rattle.lane_lives.specs.Upkeep.{MayBeUpkept};
ghost use Rattle.lane_core.specs.Passes.{HasPassed, IsPassed};
ghost use Rattle.lane_core.specs.Undisturbed.{IsUndisturbed};
ghost use Rattle.upkeep_spans.specs.declared.answers.Upkeep.{Upkeep};
ghost use Rattle.upkeep_spans.specs.declared.answers.Upkeep.TheVariants as upkeep;

use crate::jobs::place_of;
use crate::work::Work;
use bucket_db::Row;
use bucket_ids::Bucket;
use carriers::{Carrier, Carriers, Fate};
use cluster_states::ClusterState;
use distributor_part::Rules;
use documents::Entry;
use lane_calls::answers::{Advance, Begin, Hear};
use lane_carriage::laws::messages_are_carried;
use lane_journals::LaneEvent;
use lane_journals::laws::states_are_published;
use lane_lives::Setting;
use lane_lives::spans::UpkeepSpan;
use lane_states::known_owner::KnownOwner;
use lane_states::written::entry_in;
use lane_views::LaneView;
use messages::{Operation, Outcome};
use node_rows::SharedSchema;
use node_sets::NodeSet;
use node_views::view_of_nodes;
use service_layer::NodePart;
use shelves::laws::shelves_hold;
use shelves::{NoShelf, Shelf};
use stamps::Stamp;
use std::alloc::Global;
use std::marker::Model;
use upkeep_spans::laws::{upkeep_goes_on, upkeep_leaves_states};
use upkeep_spans::{Upkeep, Watching};
use value_lists::NoMemory;

/// A lane: its journal and what it says, the carrier of its messages, the operations under way, of any number of lines
/// and at any distributors, and the shelf to which the changes of its view go.
#[derive(Drop)]
pub struct Lane<C: Carrier + Drop, H: Shelf + Drop> {
    work: Work,
    /// The owner under the state that was published last.
    owner: Option<KnownOwner>,
    carrier: Watching<C>,
    shelf: H,
}

impl<C: Carrier + Drop, H: Shelf + Drop> Model for Lane<C, H> {
    ghost use Rattle.lane_core.specs.Shelved.{Shelved, shelved_code};
    ghost use Rattle.lane_core.specs.Works.{value_of};
    ghost use Rattle.lane_core.specs.LaneInside.{IsLane};
    ghost use Rattle.upkeep_spans.specs.Watches.{takes_plans, planned_in};

    ghost Value = { Shelved H };

    ghost coded = { shelved_code H.code };

    ghost view = { λ l. record {
      lane = value_of l.work l.carrier.given (planned_in l.carrier.plans) (takes_plans l.carrier.plans);
      shelf = l.shelf;
    } };

    ghost invariant = { λ l. IsLane H.shows H.pending l.work l.carrier.given l.shelf };
}

impl<C: Carrier + Drop, H: Shelf + Drop> Lane<C, H> {
    /// A lane in which nothing happened, of this number among those of so many bits, with documents of the types of a
    /// schema, and with a shelf that has no change.
    pub fn new(
        alloc: Global,
        lane: u8,
        bits: u8,
        rules: Rules,
        schema: SharedSchema,
        carrier: C,
        shelf: H,
    ) -> Result<Lane<C, H>, NoMemory>
        requires set_up { IsSetUp (record { bits = bits; low = lane }) rules }
        requires unused { C.given carrier ≡ [] }
        requires shown { H.shows shelf [] }
        requires pending { H.pending shelf ≡ [] }
        ensures lane { IfOk result (λ made. made.lane ≡ new_value (record { bits = bits; low = lane }) rules schema []
            (C.planned carrier) (C.takes_plans carrier)) }
        ensures shelf { IfOk result (λ made. made.shelf ≡ shelf) }
    {
        let work = Work::new(alloc, Bucket::new(bits, u64::from(lane)), rules, schema)?;
        Ok(Lane {
            work,
            owner: None,
            carrier: Watching::new(alloc, carrier),
            shelf,
        })
    }

    // ---- states

    /// Makes room for one publication with all that hear it, or for one stop or start.
    pub fn room(&mut self) -> Result<(), NoMemory>
        ensures ok { OnOk result (self.new
            ≡ record self.old { lane = record self.old.lane { has_room = true } }) }
        ensures err { OnErr result (self.new ≡ self.old) }
    {
        self.work.room()
    }

    /// Publishes a state. Room was made for it since the last one.
    pub fn publish(&mut self, state: &ClusterState)
        requires room { self.old.lane.has_room ≡ true }
        requires accepted { publish_fault (told (setting_of self.old.lane.lane self.old.lane.rules) self.old.lane.journal) state.now
            ≡ None }
        ensures { self.new ≡ record self.old {
          lane = record self.old.lane {
            journal = event.Published state.now ∷ self.old.lane.journal;
            has_room = false;
          };
        } }
    {
        self.work.publish(state);
        self.owner = KnownOwner::new(self.work.state.lane, state);
    }

    /// Publishes a state, which all distributors hear but the deaf ones, in rising number. Room
    /// was made for it since the last one.
    pub fn announce(&mut self, state: &ClusterState, deaf: NodeSet)
        requires idle { self.old.lane.under_way ≡ [] }
        requires room { self.old.lane.has_room ≡ true }
        requires accepted { publish_fault (told (setting_of self.old.lane.lane self.old.lane.rules) self.old.lane.journal) state.now
            ≡ None }
        ensures { self.new ≡ record self.old {
          lane = record self.old.lane { journal = announced deaf state.now self.old.lane.journal; has_room = false };
        } }
    {
        self.work.announce(state, deaf);
        self.owner = KnownOwner::new(self.work.state.lane, state);
    }

    /// The version of the state that a distributor holds, if it holds one.
    pub fn held(&self, distributor: u8) -> Option<u32>
        ensures { result ≡ held distributor (history self.now.lane.journal) }
    {
        self.work.state.held(distributor)
    }

    /// A distributor hears the newest state, where it holds none or an older one; that asks that none of its operations is
    /// under way.
    pub fn hear(&mut self, distributor: u8) -> Hear
        requires published { IsSome (last_state self.old.lane.journal) }
        requires number { distributor < 32 }
        ensures hears { IsHearing distributor self.old.lane self.new.lane result }
        ensures shelf { self.new.shelf ≡ self.old.shelf }
    {
        self.work.hear(distributor)
    }

    // ---- nodes

    /// A node stops; nothing happens where it is stopped already. Room was made for it.
    pub fn stop(&mut self, node: u8)
        requires room { self.old.lane.has_room ≡ true }
        requires number { node < 32 }
        ensures { self.new ≡ record self.old {
          lane = record self.old.lane { journal = stopped_next node self.old.lane.journal; has_room = false };
        } }
    {
        self.work.stop(node);
    }

    /// A node starts; nothing happens where it isn't stopped. Room was made for it.
    pub fn start(&mut self, node: u8)
        requires room { self.old.lane.has_room ≡ true }
        requires number { node < 32 }
        ensures { self.new ≡ record self.old {
          lane = record self.old.lane { journal = started_next node self.old.lane.journal; has_room = false };
        } }
    {
        self.work.start(node);
    }

    // ---- operations

    /// Begins the operation of a line at a distributor, which draws its stamp; refused exactly where that
    /// distributor doesn't own the lane under the state that it holds, and else held exactly where an operation of the
    /// document is under way. Room is made for its close.
    pub fn begin(&mut self, line: u32, key: u64, operation: &Operation, via: u8) -> Begin
        requires key { key ≡ keys.key_of operation.now.id }
        requires line { 1 ≤ line }
        requires fresh { IsFresh (history self.old.lane.journal) line }
        requires number { via < 32 }
        requires holds { IsSome (held via (history self.old.lane.journal)) }
        requires in_lane { IsIn self.old.lane.lane (key_of operation.now.id) }
        requires own { IsOwn operation.now.id operation.now.kind }
        requires plain { IsPlainGet operation.now }
        ensures begins { IsBeginning line operation.now via self.old.lane self.new.lane result }
        ensures shelf { self.new.shelf ≡ self.old.shelf }
    {
        self.work
            .begin(line, key, operation, via, self.owner.as_ref())
    }

    /// Begins the operation of a line at the lane's owner under the newest state, which first hears that state; held where
    /// an operation stands against either. Room is made for its close. The other error is want of memory, and then nothing has
    /// changed.
    pub fn begin_at_owner(&mut self, line: u32, key: u64, operation: &Operation) -> Begin
        requires key { key ≡ keys.key_of operation.now.id }
        requires line { 1 ≤ line }
        requires fresh { IsFresh (history self.old.lane.journal) line }
        requires published { IsSome (last_state self.old.lane.journal) }
        requires in_lane { IsIn self.old.lane.lane (key_of operation.now.id) }
        requires own { IsOwn operation.now.id operation.now.kind }
        requires plain { IsPlainGet operation.now }
        ensures begins { IsBeginningAtOwner line operation.now self.old.lane self.new.lane result }
        ensures shelf { self.new.shelf ≡ self.old.shelf }
    {
        self.work
            .begin_at_owner(line, key, operation, self.owner.as_ref())
    }

    /// Prepares the operation of the line, which was begun, and then sends one message with each call and deals with it. At
    /// most 65 calls are needed that answer `More` or `Done`. It waits exactly where it wants a round of its row and another
    /// operation is prepared there.
    pub fn advance(&mut self, line: u32) -> Advance
        requires { MayAdvance line self.old.lane.under_way }
        ensures advances { IsAdvance line self.old.lane self.new.lane result }
        ensures shelf { self.new.shelf ≡ self.old.shelf }
    {
        let at = place_of(&self.work.jobs, line);
        if self.work.is_begun(at) {
            return self.work.prepare(at, &mut self.carrier);
        }
        self.work.step(at, &mut self.carrier)
    }

    /// Closes the operation of the line, which is over or wanted memory.
    pub fn close(&mut self, line: u32) -> Outcome
        requires { MayClose line self.old.lane.under_way }
        ensures closes { Closes line result self.old.lane self.new.lane }
        ensures shelf { self.new.shelf ≡ self.old.shelf }
    {
        self.work.close(line)
    }

    // ---- upkeep

    /// The lane's owner under the newest state hears it, and makes a pass of upkeep, unless an operation is under way; then the first is named.
    /// `Rested`, `Blocked` and `Disturbed` say what came of its messages, and `Rested` that the lane is at rest. A missing
    /// answer leaves out what needs it, and the pass goes on; after `NoMemory` what was done stays.
    pub fn upkeep(&mut self) -> Upkeep
        requires published { IsSome (last_state self.old.lane.journal) }
        ensures upkept { IsUpkept self.old.lane self.new.lane result }
        ensures passes { HasPassed self.old.lane self.new.lane result }
        ensures shelf { self.new.shelf ≡ self.old.shelf }
    {
        upkeep_goes_on();
        messages_are_carried();
        if let Some(job) = self.work.jobs.first() {
            return Upkeep::Held { by: job.line };
        }
        let from = self.work.state.journal.events.len();
        let sent = self.work.state.last;
        match self.work.upkeep(&mut self.carrier, self.owner.as_ref()) {
            Ok(()) => self
                .carrier
                .tell(&self.work.state.journal.events, from, sent),
            Err(NoMemory) => Upkeep::NoMemory,
        }
    }

    // ---- the carrier

    /// Plans the fates of the coming messages, behind those that are planned; `false` exactly where the
    /// carrier takes no plans.
    pub fn plan(&mut self, fates: &[Fate]) -> Result<bool, NoMemory>
        ensures taken { IfOk result (λ taken. taken ≡ self.old.lane.takes_plans) }
        ensures ok { IfOk result (λ taken. self.new ≡ record self.old {
          lane = record self.old.lane { planned = planned_with taken self.old.lane.planned fates.now };
        }) }
        ensures err { OnErr result (self.new ≡ self.old) }
    {
        self.carrier.plan(fates)
    }

    // ---- what it has

    /// The events, oldest first. They are a legal journal, each message had just the events of its fate,
    /// and each line that was begun is closed but for those under way.
    pub fn journal(&self) -> &[LaneEvent]
        ensures events { past result.now ≡ self.now.lane.journal }
        ensures lane { IsLaneValue self.now.lane }
    {
        &self.work.state.journal.events
    }

    /// How many changes of what a search sees its events give; at 2^64 - 1 so many or more.
    pub fn change_count(&self) -> u64
        ensures { result ≡ change_count self.now.lane.journal }
    {
        self.work.state.change_count()
    }

    // ---- what searches see

    /// Appends to the shelf all changes that its events gave so far, in order, and publishes them. `NoMemory` comes
    /// also for a count of 2^64 - 1 changes; those that weren't appended are kept then, and the others are shown or
    /// pending.
    pub fn settle(&mut self) -> Result<(), NoMemory>
        // All of them are shown, and none is pending or kept.
        ensures settled { OnOk result (IsSettled H.shows H.pending self.new) }

        // What was shown still is, and the shelf has the first of them, perhaps all.
        ensures more { ShowsOn (H.shows self.old.shelf) (H.shows self.new.shelf) }
        ensures holds { HoldsFirst (H.shows self.new.shelf) (H.pending self.new.shelf) (changes_of self.old.lane.journal) }
        ensures name { H.name self.new.shelf ≡ H.name self.old.shelf }
        ensures lane { self.new.lane ≡ self.old.lane }
    {
        shelves_hold::<H>();
        self.work.hand_over(&mut self.shelf)?;
        self.shelf.publish()
    }

    /// The shelf. It has the first of the changes that the events gave, shown and then pending.
    pub fn shelf(&self) -> &H
        ensures own { result.now ≡ self.now.shelf }
        ensures holds { HoldsFirst (H.shows result.now) (H.pending result.now) (changes_of self.now.lane.journal) }
    {
        &self.shelf
    }

    /// A note of the shelf, which tells of the changes that are shown. It takes no memory.
    pub fn tell(&mut self) -> H::Note
        ensures note { H.notes (H.name self.old.shelf) result }
        ensures told { (cs : List LaneChange) → H.shows self.old.shelf cs → H.tells (H.name self.old.shelf) result cs }

        // Nothing else has changed.
        ensures shown { ShowsSame (H.shows self.old.shelf) (H.shows self.new.shelf) }
        ensures pending { H.pending self.new.shelf ≡ H.pending self.old.shelf }
        ensures name { H.name self.new.shelf ≡ H.name self.old.shelf }
        ensures lane { self.new.lane ≡ self.old.lane }
    {
        self.shelf.tell()
    }

    /// The lane without its shelf and the changes that are kept for it. It takes no memory.
    pub fn unshelve(self) -> Lane<C, NoShelf>
        ensures { result.lane ≡ self.lane }
    {
        let Lane {
            mut work,
            owner,
            carrier,
            shelf: _,
        } = self;
        work.drop_kept();
        Lane {
            work,
            owner,
            carrier,
            shelf: NoShelf,
        }
    }

    /// A view of the nodes as they stand. It shows what is read off the whole journal, and its regions lie in the lane,
    /// where the entries that were written are below 2^32 - 1.
    pub fn view(&self) -> Result<LaneView, NoMemory>
        ensures shows { IfOk result (λ view. FindRoom self.now.lane.journal
            → Shows (view_of self.now.lane.types self.now.lane.journal) view) }
        ensures view { IfOk result (λ view. FindRoom self.now.lane.journal → IsView view) }
        ensures lies { IfOk result (λ view. FindRoom self.now.lane.journal → LieIn self.now.lane.lane view.nodes) }
    {
        view_of_nodes(
            self.work.state.alloc,
            &self.work.schema,
            &self.work.state.nodes,
            self.work.state.stopped,
        )
    }

    /// The entry that was written with a stamp.
    pub fn entry(&self, stamp: Stamp) -> Option<&Entry>
        ensures { option_copied result ≡ entry_at stamp self.now.lane.journal }
    {
        entry_in(&self.work.places, &self.work.state.journal.events, stamp)
    }

    /// A node's part, which is what the journal says of it; one that isn't there took no message.
    pub fn node(&self, number: u8) -> Option<&NodePart>
        ensures { NodeKeeps self.now.lane.journal number (node_or_new (option_copied result)) }
    {
        self.work.state.node_at(number)
    }

    /// How many entries the node holds, removes among them.
    pub fn entries_at(&self, node: u8) -> u64
        ensures { HasEntries self.now.lane.journal node result }
    {
        self.work.state.entries_at(node)
    }

    /// The rows of a distributor in rising bucket number; none before it opened its state.
    pub fn rows(&self, distributor: u8) -> &[Row]
        ensures rows { HasRows self.now.lane.lane self.now.lane.rules self.now.lane.journal distributor result.now }
        ensures activated { AreActivated distributor self.now.lane.journal result.now }
    {
        self.work.state.rows_at(distributor)
    }
}

/// The lane of a number with its carrier and its shelf, which has no change, where the first state was published and
/// heard by all distributors, and is shown. The schema is that of the setting.
pub fn open_lane<C: Carriers, H: Shelf + Drop>(
    alloc: Global,
    lane: u8,
    setting: &Setting,
    schema: SharedSchema,
    shelf: H,
    carriers: &mut C,
) -> Result<Lane<C::One, H>, NoMemory>
    requires setting { IsSetting setting.now }
    requires lane { lane < 2 ^ setting.now.bits }
    requires types { schema ≡ setting.now.schema }
    requires shown { H.shows shelf [] }
    requires pending { H.pending shelf ≡ [] }
    ensures new { IfOk result (λ made. IsServing setting.now (C.plans carriers.old lane) lane [] made.lane) }
    ensures settled { IfOk result (IsSettled H.shows H.pending) }
    ensures name { IfOk result (λ made. H.name made.shelf ≡ H.name shelf) }
    ensures same { (other : ℕ) → C.plans carriers.new other ≡ C.plans carriers.old other }
{
    let carrier = carriers.make(alloc, lane)?;
    let mut made = Lane::new(
        alloc,
        lane,
        setting.bits,
        setting.rules,
        schema,
        carrier,
        shelf,
    )?;
    made.room()?;
    made.announce(&setting.initial, NodeSet::none());
    // that its journal is legal is known once it is read
    let _journal = made.journal();
    made.settle()?;
    Ok(made)
}

/// Does what a line asks for: its operation, by the key of its document, is begun at the distributor that the line
/// names, or else at the lane's owner under the newest state, which first hears that state; it goes on until it wants
/// nothing more, and is closed. A distributor that isn't the owner under the state that it holds refuses the line.
/// `NoMemory` comes as it would begin, and then nothing has changed; want of memory later is its outcome.
pub fn run_line<C: Carrier + Drop, H: Shelf + Drop>(
    lane: &mut Lane<C, H>,
    line: u32,
    key: u64,
    operation: &Operation,
    via: Option<u8>,
) -> Result<Outcome, NoMemory>
    requires key { key ≡ keys.key_of operation.now.id }
    requires idle { lane.old.lane.under_way ≡ [] }
    requires line { 1 ≤ line }
    requires fresh { IsFresh (history lane.old.lane.journal) line }
    requires published { IsSome (last_state lane.old.lane.journal) }
    requires number { IfSome via (λ d. d < 32) }
    requires holds { IfSome via (λ d. IsSome (held d (history lane.old.lane.journal))) }
    requires in_lane { IsIn lane.old.lane.lane (key_of operation.now.id) }
    requires own { IsOwn operation.now.id operation.now.kind }
    requires plain { IsPlainGet operation.now }
    ensures ok { IfOk result (λ outcome.
        IsLineRun (record { number = line; operation = operation.now; via = via }) lane.old.lane lane.new.lane outcome) }
    ensures shelf { lane.new.shelf ≡ lane.old.shelf }
    ensures err { OnErr result (lane.new ≡ lane.old) }
{
    match via {
        None => run_at_owner(lane, line, key, operation),
        Some(via) => run_via(lane, line, key, operation, via),
    }
}

/// Runs the operation at the lane's owner under the newest state, which first hears that state.
fn run_at_owner<C: Carrier + Drop, H: Shelf + Drop>(
    lane: &mut Lane<C, H>,
    line: u32,
    key: u64,
    operation: &Operation,
) -> Result<Outcome, NoMemory>
    requires key { key ≡ keys.key_of operation.now.id }
    requires idle { lane.old.lane.under_way ≡ [] }
    requires line { 1 ≤ line }
    requires fresh { IsFresh (history lane.old.lane.journal) line }
    requires published { IsSome (last_state lane.old.lane.journal) }
    requires in_lane { IsIn lane.old.lane.lane (key_of operation.now.id) }
    requires own { IsOwn operation.now.id operation.now.kind }
    requires plain { IsPlainGet operation.now }
    ensures ok { IfOk result (λ outcome.
        IsLineRun (record { number = line; operation = operation.now; via = None }) lane.old.lane lane.new.lane outcome) }
    ensures shelf { lane.new.shelf ≡ lane.old.shelf }
    ensures err { OnErr result (lane.new ≡ lane.old) }
{
    match lane.begin_at_owner(line, key, operation) {
        Begin::Begun => {}
        Begin::NoMemory => return Err(NoMemory),
        Begin::Refused { .. } | Begin::Held { .. } => unreachable!(),
    }
    let outcome = finish(lane, line);
    // that its journal is legal is known once it is read
    let _journal = lane.journal();
    Ok(outcome)
}

/// Runs the operation at a distributor, or lets it refuse the line.
fn run_via<C: Carrier + Drop, H: Shelf + Drop>(
    lane: &mut Lane<C, H>,
    line: u32,
    key: u64,
    operation: &Operation,
    via: u8,
) -> Result<Outcome, NoMemory>
    requires key { key ≡ keys.key_of operation.now.id }
    requires idle { lane.old.lane.under_way ≡ [] }
    requires line { 1 ≤ line }
    requires fresh { IsFresh (history lane.old.lane.journal) line }
    requires number { via < 32 }
    requires holds { IsSome (held via (history lane.old.lane.journal)) }
    requires in_lane { IsIn lane.old.lane.lane (key_of operation.now.id) }
    requires own { IsOwn operation.now.id operation.now.kind }
    requires plain { IsPlainGet operation.now }
    ensures ok { IfOk result (λ outcome.
        IsLineRun (record { number = line; operation = operation.now; via = Some via }) lane.old.lane lane.new.lane
        outcome) }
    ensures shelf { lane.new.shelf ≡ lane.old.shelf }
    ensures err { OnErr result (lane.new ≡ lane.old) }
{
    match lane.begin(line, key, operation, via) {
        Begin::Begun => {}
        Begin::Refused { outcome } => {
            let _journal = lane.journal();
            return Ok(outcome);
        }
        Begin::NoMemory => return Err(NoMemory),
        Begin::Held { .. } => unreachable!(),
    }
    let outcome = finish(lane, line);
    // that its journal is legal is known once it is read
    let _journal = lane.journal();
    Ok(outcome)
}

/// Lets the operation that was begun, alone, go on until it wants nothing more, and closes it.
fn finish<C: Carrier + Drop, H: Shelf + Drop>(lane: &mut Lane<C, H>, line: u32) -> Outcome
    requires { HasAlone line lane.old.lane }
    ensures finish { IsFinish line lane.old.lane lane.new.lane result }
    ensures shelf { lane.new.shelf ≡ lane.old.shelf }
{
    loop {
        match lane.advance(line) {
            Advance::More => {}
            Advance::Waits { .. } => unreachable!(),
            Advance::Done | Advance::NoMemory => return lane.close(line),
        }
    }
}

/// Publishes a state in a lane, which all distributors hear but the deaf ones.
pub fn announce<C: Carrier + Drop, H: Shelf + Drop>(
    lane: &mut Lane<C, H>,
    state: &ClusterState,
    deaf: NodeSet,
)
    requires idle { lane.old.lane.under_way ≡ [] }
    requires room { lane.old.lane.has_room ≡ true }
    requires accepted { publish_fault (told (setting_of lane.old.lane.lane lane.old.lane.rules) lane.old.lane.journal) state.now
        ≡ None }
    ensures after { lane.new ≡ record lane.old {
      lane = record lane.old.lane { journal = announced deaf state.now lane.old.lane.journal; has_room = false };
    } }
    ensures holds { IsLaneValue lane.new.lane }
{
    lane.announce(state, deaf);
    let _journal = lane.journal();
}

/// A node stops in a lane; nothing happens where it is stopped already.
pub fn stop<C: Carrier + Drop, H: Shelf + Drop>(lane: &mut Lane<C, H>, node: u8)
    requires idle { lane.old.lane.under_way ≡ [] }
    requires room { lane.old.lane.has_room ≡ true }
    requires number { node < 32 }
    ensures after { lane.new ≡ record lane.old {
      lane = record lane.old.lane { journal = stopped_next node lane.old.lane.journal; has_room = false };
    } }
    ensures holds { IsLaneValue lane.new.lane }
{
    lane.stop(node);
    let _journal = lane.journal();
}

/// A node starts in a lane; nothing happens where it isn't stopped.
pub fn start<C: Carrier + Drop, H: Shelf + Drop>(lane: &mut Lane<C, H>, node: u8)
    requires idle { lane.old.lane.under_way ≡ [] }
    requires room { lane.old.lane.has_room ≡ true }
    requires number { node < 32 }
    ensures after { lane.new ≡ record lane.old {
      lane = record lane.old.lane { journal = started_next node lane.old.lane.journal; has_room = false };
    } }
    ensures holds { IsLaneValue lane.new.lane }
{
    lane.start(node);
    let _journal = lane.journal();
}

/// Upkeep in a lane: the owner under the newest state hears it and makes a pass in the order of its rule, which comes to what
/// its span tells, and rests where nothing disturbs it; where it rests the lane is at rest. At want of memory a part of the pass may
/// have been made.
pub fn maintain<C: Carrier + Drop, H: Shelf + Drop>(
    lane: &mut Lane<C, H>,
) -> Result<UpkeepSpan, NoMemory>
    requires idle { lane.old.lane.under_way ≡ [] }
    requires published { IsSome (last_state lane.old.lane.journal) }
    ensures ok { IfOk result (λ span. IsPassed span lane.old.lane lane.new.lane) }
    ensures err { OnErr result (MayBeUpkept lane.old.lane lane.new.lane) }
    ensures holds { IsLaneValue lane.new.lane }
    ensures shelf { lane.new.shelf ≡ lane.old.shelf }
{
    undisturbed_upkeeps_rest();
    let from = lane.journal().len() as u64;
    let answer = lane.upkeep();
    let to = lane.journal().len() as u64;
    match answer {
        Upkeep::NoMemory => Err(NoMemory),
        Upkeep::Held { .. } => unreachable!(),
        Upkeep::Rested | Upkeep::Blocked { .. } | Upkeep::Disturbed { .. } => {
            Ok(UpkeepSpan { from, to, answer })
        }
    }
}

/// An upkeep of which no message is lost or late, where all nodes run that serve, rests or wants memory.
pub fn undisturbed_upkeeps_rest()
    ensures { (old new : LaneValue) (answer : Upkeep) → IsLaneValue old → IsLaneValue new → IsUpkept old new answer
        → IsUndisturbed old new → (answer ≡ upkeep.Rested) ⊎ (answer ≡ upkeep.NoMemory) }
{
    messages_are_carried();
    states_are_published();
    upkeep_goes_on();
    upkeep_leaves_states();
}
