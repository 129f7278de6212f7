ghost use Rattle.std.specs.Prelude.{◌≡◌, ◌≤◌, ◌+◌, ◌∷◌, [], true, None, Some, OnOk, vec_len, vec_capacity};
ghost use Rattle.cluster_states.specs.Publishing.{publish_fault};
ghost use Rattle.lane_journals.specs.Places.{told};
ghost use Rattle.lane_journals.specs.KeptJournals.{IsLegalStep};
ghost use Rattle.lane_journals.specs.declared.event.LaneEvent.TheVariants as event;
ghost use Rattle.lane_keeping.specs.LaneKeeping.{setting_of};
ghost use Rattle.lane_keeping.specs.Laws.{IsQuietEvent};
ghost use Rattle.lane_keeping.specs.Tidings.{IsNoStop};
ghost use Rattle.lane_states.specs.LaneStates.{journal_of, handed_of, IsKept, HasRoom};
ghost use Rattle.lane_states.specs.Told.{change_count};

use crate::event_log::{EventLog, push_within};
use bucket_ids::Bucket;
use cluster_states::ClusterState;
use distributor_part::{DistributorPart, Rules};
use lane_journals::LaneEvent;
use lane_journals::laws::states_are_published;
use lane_keeping::laws::{events_are_kept, lanes_begin, states_are_kept};
use messages::LateList;
use node_rows::SharedSchema;
use node_sets::NodeSet;
use service_layer::NodePart;
use std::alloc::Global;
use std::collections::VecDeque;
use std::snapshot::Snapshot;
use value_lists::NoMemory;

/// A lane's journal, and what it says: how many changes of its view its events give, the state that was published
/// last, the number of the last message, the nodes and the distributors' parts, which nodes are stopped, and which of the
/// changes were handed over to a shelf. A node or a part is made when it is first needed.
#[derive(Drop)]
pub struct LaneState {
    pub lane: Bucket,
    pub rules: Rules,
    /// The types of the documents that nodes make ready.
    pub schema: SharedSchema,
    pub journal: EventLog,
    pub newest: Option<ClusterState>,
    pub last: u64,
    pub nodes: Vec<NodePart>,
    pub stopped: NodeSet,
    /// Whether a place is kept free for the change that a stop or a start is.
    pub turn_room: bool,
    pub parts: Vec<DistributorPart>,
    /// The messages that are to be delivered late.
    pub late: LateList,
    /// For so many events there is room, whatever else the lane does.
    pub spare: usize,
    /// The log as changes of its view were last handed over to a shelf: those that it gives and doesn't keep.
    pub handed: Snapshot<EventLog>,
    pub alloc: Global,
}

impl LaneState {
    /// A lane in which nothing happened. A lane's bucket has at most 6 bits.
    pub fn new(alloc: Global, lane: Bucket, rules: Rules, schema: SharedSchema) -> LaneState
        requires small { lane.bits ≤ 6 }
        ensures keeps { IsKept result }
        ensures journal { journal_of result ≡ [] }
        ensures lane { result.lane ≡ lane }
        ensures rules { result.rules ≡ rules }
        ensures newest { result.newest ≡ None }
        ensures last { result.last ≡ 0 }
        ensures parts { result.parts.items ≡ [] }
        ensures late { result.late.late ≡ [] }
        ensures spare { result.spare ≡ 0 }
        ensures handed { handed_of result ≡ [] }
    {
        lanes_begin();
        let journal = EventLog {
            events: Vec::new(alloc),
            told: 0,
            kept: VecDeque::new(alloc),
        };
        LaneState {
            lane,
            rules,
            schema,
            handed: Snapshot::of(&journal),
            journal,
            newest: None,
            last: 0,
            nodes: Vec::new(alloc),
            stopped: NodeSet::none(),
            turn_room: false,
            parts: Vec::new(alloc),
            late: LateList::new(alloc),
            spare: 0,
            alloc,
        }
    }

    /// Makes room for so many events, and for the change that one stop or start among them is.
    pub fn room(&mut self, events: usize) -> Result<(), NoMemory>
        requires keeps { IsKept self.old }
        ensures keeps { IsKept self.new }
        ensures same { self.new.journal.events.items ≡ self.old.journal.events.items }
        ensures after { self.new
            ≡ record self.old { journal = self.new.journal; turn_room = self.new.turn_room } }
        ensures room { OnOk result
            (vec_len self.new.journal.events + events ≤ vec_capacity self.new.journal.events) }
        ensures spare { HasRoom 0 self.old → HasRoom 0 self.new }
        ensures turn { OnOk result (self.new.turn_room ≡ true) }
    {
        self.journal.events.reserve(events)?;
        self.journal.kept.reserve(1)?;
        self.turn_room = true;
        Ok(())
    }

    /// Notes that a state is published.
    pub fn publish(&mut self, state: &ClusterState)
        requires keeps { IsKept self.old }
        requires acks { 1 ≤ self.old.rules.acks }
        requires accepted { publish_fault (told (setting_of self.old.lane self.old.rules) (journal_of self.old)) state.now
            ≡ None }
        requires room { vec_len self.old.journal.events + 1 ≤ vec_capacity self.old.journal.events }
        ensures keeps { IsKept self.new }
        ensures grows { journal_of self.new ≡ event.Published state.now ∷ journal_of self.old }
        ensures after { self.new ≡ record self.old { journal = self.new.journal; newest = Some state.now } }
        ensures len { vec_len self.new.journal.events ≡ vec_len self.old.journal.events + 1 }
        ensures capacity { vec_capacity self.old.journal.events ≤ vec_capacity self.new.journal.events }
    {
        states_are_published();
        states_are_kept();
        // that it has at most 32 nodes is known once its version is read
        let _version = state.version();
        push_within(
            &mut self.journal.events,
            LaneEvent::Published { state: *state },
        );
        self.newest = Some(*state);
    }

    /// Notes an event that leaves nodes and parts as they are, and by which no node stops or starts.
    pub fn note(&mut self, event: LaneEvent)
        requires keeps { IsKept self.old }
        requires quiet { IsQuietEvent event }
        requires no_stop { IsNoStop event }
        requires legal { IsLegalStep (setting_of self.old.lane self.old.rules) (journal_of self.old) event }
        requires room { vec_len self.old.journal.events + 1 ≤ vec_capacity self.old.journal.events }
        ensures keeps { IsKept self.new }
        ensures grows { journal_of self.new ≡ event ∷ journal_of self.old }
        ensures after { self.new ≡ record self.old { journal = self.new.journal } }
        ensures len { vec_len self.new.journal.events ≡ vec_len self.old.journal.events + 1 }
        ensures capacity { vec_capacity self.old.journal.events ≤ vec_capacity self.new.journal.events }
    {
        events_are_kept();
        push_within(&mut self.journal.events, event);
    }

    /// How many changes of the lane's view its events give; at 2^64 - 1 so many or more.
    pub fn change_count(&self) -> u64
        requires keeps { IsKept self.now }
        ensures { result ≡ change_count (journal_of self.now) }
    {
        self.journal.told
    }
}
