ghost use Rattle.std.specs.Prelude.{◌≡◌, ◌≤◌, ◌<◌, ◌+◌, ℕ, ◌∷◌, true, Some, OnOk, OnErr, vec_len, vec_capacity, if◌then◌else◌};
ghost use Rattle.node_sets.specs.Members.{has_node};
ghost use Rattle.ideal_nodes.specs.Placement.{IsOwner};
ghost use Rattle.lane_journals.specs.Readers.{held, began, closed};
ghost use Rattle.lane_journals.specs.Meanings.{history};
ghost use Rattle.lane_journals.specs.declared.event.LaneEvent.TheVariants as event;
ghost use Rattle.lane_keeping.specs.LaneKeeping.{IsIdle, node_in, part_in};
ghost use Rattle.lane_keeping.specs.Acting.{IsActing};
ghost use Rattle.lane_keeping.specs.Asking.{OthersStay};
ghost use Rattle.lane_states.specs.LaneStates.{journal_of, IsKept, HasRoom, part_of, AreResting};
ghost use Rattle.lane_keeping.specs.Tidings.{is_older, version_held, heard_next, heard_below};

use crate::event_log::push_within;
use crate::lane_state::LaneState;
use bucket_ids::Bucket;
use cluster_states::ClusterState;
use distributor_part::{DistributorPart, Rules};
use lane_journals::LaneEvent;
use lane_journals::laws::kept_journals_mean_legal_ones;
use lane_keeping::laws::states_are_kept;
use node_rows::SharedSchema;
use node_sets::NodeSet;
use service_layer::NodePart;
use std::alloc::Global;
use value_lists::NoMemory;

/// Makes the nodes up to one, which count as new until they are there.
pub fn make_nodes(
    alloc: Global,
    schema: &SharedSchema,
    nodes: &mut Vec<NodePart>,
    node: u8,
) -> Result<(), NoMemory>
    ensures same { (n : ℕ) → node_in nodes.new.items n ≡ node_in nodes.old.items n }
    ensures more { vec_len nodes.old ≤ vec_len nodes.new }
    ensures there { OnOk result (node < vec_len nodes.new) }
{
    while nodes.len() <= usize::from(node) {
        nodes.push(NodePart::new(alloc, schema)?)?;
    }
    Ok(())
}

/// Makes the parts up to that of a distributor, which count as new until they are there.
pub fn make_parts(
    alloc: Global,
    lane: Bucket,
    rules: Rules,
    parts: &mut Vec<DistributorPart>,
    distributor: u8,
) -> Result<(), NoMemory>
    requires { lane.bits ≤ 6 }
    ensures same { (d : ℕ) → part_in lane rules parts.new.items d ≡ part_in lane rules parts.old.items d }
    ensures more { vec_len parts.old ≤ vec_len parts.new }
    ensures there { OnOk result (distributor < vec_len parts.new) }
{
    while parts.len() <= usize::from(distributor) {
        let number = parts.len() as u8;
        parts.push(DistributorPart::new(alloc, number, lane, rules))?;
    }
    Ok(())
}

/// The version of a state that may be held.
fn version_held(held: Option<ClusterState>) -> Option<u32>
    ensures { result ≡ version_held held }
{
    match held {
        Some(state) => Some(state.version()),
        None => None,
    }
}

/// Whether who holds a state, or none, is to hear one of this version.
fn is_behind(held: Option<ClusterState>, version: u32) -> bool
    ensures { result ≡ is_older (version_held held) version }
{
    match held {
        Some(state) => state.version() < version,
        None => true,
    }
}

impl LaneState {
    /// A distributor whose operations are closed hears the newest state, if it holds none or an older one.
    pub fn hear(&mut self, distributor: u8) -> Result<(), NoMemory>
        requires keeps { IsKept self.old }
        requires room { HasRoom 0 self.old }
        requires idle { IsIdle distributor (λ line. began line (history (journal_of self.old)))
            (λ line. closed line (history (journal_of self.old))) }
        ensures keeps { IsKept self.new }
        ensures room { HasRoom 0 self.new }
        ensures grows { OnOk result
            (journal_of self.new ≡ heard_next distributor self.old.newest (journal_of self.old)) }
        ensures err { OnErr result (journal_of self.new ≡ journal_of self.old) }
        ensures after { self.new ≡ record self.old { journal = self.new.journal; parts = self.new.parts } }
        ensures more { vec_len self.old.parts ≤ vec_len self.new.parts }
        ensures resting { AreResting self.old → AreResting self.new }
    {
        let Some(state) = self.newest else {
            return Ok(());
        };
        self.journal.events.reserve(1 + self.spare)?;
        self.need_part(distributor)?;
        self.hear_within(distributor, &state);
        Ok(())
    }

    /// A distributor whose part is there hears the newest state, if it holds none or an older one. There is room
    /// for it. An owner acts under that state then.
    pub fn hear_within(&mut self, distributor: u8, state: &ClusterState)
        requires keeps { IsKept self.old }
        requires newest { self.old.newest ≡ Some state.now }
        requires idle { IsIdle distributor (λ line. began line (history (journal_of self.old)))
            (λ line. closed line (history (journal_of self.old))) }
        requires there { distributor < vec_len self.old.parts }
        requires room { vec_len self.old.journal.events + 1 ≤ vec_capacity self.old.journal.events }
        ensures keeps { IsKept self.new }
        ensures grows { journal_of self.new ≡ heard_next distributor (Some state.now) (journal_of self.old) }
        ensures acting { IsOwner self.old.lane state.now distributor
            → IsActing self.old.lane (journal_of self.new) distributor state.now }
        ensures after { self.new ≡ record self.old { journal = self.new.journal; parts = self.new.parts } }
        ensures parts { vec_len self.new.parts ≡ vec_len self.old.parts }
        ensures len { vec_len self.new.journal.events ≤ vec_len self.old.journal.events + 1 }
        ensures capacity { vec_capacity self.old.journal.events ≤ vec_capacity self.new.journal.events }
        ensures resting { AreResting self.old → AreResting self.new }
    {
        kept_journals_mean_legal_ones();
        if self.holds_older(distributor, state.version()) {
            self.hear_newest(distributor, state);
        }
    }

    /// All distributors hear the newest state, which none of them holds, but the deaf ones, in rising number.
    /// All parts are there, and room.
    pub fn hear_all(&mut self, state: &ClusterState, deaf: NodeSet)
        requires keeps { IsKept self.old }
        requires newest { self.old.newest ≡ Some state.now }
        requires idle { (d : ℕ) → IsIdle d (λ line. began line (history (journal_of self.old)))
            (λ line. closed line (history (journal_of self.old))) }
        requires older { (d : ℕ) → is_older (held d (history (journal_of self.old))) state.now.version ≡ true }
        requires there { 32 ≤ vec_len self.old.parts }
        requires room { vec_len self.old.journal.events + 32 ≤ vec_capacity self.old.journal.events }
        ensures keeps { IsKept self.new }
        ensures grows { journal_of self.new ≡ heard_below 32 deaf state.now (journal_of self.old) }
        ensures after { self.new ≡ record self.old { journal = self.new.journal; parts = self.new.parts } }
        ensures parts { vec_len self.new.parts ≡ vec_len self.old.parts }
        ensures len { vec_len self.new.journal.events ≤ vec_len self.old.journal.events + 32 }
        ensures capacity { vec_capacity self.old.journal.events ≤ vec_capacity self.new.journal.events }
        ensures resting { AreResting self.old → AreResting self.new }
    {
        for distributor in 0..32 {
            self.hear_unless_deaf(distributor, state, deaf);
        }
    }

    /// A distributor that holds an older state, or none, hears the newest one, unless it is deaf.
    fn hear_unless_deaf(&mut self, distributor: u8, state: &ClusterState, deaf: NodeSet)
        requires keeps { IsKept self.old }
        requires newest { self.old.newest ≡ Some state.now }
        requires idle { IsIdle distributor (λ line. began line (history (journal_of self.old)))
            (λ line. closed line (history (journal_of self.old))) }
        requires older { is_older (held distributor (history (journal_of self.old))) state.now.version ≡ true }
        requires there { distributor < vec_len self.old.parts }
        requires room { vec_len self.old.journal.events + 1 ≤ vec_capacity self.old.journal.events }
        ensures keeps { IsKept self.new }
        ensures grows { journal_of self.new ≡ (if has_node deaf distributor then journal_of self.old
            else event.Heard distributor state.now.version ∷ journal_of self.old) }
        ensures after { self.new ≡ record self.old { journal = self.new.journal; parts = self.new.parts } }
        ensures parts { vec_len self.new.parts ≡ vec_len self.old.parts }
        ensures len { vec_len self.new.journal.events ≤ vec_len self.old.journal.events + 1 }
        ensures capacity { vec_capacity self.old.journal.events ≤ vec_capacity self.new.journal.events }
        ensures resting { AreResting self.old → AreResting self.new }
    {
        if !deaf.has(distributor) {
            self.hear_newest(distributor, state);
        }
    }

    /// Makes the parts up to that of a distributor.
    pub fn need_part(&mut self, distributor: u8) -> Result<(), NoMemory>
        requires keeps { IsKept self.old }
        ensures keeps { IsKept self.new }
        ensures after { self.new ≡ record self.old { parts = self.new.parts } }
        ensures same { (d : ℕ) → part_of self.new d ≡ part_of self.old d }
        ensures more { vec_len self.old.parts ≤ vec_len self.new.parts }
        ensures there { OnOk result (distributor < vec_len self.new.parts) }
    {
        make_parts(
            self.alloc,
            self.lane,
            self.rules,
            &mut self.parts,
            distributor,
        )
    }

    /// The version of the state that a distributor holds, if it holds one.
    pub fn held(&self, distributor: u8) -> Option<u32>
        requires keeps { IsKept self.now }
        ensures { result ≡ held distributor (history (journal_of self.now)) }
    {
        version_held(self.state_at(distributor))
    }

    /// Whether a distributor holds no state or one of a smaller version.
    fn holds_older(&self, distributor: u8, version: u32) -> bool
        requires keeps { IsKept self.now }
        requires there { distributor < vec_len self.now.parts }
        ensures { result ≡ is_older (held distributor (history (journal_of self.now))) version }
    {
        is_behind(self.parts[usize::from(distributor)].state(), version)
    }

    /// A distributor that holds an older state, or none, hears the newest one.
    fn hear_newest(&mut self, distributor: u8, state: &ClusterState)
        requires keeps { IsKept self.old }
        requires newest { self.old.newest ≡ Some state.now }
        requires idle { IsIdle distributor (λ line. began line (history (journal_of self.old)))
            (λ line. closed line (history (journal_of self.old))) }
        requires older { is_older (held distributor (history (journal_of self.old))) state.now.version ≡ true }
        requires there { distributor < vec_len self.old.parts }
        requires room { vec_len self.old.journal.events + 1 ≤ vec_capacity self.old.journal.events }
        ensures keeps { IsKept self.new }
        ensures grows { journal_of self.new ≡ event.Heard distributor state.now.version ∷ journal_of self.old }
        ensures after { self.new ≡ record self.old { journal = self.new.journal; parts = self.new.parts } }
        ensures parts { vec_len self.new.parts ≡ vec_len self.old.parts }
        ensures len { vec_len self.new.journal.events ≡ vec_len self.old.journal.events + 1 }
        ensures capacity { vec_capacity self.old.journal.events ≤ vec_capacity self.new.journal.events }
        ensures resting { AreResting self.old → AreResting self.new }
    {
        states_are_kept();
        self.parts[usize::from(distributor)].hear(state);
        push_within(
            &mut self.journal.events,
            LaneEvent::Heard {
                distributor,
                version: state.version(),
            },
        );
    }
}
