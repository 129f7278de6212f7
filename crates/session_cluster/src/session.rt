ghost use Rattle.std.specs.Prelude.{◌≡◌, ◌≤◌, ◌^◌, [], length, vec_capacity, IfOk};
ghost use Rattle.std.specs.Option.{option_copied};
ghost use Rattle.lane_journals.specs.Meanings.{entry_at};
ghost use Rattle.lane_lives.specs.Settings.{IsSetting, lane_count};
ghost use Rattle.session_cluster.specs.Cells.{journals_of, lanes_in, shelves_in};
ghost use Rattle.session_cluster.specs.Deeds.{first_told};
ghost use Rattle.session_cluster.specs.Keeping.{AreOpen, IsKept};
ghost use Rattle.session_cluster.specs.Lanes.{journal_in};
ghost use Rattle.session_cluster.specs.Steps.{EachLane, AreSettled, IsSettledLane};
ghost use Rattle.view_changes.specs.Opening.{opening};

use crate::cluster::{Cluster, LineSpans};
use crate::searching::LineFronts;
use carriers::{Carrier, Carriers};
use cluster_states::States;
use documents::Entry;
use lane_core::{Lane, open_lane};
use lane_lives::Setting;
use lane_views::LaneView;
use node_rows::SharedSchema;
use shelves::{NoShelf, PlainShelf};
use stamps::Stamp;
use std::alloc::Global;
use std::marker::Model;
use std::mem;
use value_lists::{NoMemory, TryCopy};

/// A session at work: all its lanes, with the shelves from which its searches read.
#[derive(Drop)]
pub struct Session<C: Carrier + Drop> {
    pub(crate) bits: u8,
    /// The states that were published.
    pub(crate) states: States,
    pub(crate) lanes: Vec<Lane<C, PlainShelf>>,
    pub(crate) dealt: u32,
    /// How the upkeep went that lines asked for, in line order.
    pub(crate) upkeeps: Vec<LineSpans>,
    /// How far searches read, in line order.
    pub(crate) fronts: Vec<LineFronts>,
    /// No lane, but room for all of them in the cluster that it leaves.
    room: Vec<Lane<C, NoShelf>>,
}

impl<C: Carrier + Drop> Model for Session<C> {
    ghost use Rattle.std.specs.Prelude.{length, vec_capacity};
    ghost use Rattle.session_cluster.specs.Cells.{ShownCell, shown_cell_code, IsShownCluster, lanes_in, shelves_in};

    ghost Value = { ShownCell };

    ghost coded = { shown_cell_code };

    ghost view = { λ s. record {
      cell = record { bits = s.bits; told = s.states; lanes = lanes_in s.lanes.items; dealt = s.dealt; upkeeps = s.upkeeps.items; fronts = s.fronts.items };
      shelves = shelves_in s.lanes.items;
    } };

    ghost invariant = { λ s. IsShownCluster s.bits (length s.lanes.items) s.room.items (vec_capacity s.room) };
}

impl<C: Carrier + Drop> Session<C> {
    /// A session of these lanes, in which no line was dealt with, with room for as many.
    fn new(
        alloc: Global,
        setting: &Setting,
        lanes: Vec<Lane<C, PlainShelf>>,
        room: Vec<Lane<C, NoShelf>>,
    ) -> Session<C>
        requires setting { IsSetting setting.now }
        requires all { length lanes.items ≡ lane_count setting.now }
        requires none { room.items ≡ [] }
        requires roomy { lane_count setting.now ≤ vec_capacity room }
        ensures { result ≡ record {
          cell = record {
            bits = setting.now.bits;
            told = first_told setting.now;
            lanes = lanes_in lanes.items;
            dealt = 0;
            upkeeps = [];
            fronts = [];
          };
          shelves = shelves_in lanes.items;
        } }
    {
        Session {
            bits: setting.bits,
            states: first_states(setting),
            lanes,
            dealt: 0,
            upkeeps: Vec::new(alloc),
            fronts: Vec::new(alloc),
            room,
        }
    }

    /// Puts each lane into the cluster, without its shelf, and what else the session leaves. What the cluster had is
    /// gone. It takes no memory.
    pub fn leave(self, cluster: &mut Cluster<C>)
        ensures { cluster.new ≡ self.cell }
    {
        let Session {
            bits,
            states,
            lanes,
            dealt,
            upkeeps,
            fronts,
            mut room,
        } = self;
        unshelve_all(lanes, &mut room);
        *cluster = Cluster {
            bits,
            states,
            lanes: room,
            dealt,
            upkeeps,
            fronts,
        };
    }

    /// Takes the lanes out, with their shelves; they are put back before anything else is done.
    pub fn take_lanes(&mut self, alloc: Global) -> Vec<Lane<C, PlainShelf>>
        ensures lanes { lanes_in result.items ≡ self.old.cell.lanes }
        ensures shelves { shelves_in result.items ≡ self.old.shelves }
        ensures rest { self.new ≡ record self.old { cell = record self.old.cell { lanes = [] }; shelves = [] } }
    {
        mem::replace(&mut self.lanes, Vec::new(alloc))
    }

    /// Puts all lanes in.
    pub fn put_lanes(&mut self, lanes: Vec<Lane<C, PlainShelf>>)
        requires all { length lanes.items ≡ 2 ^ self.old.cell.bits }
        ensures { self.new ≡ record self.old {
          cell = record self.old.cell { lanes = lanes_in lanes.items };
          shelves = shelves_in lanes.items;
        } }
    {
        self.lanes = lanes;
    }

    /// Lines up to this one are dealt with.
    pub fn deal_up_to(&mut self, line: u32)
        ensures { self.new ≡ record self.old { cell = record self.old.cell { dealt = line } } }
    {
        self.dealt = line;
    }

    /// The entry that was written in a lane with a stamp.
    pub(crate) fn entry_at(&self, at: u8, stamp: Stamp) -> Option<&Entry>
        ensures { option_copied result
            ≡ entry_at stamp (journal_in at (journals_of self.now.cell)) }
    {
        match self.lanes.get(usize::from(at)) {
            Some(lane) => lane.entry(stamp),
            None => None,
        }
    }
}

/// The states as the first one is published.
fn first_states(setting: &Setting) -> States
    requires { IsSetting setting.now }
    ensures { result ≡ first_told setting.now }
{
    let mut states = States::new(setting.rules.acks);
    let Ok(()) = states.publish(&setting.initial) else {
        unreachable!();
    };
    states
}

/// Puts each lane behind the others without its shelf; there is room for all.
fn unshelve_all<C: Carrier + Drop>(
    lanes: Vec<Lane<C, PlainShelf>>,
    room: &mut Vec<Lane<C, NoShelf>>,
)
    requires none { room.old.items ≡ [] }
    requires roomy { length lanes.items ≤ vec_capacity room.old }
    ensures { lanes_in room.new.items ≡ lanes_in lanes.items }
{
    for lane in lanes {
        room.push_reserved(lane.unshelve());
    }
}

/// Makes room for the lanes of a session in the cluster that it will leave, and then the lanes, where its first state is
/// published and heard by all distributors.
pub fn open_session<C: Carriers>(
    alloc: Global,
    setting: &Setting,
    carriers: &mut C,
) -> Result<Session<C::One>, NoMemory>
    requires setting { IsSetting setting.now }
    ensures kept { IfOk result (λ session. IsKept setting.now (C.plans carriers.old) [] session.cell) }
    ensures none { IfOk result (λ session. session.cell.upkeeps ≡ []) }
    ensures unread { IfOk result (λ session. session.cell.fronts ≡ []) }
    ensures settled { IfOk result (λ session. AreSettled session) }
{
    let room = Vec::with_capacity(alloc, usize::from(count_of(setting)))?;
    let lanes = open_lanes(alloc, setting, carriers)?;
    Ok(Session::new(alloc, setting, lanes, room))
}

/// How many lanes the bits tell apart.
fn count_of(setting: &Setting) -> u8
    requires { IsSetting setting.now }
    ensures { result ≡ lane_count setting.now }
{
    1u8 << setting.bits
}

/// All lanes that the bits tell apart.
fn open_lanes<C: Carriers>(
    alloc: Global,
    setting: &Setting,
    carriers: &mut C,
) -> Result<Vec<Lane<C::One, PlainShelf>>, NoMemory>
    requires setting { IsSetting setting.now }
    ensures open { IfOk result (λ lanes. AreOpen setting.now (C.plans carriers.old) (lanes_in lanes.items)) }
    ensures settled { IfOk result (λ lanes. EachLane IsSettledLane lanes.items) }
{
    let count = count_of(setting);
    let shared = SharedSchema::new(alloc, setting.schema.copy(alloc)?)?;
    let mut lanes = Vec::with_capacity(alloc, usize::from(count))?;
    for lane in 0..count {
        let schema = shared.copy(alloc)?;
        let shelf = new_shelf(alloc, &shared)?;
        lanes.push(open_lane(alloc, lane, setting, schema, shelf, carriers)?)?;
    }
    Ok(lanes)
}

/// The shelf of a lane of which nothing was heard.
fn new_shelf(alloc: Global, schema: &SharedSchema) -> Result<PlainShelf, NoMemory>
    ensures { IfOk result (λ shelf. shelf
        ≡ record { opening = opening schema.now; view = opening schema.now; pending = [] }) }
{
    Ok(PlainShelf::new(alloc, LaneView::new(alloc, schema)?))
}
