ghost use Rattle.std.specs.Prelude.{◌≡◌, ◌<◌, ◌≤◌, ◌^◌, Some, length, option_map, IsTrue, slice_get};
ghost use Rattle.cluster_states.specs.Publishing.{newest_of};
ghost use Rattle.lane_journals.specs.KeptJournals.{past};
ghost use Rattle.session_cluster.specs.Cells.{is_empty, journals_of};
ghost use Rattle.session_cluster.specs.Lanes.{journal_in};
ghost use Rattle.session_cluster.specs.Noted.{is_for};
ghost use Rattle.session_cluster.specs.declared.cluster.LineSpans.{LineSpans};
ghost use Rattle.session_cluster.specs.Rows.{ShowsRows, ShowsRowsUnder, AreRowsAt};
ghost use Rattle.session_cluster.specs.Searches.{fronts_of};
ghost use Rattle.session_cluster.specs.Sizes.{HasSize};
ghost use Rattle.session_cluster.specs.Spans.{spans_of};
ghost use Rattle.std.specs.List.{find};

use crate::searching::{LineFronts, fronts_at};
use bucket_db::Row;
use bucket_ids::Bucket;
use carriers::Carrier;
use cluster_states::{ClusterState, States};
use ideal_nodes::owner;
use lane_core::Lane;
use lane_journals::LaneEvent;
use lane_lives::UpkeepSpan;
use shelves::NoShelf;
use std::alloc::Global;
use std::marker::Model;
use value_lists::Listed;

/// The lanes that a session leaves, without shelves: none, or all of them.
#[derive(Drop)]
pub struct Cluster<C: Carrier + Drop> {
    pub(crate) bits: u8,
    /// The states that were published.
    pub(crate) states: States,
    pub(crate) lanes: Vec<Lane<C, NoShelf>>,
    pub(crate) dealt: u32,
    /// How the upkeep went that lines asked for, in line order.
    pub(crate) upkeeps: Vec<LineSpans>,
    /// How far searches read, in line order.
    pub(crate) fronts: Vec<LineFronts>,
}

impl<C: Carrier + Drop> Model for Cluster<C> {
    ghost use Rattle.std.specs.Prelude.{length};
    ghost use Rattle.session_cluster.specs.Cells.{Cell, cell_code, IsCluster, lanes_in};

    ghost Value = { Cell };

    ghost coded = { cell_code };

    ghost view = { λ c. record { bits = c.bits; told = c.states; lanes = lanes_in c.lanes.items; dealt = c.dealt; upkeeps = c.upkeeps.items; fronts = c.fronts.items } };

    ghost invariant = { λ c. IsCluster c.bits (length c.lanes.items) };
}

impl<C: Carrier + Drop> Cluster<C> {
    /// A cluster without lanes.
    pub fn empty(alloc: Global) -> Cluster<C>
        ensures { IsTrue (is_empty result) }
    {
        Cluster {
            bits: 1,
            states: States::new(1),
            lanes: Vec::new(alloc),
            dealt: 0,
            upkeeps: Vec::new(alloc),
            fronts: Vec::new(alloc),
        }
    }

    /// Whether there is no lane, no line was dealt with, no upkeep was made, and no search.
    pub fn is_empty(&self) -> bool
        ensures { result ≡ is_empty self.now }
    {
        self.lanes.is_empty()
            && self.dealt == 0
            && self.upkeeps.is_empty()
            && self.fronts.is_empty()
    }

    /// How many lanes there are.
    pub fn lanes(&self) -> u8
        ensures { result ≡ length self.now.lanes }
    {
        self.lanes.len() as u8
    }

    /// How many lines were dealt with.
    pub fn dealt(&self) -> u32
        ensures { result ≡ self.now.dealt }
    {
        self.dealt
    }

    /// The journal of a lane, oldest event first; that of a lane that isn't there is empty.
    pub fn journal(&self, lane: u8) -> &[LaneEvent]
        ensures { past result.now ≡ journal_in lane (journals_of self.now) }
    {
        match self.lanes.get(usize::from(lane)) {
            Some(lane) => lane.journal(),
            None => &[],
        }
    }

    /// The rows of a lane, by the distributor that owns it under the newest state, in rising bucket number; none
    /// before that state was opened there.
    pub fn rows(&self, lane: u8) -> &[Row]
        ensures { ShowsRows self.now.bits lane self.now.told.states (slice_get self.now.lanes lane) result.now }
    {
        let Some(there) = self.lanes.get(usize::from(lane)) else {
            return &[];
        };
        self.newest_rows(lane, there)
    }

    /// Those of a lane that is there.
    fn newest_rows<'a>(&'a self, lane: u8, there: &'a Lane<C, NoShelf>) -> &'a [Row]
        requires within { lane < 2 ^ self.now.bits }
        ensures { ShowsRowsUnder self.now.bits lane (newest_of self.now.told.states) there.now.lane result.now }
    {
        match self.states.newest() {
            Some(newest) => own_rows(self.bits, lane, &newest, there),
            None => &[],
        }
    }

    /// How many entries the stores of a node hold in all lanes, removes among them; at most 2^64 - 1.
    pub fn store_size(&self, node: u8) -> u64
        ensures { HasSize node (journals_of self.now) result }
    {
        let mut size = 0u64;
        for lane in &self.lanes {
            size = size.saturating_add(lane.entries_at(node));
        }
        size
    }

    /// How the upkeep went in each lane that a line asked for, in lane order; none for another line, and where want
    /// of memory cut it.
    pub fn upkeeps(&self, line: u32) -> Option<&[UpkeepSpan]>
        ensures { option_map (λ spans. spans.now) result ≡ spans_of line self.now.upkeeps }
    {
        match spans_at(&self.upkeeps, line) {
            Some(upkeep) => Some(upkeep.spans.items()),
            None => None,
        }
    }

    /// How many changes a search read in each lane, in lane order; none for a line that isn't a search, and where want of
    /// memory cut it.
    pub fn fronts(&self, line: u32) -> Option<&[u64]>
        ensures { option_map (λ fronts. fronts.now) result ≡ fronts_of line self.now.fronts }
    {
        match fronts_at(&self.fronts, line) {
            Some(noted) => Some(noted.fronts.items()),
            None => None,
        }
    }
}

/// What was noted of a line.
fn spans_at(upkeeps: &[LineSpans], line: u32) -> Option<&LineSpans>
    ensures { option_map (λ upkeep. upkeep.now) result ≡ find (is_for (λ (u : LineSpans). u.line) line) upkeeps.now }
{
    upkeeps.iter().find(|upkeep| upkeep.line == line)
}

/// The rows of a lane by its owner under a state.
fn own_rows<'a, C: Carrier + Drop>(
    bits: u8,
    lane: u8,
    newest: &ClusterState,
    there: &'a Lane<C, NoShelf>,
) -> &'a [Row]
    requires some { 1 ≤ bits }
    requires most { bits ≤ 6 }
    requires within { lane < 2 ^ bits }
    ensures { ShowsRowsUnder bits lane (Some newest.now) there.now.lane result.now }
{
    match owner(Bucket::new(bits, u64::from(lane)), newest) {
        Some(owner) => rows_at(newest, owner, there),
        None => &[],
    }
}

/// The rows of a distributor that holds a state; none of another.
fn rows_at<'a, C: Carrier + Drop>(
    newest: &ClusterState,
    owner: u8,
    there: &'a Lane<C, NoShelf>,
) -> &'a [Row]
    ensures { AreRowsAt newest.now there.now.lane owner result.now }
{
    match there.held(owner) {
        Some(version) if version == newest.version() => there.rows(owner),
        _ => &[],
    }
}

/// How an upkeep went in each lane, in lane order.
pub type SpanList = Listed<UpkeepSpan>;

/// How the upkeep went that a line asked for.
#[derive(Drop)]
pub struct LineSpans {
    pub line: u32,
    pub spans: SpanList,
}
