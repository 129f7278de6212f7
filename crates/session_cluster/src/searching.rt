//! What a search line reads of the lanes.

ghost use Rattle.std.specs.Prelude.{◌≡◌, ◌≤◌, ◌∷◌, ◌++◌, [], None, Some, length, map, option_map, IfOk, OnOk, OnErr};
ghost use Rattle.std.specs.List.{find};
ghost use Rattle.cluster_states.specs.Publishing.{newest_of};
ghost use Rattle.doc_types.specs.SchemaCodes.{Types};
ghost use Rattle.lane_core.specs.Showing.{view_in, IsSettled};
ghost use Rattle.shelves.specs.Plain.{Plain, ShowsPlain};
ghost use Rattle.query_text.specs.Grammar.{said_of};
ghost use Rattle.search_views.specs.Answers.{search_answer};
ghost use Rattle.session_cluster.specs.Cells.{journals_of, lanes_in, shelves_in};
ghost use Rattle.session_cluster.specs.Output.{found_answer_of};
ghost use Rattle.session_cluster.specs.Noted.{is_for};
ghost use Rattle.session_cluster.specs.declared.searching.LineFronts.{LineFronts};
ghost use Rattle.session_cluster.specs.Searches.{fronts_of, fronts_now, version_of, version_now};
ghost use Rattle.session_cluster.specs.Steps.{EachLane, HasTypes, IsNoted, IsSearched, IsSettledLane, AreSettled, AreOpened, first_view};

use crate::session::Session;
use carriers::Carrier;
use cluster_states::States;
use lane_core::Lane;
use query_groups::SearchAnswer;
use query_text::Query;
use query_text::parsed::Parsed;
use reports::Answer;
use search_views::SearchSum;
use shelves::PlainShelf;
use std::alloc::Global;
use value_lists::{Listed, NoMemory};

/// How many changes were read in each lane, in lane order.
pub type FrontList = Listed<u64>;

/// How far a line's search read.
#[derive(Drop)]
pub struct LineFronts {
    pub line: u32,
    pub fronts: FrontList,
}

/// What was noted of a line.
pub fn fronts_at(fronts: &[LineFronts], line: u32) -> Option<&LineFronts>
    ensures { option_map (λ noted. noted.now) result ≡ find (is_for (λ (f : LineFronts). f.line) line) fronts.now }
{
    fronts.iter().find(|noted| noted.line == line)
}

/// The version that was told last; 0 before the first.
fn version_told(states: &States) -> u32
    ensures { result ≡ version_of (newest_of states.now.states) }
{
    match states.newest() {
        Some(newest) => newest.version(),
        None => 0,
    }
}

/// Each lane shows all changes of its events. At want of memory the first lanes do, and the next one perhaps a part of
/// them.
pub fn settle_all<C: Carrier + Drop>(lanes: &mut [Lane<C, PlainShelf>]) -> Result<(), NoMemory>
    ensures lanes { lanes_in lanes.new ≡ lanes_in lanes.old }
    ensures openings { map first_view (shelves_in lanes.new) ≡ map first_view (shelves_in lanes.old) }
    ensures settled { OnOk result (EachLane (IsSettled ShowsPlain (λ (p : Plain). p.pending)) lanes.new) }
{
    for lane in lanes.iter_mut() {
        lane.settle()?;
    }
    Ok(())
}

/// What a query finds in lanes that show all changes, and how many changes each shows.
fn search_all<C: Carrier + Drop>(
    alloc: Global,
    lanes: &[Lane<C, PlainShelf>],
    query: &Query,
    version: u32,
    fronts: &mut Vec<u64>,
) -> Result<SearchAnswer, NoMemory>
    requires few { length lanes.now ≤ 64 }
    requires settled { EachLane IsSettledLane lanes.now }
    requires none { fronts.old.items ≡ [] }
    ensures answer { IfOk result (λ answer. answer
        ≡ search_answer (said_of query.now) version (map view_in (lanes_in lanes.now))) }
    ensures fronts { OnOk result (fronts.new.items ≡ fronts_now (lanes_in lanes.now)) }
{
    let mut sum = SearchSum::new(alloc, query, version);
    for lane in lanes {
        let view = lane.shelf().view();
        fronts.push(view.generation())?;
        sum.add(alloc, view)?;
    }
    sum.finish(alloc)
}

impl<C: Carrier + Drop> Session<C> {
    /// Searches every lane, in their order, and gives the answer; all changes of their journals are shown.
    pub(crate) fn search(
        &mut self,
        alloc: Global,
        line: u32,
        query: Parsed,
    ) -> Result<Option<Answer>, NoMemory>
        requires few { length self.old.cell.lanes ≤ 64 }
        requires settled { AreSettled self.old }
        requires new { fronts_of line self.old.cell.fronts ≡ None }
        ensures ok { (types : Types) → EachLane (HasTypes types) self.old.cell.lanes
            → IfOk result (λ answer. IsSearched line self.old.cell self.new.cell
            × (answer ≡ found_answer_of types self.old.cell.told query (fronts_of line self.new.cell.fronts) (journals_of self.new.cell))) }
        ensures settled { OnOk result (AreSettled self.new) }
        ensures err { OnErr result (self.new ≡ self.old) }
    {
        let answer = self.search_now(alloc, line, query)?;
        self.deal_up_to(line);
        Ok(Some(answer))
    }

    /// What a query finds as the lanes stand; how far it read is noted for the line, which isn't dealt with by that.
    pub fn search_now(
        &mut self,
        alloc: Global,
        line: u32,
        query: Parsed,
    ) -> Result<Answer, NoMemory>
        requires few { length self.old.cell.lanes ≤ 64 }
        requires settled { AreSettled self.old }
        requires new { fronts_of line self.old.cell.fronts ≡ None }
        ensures ok { (types : Types) → EachLane (HasTypes types) self.old.cell.lanes
            → IfOk result (λ answer. IsNoted line self.old.cell self.new.cell
            × (Some answer ≡ found_answer_of types self.old.cell.told query (fronts_of line self.new.cell.fronts) (journals_of self.new.cell))) }
        ensures settled { OnOk result (AreSettled self.new) }
        ensures err { OnErr result (self.new ≡ self.old) }
    {
        let mut fronts = Vec::with_capacity(alloc, self.lanes.len())?;
        let answer = self.read(alloc, query, &mut fronts)?;
        self.note_fronts(line, fronts)?;
        Ok(Answer::Search { answer })
    }

    /// Each lane shows all changes of its events. At want of memory some do.
    pub fn settle(&mut self) -> Result<(), NoMemory>
        requires { AreOpened self.old.cell.lanes self.old.shelves }
        ensures cell { self.new.cell ≡ self.old.cell }
        ensures settled { OnOk result (AreSettled self.new) }
    {
        settle_all(&mut self.lanes)
    }

    /// What a query finds under the newest state, and how many changes it reads in each lane.
    fn read(
        &self,
        alloc: Global,
        query: Parsed,
        fronts: &mut Vec<u64>,
    ) -> Result<SearchAnswer, NoMemory>
        requires few { length self.now.cell.lanes ≤ 64 }
        requires settled { AreSettled self.now }
        requires none { fronts.old.items ≡ [] }
        ensures answer { IfOk result (λ answer. answer
            ≡ search_answer query (version_now self.now.cell.told) (map view_in self.now.cell.lanes)) }
        ensures fronts { OnOk result (fronts.new.items ≡ fronts_now self.now.cell.lanes) }
    {
        let version = version_told(&self.states);
        let query = query.query();
        search_all(alloc, &self.lanes, &query, version, fronts)
    }

    /// Notes how far a line's search read.
    fn note_fronts(&mut self, line: u32, fronts: Vec<u64>) -> Result<(), NoMemory>
        ensures ok { OnOk result (self.new ≡ record self.old {
          cell = record self.old.cell { fronts = self.old.cell.fronts ++ record { line = line; fronts = fronts.items } ∷ [] };
        }) }
        ensures err { OnErr result (self.new ≡ self.old) }
    {
        let fronts = FrontList::of(fronts);
        self.fronts.push(LineFronts { line, fronts })?;
        Ok(())
    }
}
