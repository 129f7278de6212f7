ghost use Rattle.std.specs.Prelude.{◌≡◌, ◌≢◌, ◌<◌, ◌+◌, ℕ, IfOk, OnOk, IfSome, IfNone, length};
ghost use Rattle.std.specs.List.{list_any};
ghost use Rattle.node_sets.specs.Members.{has_node};
ghost use Rattle.entry_maps.specs.Entries.{documents_of};
ghost use Rattle.bucket_db.specs.Rows.{buckets_of};
ghost use Rattle.bucket_db.specs.declared.row.Row.{Row};
ghost use Rattle.merge_rounds.specs.Rounds.{HaveAllShown, pieces_by};
ghost use Rattle.lane_keeping.specs.RoundKeeping.{KnowsAnswers};
ghost use Rattle.lane_states.specs.LaneStates.{journal_of, part_of, GivesOn};
ghost use Rattle.lane_states.specs.Shortages.{NoneIsShort, EndsAtOnce};
ghost use Rattle.round_keeping.specs.RoundShortages.{HadMemory};
ghost use Rattle.pass_machine.specs.declared.notes.RowNote.{RowNote as Note};
ghost use Rattle.lane_upkeep.specs.Passing.{IsPassing, PassesOn, rows_in, HasRow};
ghost use Rattle.lane_upkeep.specs.Notes.{KnowsNote};
ghost use Rattle.lane_upkeep.specs.RoundNotes.{is_over, is_inside, serial_in, AreExactBelow, IsNoteOf, NotesRound, NotesRun, RanRound, GainsMarks};
ghost use Rattle.lane_upkeep.specs.Quiet.{DoesQuietly, IsRoundQuietly};

use crate::owner::Owner;
use bucket_ids::Bucket;
use carriers::Carrier;
use lane_rounds::rounds::{begin_round_at, run_round};
use lane_states::{AtShortage, LaneState};
use merge_rounds::Round;
use node_sets::NodeSet;
use pass_machine::{Exact, RowNote};
use pass_model::shown_rows::targets_are_of_the_list;
use pieces::Piece;
use round_keeping::RoundRun;
use std::alloc::Global;
use undisturbed_spans::ending::undisturbed_rounds_end;
use upkeep_spans::laws::{upkeep_goes_on, upkeep_leaves_lines, upkeep_leaves_states};
use value_lists::NoMemory;

/// Whether one of these pieces lies strictly over a row.
fn has_over(row: Bucket, pieces: &[Piece]) -> bool
    ensures { result ≡ list_any (is_over row) pieces.now }
{
    pieces.iter().any(|piece| piece.bucket.bits() < row.bits() && piece.bucket.covers(row))
}

/// Whether one of these pieces lies strictly inside a row.
fn has_inside(row: Bucket, pieces: &[Piece]) -> bool
    ensures { result ≡ list_any (is_inside row) pieces.now }
{
    pieces.iter().any(|piece| row.bits() < piece.bucket.bits() && row.covers(piece.bucket))
}

/// The nodes that showed a piece strictly over the row of a round.
fn over_of(round: &Round) -> NodeSet
    ensures { (n : ℕ) → n < 32
        → has_node result n ≡ list_any (is_over round.now.row) (pieces_by n round.now.shown) }
{
    let mut nodes = NodeSet::none();
    for node in 0..32 {
        if has_over(round.row(), round.pieces_of(node)) {
            nodes = nodes.with(node);
        }
    }
    nodes
}

/// The nodes that showed a piece strictly inside the row of a round.
fn inside_of(round: &Round) -> NodeSet
    ensures { (n : ℕ) → n < 32
        → has_node result n ≡ list_any (is_inside round.now.row) (pieces_by n round.now.shown) }
{
    let mut nodes = NodeSet::none();
    for node in 0..32 {
        if has_inside(round.row(), round.pieces_of(node)) {
            nodes = nodes.with(node);
        }
    }
    nodes
}

/// The serial of the piece that is just a row, if one of these is.
fn serial_of(row: Bucket, pieces: &[Piece]) -> Option<u64>
    ensures { result ≡ serial_in row pieces.now }
{
    for piece in pieces {
        if piece.bucket == row {
            return Some(piece.serial);
        }
    }
    None
}

/// The serial of the piece by which a node showed just the row of a round, if it did.
fn serial_at(round: &Round, node: u8) -> Option<u64>
    ensures { result ≡ serial_in round.now.row (pieces_by node round.now.shown) }
{
    serial_of(round.row(), round.pieces_of(node))
}

/// Adds a node to those that showed just the row of a round, if it did.
#[tactic(auto, using(crate::proofs::Exacts::below_none, crate::proofs::Exacts::below_some))]
fn add_exact(exact: &mut Vec<Exact>, round: &Round, node: u8) -> Result<(), NoMemory>
    requires below { AreExactBelow round.now node exact.old.items }
    ensures below { OnOk result (AreExactBelow round.now (node + 1) exact.new.items) }
{
    match serial_at(round, node) {
        Some(serial) => {
            exact.push(Exact { node, serial })?;
            Ok(())
        }
        None => Ok(()),
    }
}

/// The nodes that showed just the row of a round.
#[tactic(auto, using(crate::proofs::Exacts::below_first))]
fn exact_of(alloc: Global, round: &Round) -> Result<Vec<Exact>, NoMemory>
    ensures { IfOk result (λ exact. AreExactBelow round.now 32 exact.items) }
{
    let mut exact = Vec::new(alloc);
    for node in 0..32 {
        add_exact(&mut exact, round, node)?;
    }
    Ok(exact)
}

/// How many documents the union of a round has, if there is one.
fn union_size(round: &mut Round) -> Result<Option<u64>, NoMemory>
    ensures some { IfOk result (λ size. IfSome size (λ documents. documents ≡ documents_of round.old.union)) }
    ensures whole { IfOk result (λ size. IfSome size (λ documents. HaveAllShown round.old.readers round.old.shown)) }
    ensures none { IfOk result (λ size. IfNone size (HaveAllShown round.old.readers round.old.shown → ⊥)) }
    ensures kept { round.new ≡ round.old }
{
    if !round.is_whole() {
        return Ok(None);
    }
    Ok(Some(round.documents()?))
}

/// What a round told of its row.
fn note_of(alloc: Global, round: &mut Round) -> Result<RowNote, NoMemory>
    ensures { IfOk result (IsNoteOf round.old) }
{
    let exact = exact_of(alloc, round)?;
    let documents = union_size(round)?;
    Ok(RowNote {
        bucket: round.row(),
        whole: documents.is_some(),
        holders: round.holders(),
        over: over_of(round),
        inside: inside_of(round),
        exact,
        documents: documents.unwrap_or(0),
    })
}

/// Runs a round in the row of a place to its end, and gives it. `NoMemory` is of the lane or of a node; where the round
/// has begun it ends it at once.
fn run_at<C: Carrier>(
    lane: &mut LaneState,
    carrier: &mut C,
    owner: &Owner,
    at: usize,
) -> Result<RoundRun, NoMemory>
    requires passing { IsPassing lane.old owner.now (C.given carrier.old) }
    requires place { at < length (rows_in lane.old owner.now) }
    ensures planned { C.planned carrier.new ≡ C.planned carrier.old }
    ensures kind { C.takes_plans carrier.new ≡ C.takes_plans carrier.old }
    ensures gives { GivesOn (C.given carrier.old) (C.given carrier.new) }
    ensures passing { IsPassing lane.new owner.now (C.given carrier.new) }
    ensures on { PassesOn lane.old lane.new owner.now }
    ensures buckets { buckets_of (rows_in lane.new owner.now) ≡ buckets_of (rows_in lane.old owner.now) }
    ensures gains { IfOk result (λ run. GainsMarks (part_of lane.old owner.now.distributor)
        (part_of lane.new owner.now.distributor) at run.round.holders) }
    ensures row { IfOk result (λ run. (row : Row) → HasRow lane.old owner.now at row → run.round.row ≡ row.bucket) }
    ensures answers { IfOk result (λ run. KnowsAnswers (journal_of lane.new) owner.now.state run.round) }
    ensures ran { IfOk result (RanRound lane.old lane.new owner.now at (C.given carrier.old) (C.given carrier.new)) }
    ensures others { IfOk result (λ run. (other : Note) → other.bucket ≢ run.round.row
        → KnowsNote (journal_of lane.old) owner.now.state other → KnowsNote (journal_of lane.new) owner.now.state other) }
    ensures had { IfOk result HadMemory }
    ensures none_is_short { OnOk result (NoneIsShort lane.old.last lane.new.last (journal_of lane.new)) }
    ensures at_once { EndsAtOnce lane.old.last lane.new.last (journal_of lane.new) }
{
    upkeep_leaves_lines();
    upkeep_leaves_states();
    upkeep_goes_on();
    lane.journal.events.reserve(2 + lane.spare)?;
    let mut run = begin_round_at(lane, owner.distributor, at);
    run_round(lane, carrier, &mut run, AtShortage::End)?;
    Ok(run)
}

/// Runs a round in the row of a place to its end, and notes what it told. `NoMemory` comes before the round begins,
/// while it runs or at a node, which ends it at once, or for the note.
pub fn run_round_at<C: Carrier>(
    lane: &mut LaneState,
    carrier: &mut C,
    owner: &Owner,
    at: usize,
) -> Result<RowNote, NoMemory>
    requires passing { IsPassing lane.old owner.now (C.given carrier.old) }
    requires place { at < length (rows_in lane.old owner.now) }
    ensures planned { C.planned carrier.new ≡ C.planned carrier.old }
    ensures kind { C.takes_plans carrier.new ≡ C.takes_plans carrier.old }
    ensures gives { GivesOn (C.given carrier.old) (C.given carrier.new) }
    ensures passing { IsPassing lane.new owner.now (C.given carrier.new) }
    ensures on { PassesOn lane.old lane.new owner.now }
    ensures buckets { buckets_of (rows_in lane.new owner.now) ≡ buckets_of (rows_in lane.old owner.now) }
    ensures gains { IfOk result (λ note. GainsMarks (part_of lane.old owner.now.distributor)
        (part_of lane.new owner.now.distributor) at note.holders) }
    ensures row { IfOk result (λ note. (row : Row) → HasRow lane.old owner.now at row → note.bucket ≡ row.bucket) }
    ensures noted { IfOk result (NotesRound (journal_of lane.new) owner.now.state) }
    ensures ran { IfOk result (NotesRun lane.old lane.new owner.now at (C.given carrier.old) (C.given carrier.new)) }
    ensures knows { IfOk result (λ note. KnowsNote (journal_of lane.new) owner.now.state note) }
    ensures others { IfOk result (λ note. (other : Note) → other.bucket ≢ note.bucket
        → KnowsNote (journal_of lane.old) owner.now.state other → KnowsNote (journal_of lane.new) owner.now.state other) }
    ensures none_is_short { OnOk result (NoneIsShort lane.old.last lane.new.last (journal_of lane.new)) }
    ensures at_once { EndsAtOnce lane.old.last lane.new.last (journal_of lane.new) }
    ensures quiet { IfOk result (λ note. DoesQuietly (C.given carrier.old) (C.given carrier.new) lane.old lane.new owner.now
        (λ d s. (row : Row) → HasRow lane.old owner.now at row → IsRoundQuietly d s lane.old lane.new owner.now at row note)) }
{
    undisturbed_rounds_end();
    targets_are_of_the_list();
    let mut run = run_at(lane, carrier, owner, at)?;
    note_of(lane.alloc, &mut run.round)
}
