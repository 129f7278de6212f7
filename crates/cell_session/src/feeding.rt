//! Sessions whose lines feeders run in threads, a segment at a time.

ghost use Rattle.std.specs.Prelude.{◌≡◌, ◌≤◌, ℕ, List, [], IsTrue, map};
ghost use Rattle.std.specs.String.{string_bytes};
ghost use Rattle.std.specs.Io.KnownBytes.{Appends};
ghost use Rattle.carriers.specs.declared.fate.Fate.{Fate};
ghost use Rattle.io_ends.specs.Causes.{HasRisen};
ghost use Rattle.lane_lives.specs.Settings.{IsSetting};
ghost use Rattle.reports.specs.ReportText.{usage_text};
ghost use Rattle.session_cluster.specs.Cells.{is_empty, journals_of};
ghost use Rattle.session_cluster.specs.Keeping.{IsKept};
ghost use Rattle.session_cluster.specs.Lanes.{AreLegal, AreTogether};
ghost use Rattle.session_cluster.specs.Steps.{AreSettled};
ghost use Rattle.session_settings.specs.Choices.{ChoosesFed, AreWrongFed};
ghost use Rattle.session_settings.specs.declared.choice.Choice.{Choice};
ghost use Rattle.cell_session.specs.Ends.{IfTold, OfFirst, HasLanes, PassesLimit, UsageEnd};
ghost use Rattle.cell_session.specs.FedDealing.{EndsFedAs};
ghost use Rattle.cell_session.specs.FedEnds.{OfParts, StopsFed, WritesFed};
ghost use Rattle.cell_session.specs.FedLines.{HaveFedLines, CountOnceFed};
ghost use Rattle.cell_session.specs.LanePromises.{AreComplete, AreDurable, AreShownRight};
ghost use Rattle.cell_session.specs.Orders.{GoInOrder};
ghost use Rattle.cell_session.specs.SoFar.{IsUnserved, first_reading};

use crate::answering::answer_line;
use crate::counts::{Counts, counts_with};
use crate::limits::{MOST_BYTES, MOST_LINES};
use crate::next_command::Step;
use crate::next_segment::{Segment, next_segment};
use crate::running::refuse_words;
use crate::segment_answering::answer_segment;
use crate::status::Status;
use carriers::{Carrier, Carriers};
use io_ends::{LimitKind, LineReader, Sink, Source};
use journal_views::laws::{
    answers_are_of_what_is_read, fronts_count_once, journals_are_read, journals_are_shown,
};
use lane_lives::Setting;
use lane_promises::laws::{
    deeds_come_in_order, hearings_follow_deeds, lanes_are_complete, lanes_are_durable,
    lines_are_refused_with_cause, lines_fall_short_with_cause, rested_lanes_stay_covered,
};
use line_feeders::Gate;
use line_values::ValueReader;
use session_cluster::cluster::Cluster;
use session_cluster::session::{Session, open_session};
use session_segments::laws::segments_are_kept;
use session_settings::choose_fed;
use std::alloc::Global;
use std::sync::Wait;
use std::thread::Threads;
use words_line::WordsFault;

/// Runs a session as `run_one` does, but feeders in threads, as many as the words choose, run the lines of a segment at once:
/// those between two lines that change states, nodes, fates or upkeep, or are barriers. Reports are written in the order of
/// the lines, those of a segment once all of its lines were run. Of a longer segment at most 2,048 lines are run and
/// reported at once, and then the next ones. It waits for its feeders.
pub fn run_many<R: Threads + Wait + Sync, S: Source, K: Sink, C: Carriers, G: Gate + Sync>(
    rt: &R,
    alloc: Global,
    words: &[String],
    source: &mut S,
    sink: &mut K,
    carriers: &mut C,
    cluster: &mut Cluster<C::One>,
    gate: &G,
) -> Status
where
    C::One: Send,
    requires { IsTrue (is_empty cluster.old) }

    // the journals: which are legal, what is kept of them, that states, stops and starts come to all alike, how many there
    // are, by what is shown of them, and that lines of which no message was lost came to what nodes answered
    ensures legal_lanes { (c : Choice) → ChoosesFed (map string_bytes words.now) c
        → AreLegal c.setting (journals_of cluster.new) }
    ensures durability { (c : Choice) → ChoosesFed (map string_bytes words.now) c
        → AreDurable c.setting (journals_of cluster.new) }
    ensures state_events { AreTogether (journals_of cluster.new) }
    ensures lanes { (c : Choice) → ChoosesFed (map string_bytes words.now) c → HasLanes result c.setting cluster.new }
    ensures shown { (c : Choice) → ChoosesFed (map string_bytes words.now) c → AreShownRight c.setting cluster.new }
    ensures completeness { (c : Choice) → ChoosesFed (map string_bytes words.now) c
        → AreComplete c.setting cluster.new.lanes }

    // the lines: which were dealt with; what they did, a segment at a time, in which order, who heard which state, what became
    // of messages, why lines were refused or lacked answers, how upkeep went, that its passes went on in their order whatever
    // was lost, and that searches behind rest are full; and the bytes that answer them
    ensures dealt_with { (c : Choice) → ChoosesFed (map string_bytes words.now) c
        → IfTold (S.left source.old) (λ text. OfParts c.setting.schema c.setting.bits text cluster.new.dealt
        (StopsFed result c.setting.schema c.setting.bits text (S.left source.new))) }
    ensures lines { (c : Choice) → ChoosesFed (map string_bytes words.now) c
        → HaveFedLines result c.setting c.setting.schema c.feeders (C.plans carriers.old) (S.left source.old)
        cluster.new (K.written sink.old) (K.written sink.new) }
    ensures passes_in_order { (c : Choice) → ChoosesFed (map string_bytes words.now) c
        → GoInOrder c.setting cluster.new }
    ensures bytes_written { (c : Choice) → ChoosesFed (map string_bytes words.now) c
        → IfTold (S.left source.old) (λ text. OfParts c.setting.schema c.setting.bits text cluster.new.dealt
        (λ parts. WritesFed result c.setting parts cluster.new
        (K.written sink.old) (K.written sink.new))) }

    // the searches: each counts a document once at most, and at full coverage as an operation left it that is no older
    // than what was acknowledged before, where it read, which is behind its segment
    ensures searches { (c : Choice) → ChoosesFed (map string_bytes words.now) c
        → CountOnceFed result c.setting c.setting.schema c.feeders (S.left source.old) cluster.new }

    // words that choose no such session: the one usage line is written, nothing is read, and the cluster is as it was
    ensures wrong_words { AreWrongFed (map string_bytes words.now)
        → UsageEnd result (K.written sink.old) (K.written sink.new) }
    ensures nothing_read { AreWrongFed (map string_bytes words.now)
        → (source.new ≡ source.old) × (cluster.new ≡ cluster.old) }

    // each answer has its cause
    ensures usage { result ≡ Status.Usage → AreWrongFed (map string_bytes words.now)
        × Appends (K.written sink.old) (K.written sink.new) usage_text }
    ensures limit { (which : LimitKind) → result ≡ Status.Limit which
        → (c : Choice) × (ChoosesFed (map string_bytes words.now) c
        × IfTold (S.left source.old) (λ text. OfFirst c.setting.schema c.setting.bits text cluster.new.dealt
        (PassesLimit which c.setting.schema c.setting.bits text))) }
    ensures read_fault { result ≡ Status.ReadFault
        → HasRisen S.last (S.faults source.old) (S.faults source.new) }
    ensures write_fault { result ≡ Status.WriteFault
        → HasRisen K.last (K.faults sink.old) (K.faults sink.new) }
    ensures source_calm { S.faults source.old ≤ S.faults source.new }
    ensures sink_calm { K.faults sink.old ≤ K.faults sink.new }
{
    lanes_are_durable();
    lanes_are_complete();
    hearings_follow_deeds();
    lines_are_refused_with_cause();
    lines_fall_short_with_cause();
    deeds_come_in_order();
    rested_lanes_stay_covered();
    journals_are_read();
    journals_are_shown();
    fronts_count_once();
    answers_are_of_what_is_read();
    match choose_fed(alloc, words) {
        Ok(choice) => feed_session(
            rt,
            alloc,
            gate,
            &choice.setting,
            choice.feeders,
            source,
            sink,
            carriers,
            cluster,
        ),
        Err(WordsFault::Usage) => refuse_words(alloc, sink),
        Err(WordsFault::NoMemory) => Status::NoMemory,
    }
}

/// Has feeders run the lines of the source in new lanes, for which room is made in the cluster first, and leaves them there.
fn feed_session<R: Threads + Wait + Sync, S: Source, K: Sink, C: Carriers, G: Gate + Sync>(
    rt: &R,
    alloc: Global,
    gate: &G,
    setting: &Setting,
    feeders: u8,
    source: &mut S,
    sink: &mut K,
    carriers: &mut C,
    cluster: &mut Cluster<C::One>,
) -> Status
where
    C::One: Send,
    requires empty { IsTrue (is_empty cluster.old) }
    requires setting { IsSetting setting.now }
    requires feeders { (1 ≤ feeders) × (feeders ≤ 8) }
    ensures ended { EndsFedAs result setting.now setting.now.schema feeders (C.plans carriers.old) (S.left source.old)
        (S.left source.new) cluster.new (K.written sink.old) (K.written sink.new) }
    ensures read_fault { result ≡ Status.ReadFault
        → HasRisen S.last (S.faults source.old) (S.faults source.new) }
    ensures write_fault { result ≡ Status.WriteFault
        → HasRisen K.last (K.faults sink.old) (K.faults sink.new) }
    ensures source_calm { S.faults source.old ≤ S.faults source.new }
    ensures sink_calm { K.faults sink.old ≤ K.faults sink.new }
{
    let Ok(mut reader) = LineReader::new(alloc, MOST_BYTES, MOST_LINES) else {
        return Status::NoMemory;
    };
    let Ok(mut session) = open_session(alloc, setting, carriers) else {
        return Status::NoMemory;
    };
    let status = feed_segments(
        rt,
        alloc,
        gate,
        setting,
        feeders,
        &mut reader,
        source,
        sink,
        &mut session,
    );
    session.leave(cluster);
    status
}

/// Deals with the lines of the source, a segment at a time and then the line that ends it, in a session that dealt with
/// none.
fn feed_segments<
    R: Threads + Wait + Sync,
    S: Source,
    K: Sink,
    C: Carrier + Drop + Send,
    G: Gate + Sync,
>(
    rt: &R,
    alloc: Global,
    gate: &G,
    setting: &Setting,
    feeders: u8,
    reader: &mut LineReader,
    source: &mut S,
    sink: &mut K,
    session: &mut Session<C>,
) -> Status
    requires new { IsUnserved setting.now session.old.cell }
    requires settled { AreSettled session.old }
    requires reader { reader.old ≡ first_reading }
    requires feeders { (1 ≤ feeders) × (feeders ≤ 8) }
    ensures ended { (plans : ℕ → List Fate) → IsKept setting.now plans [] session.old.cell
        → EndsFedAs result setting.now setting.now.schema feeders plans (S.left source.old) (S.left source.new)
        session.new.cell (K.written sink.old) (K.written sink.new) }
    ensures read_fault { result ≡ Status.ReadFault
        → HasRisen S.last (S.faults source.old) (S.faults source.new) }
    ensures write_fault { result ≡ Status.WriteFault
        → HasRisen K.last (K.faults sink.old) (K.faults sink.new) }
    ensures source_calm { S.faults source.old ≤ S.faults source.new }
    ensures sink_calm { K.faults sink.old ≤ K.faults sink.new }
{
    segments_are_kept();
    let mut values = ValueReader::new(alloc);
    let mut line = Vec::new(alloc);
    let mut counts = Counts {
        states: 0,
        maintains: 0,
    };
    let mut first = 1;
    loop {
        let Ok(Segment { commands, next }) = next_segment(
            alloc,
            &mut values,
            &setting.schema,
            setting.bits,
            reader,
            source,
            &mut line,
        ) else {
            return Status::NoMemory;
        };
        let count = commands.len() as u32;
        if let Err(stop) = answer_segment(
            rt, alloc, gate, setting, feeders, first, commands, sink, session,
        ) {
            return stop.status();
        }
        let Some(next) = next else {
            first += count;
            continue;
        };
        let (number, command) = match next {
            Step::Command { number, command } => (number, command),
            Step::Over { status } => return status,
        };
        let counted = match counts_with(counts, &command) {
            Ok(counted) => counted,
            Err(which) => return Status::Limit { which },
        };
        if let Err(stop) = answer_line(alloc, setting, number, command, sink, session) {
            return stop.status();
        }
        counts = counted;
        first = number + 1;
    }
}
