ghost use Rattle.std.specs.Prelude.{◌≡◌, ◌≤◌, ℕ, List, [], IsTrue, map};
ghost use Rattle.std.specs.String.{string_bytes};
ghost use Rattle.std.specs.Io.KnownBytes.{Appends};
ghost use Rattle.io_ends.specs.Causes.{HasRisen};
ghost use Rattle.reports.specs.ReportText.{usage_text};
ghost use Rattle.session_settings.specs.Choices.{ChoosesAlone, AreWrongAlone};
ghost use Rattle.lane_lives.specs.Settings.{IsSetting};
ghost use Rattle.session_settings.specs.declared.choice.Choice.{Choice};
ghost use Rattle.session_cluster.specs.Cells.{is_empty, journals_of};
ghost use Rattle.cell_session.specs.Dealing.{EndsAs};
ghost use Rattle.cell_session.specs.Ends.{IfTold, OfFirst, HasLanes, DealsWith, ReadsNoMore, PassesLimit, Writes, UsageEnd};
ghost use Rattle.cell_session.specs.Lines.{HaveLines};
ghost use Rattle.cell_session.specs.Orders.{GoInOrder};
ghost use Rattle.session_cluster.specs.Keeping.{IsKept};
ghost use Rattle.cell_session.specs.SoFar.{IsUnserved};
ghost use Rattle.session_cluster.specs.Steps.{AreSettled};
ghost use Rattle.carriers.specs.declared.fate.Fate.{Fate};
ghost use Rattle.session_cluster.specs.Lanes.{AreLegal, AreInOrder, AreTogether};
ghost use Rattle.cell_session.specs.LanePromises.{AreDurable, AreComplete, AreShownRight};
ghost use Rattle.cell_session.specs.Searches.{CountOnce};

use crate::answering::{Stop, answer_line};
use crate::counts::{Counts, counts_with};
use crate::limits::{MOST_BYTES, MOST_LINES};
use crate::next_command::{Step, next_command};
use crate::status::Status;
use carriers::{Carrier, Carriers};
use io_ends::{LimitKind, LineReader, Sink, Source, write_all};
use journal_views::laws::{
    answers_are_of_what_is_read, fronts_count_once, journals_are_read, journals_are_shown,
};
use lane_lives::Setting;
use lane_promises::laws::{
    hearings_follow_deeds, lanes_are_complete, lanes_are_durable, lines_are_refused_with_cause,
    lines_fall_short_with_cause, rested_lanes_stay_covered,
};
use line_values::ValueReader;
use reports::usage_report;
use session_cluster::cluster::Cluster;
use session_cluster::session::{Session, open_session};
use session_settings::choose_alone;
use std::alloc::Global;
use words_line::WordsFault;

/// Runs a session: reads the lines of the source, deals with each in order, and writes its report
/// before the next line is read. The first word is the program's name. It waits for nobody and always
/// returns.
pub fn run_one<S: Source, K: Sink, C: Carriers>(
    alloc: Global,
    words: &[String],
    source: &mut S,
    sink: &mut K,
    carriers: &mut C,
    cluster: &mut Cluster<C::One>,
) -> Status
    requires { IsTrue (is_empty cluster.old) }

    // the journals: which are legal, what is kept of them, whether lines overlap, that states, stops and starts come
    // to all alike, how many there are, and by what is shown of them
    ensures legal_lanes { (c : Choice) → ChoosesAlone (map string_bytes words.now) c
        → AreLegal c.setting (journals_of cluster.new) }
    ensures durability { (c : Choice) → ChoosesAlone (map string_bytes words.now) c
        → AreDurable c.setting (journals_of cluster.new) }
    ensures lines_in_order { AreInOrder (journals_of cluster.new) }
    ensures state_events { AreTogether (journals_of cluster.new) }
    ensures lanes { (c : Choice) → ChoosesAlone (map string_bytes words.now) c → HasLanes result c.setting cluster.new }
    ensures shown { (c : Choice) → ChoosesAlone (map string_bytes words.now) c → AreShownRight c.setting cluster.new }

    // the lines: which were dealt with; what each of them did, who heard which state, what became of messages, why lines
    // were refused or lacked answers, how upkeep went, that its passes went on in their order whatever was lost, and that
    // searches behind rest are full; and the bytes that answer them
    ensures dealt_with { (c : Choice) → ChoosesAlone (map string_bytes words.now) c
        → IfTold (S.left source.old)
        (λ text. DealsWith result c.setting.schema c.setting.bits text cluster.new.dealt (S.left source.new)) }
    ensures lines { (c : Choice) → ChoosesAlone (map string_bytes words.now) c
        → HaveLines result c.setting c.setting.schema (C.plans carriers.old) (S.left source.old) cluster.new }
    ensures passes_in_order { (c : Choice) → ChoosesAlone (map string_bytes words.now) c → GoInOrder c.setting cluster.new }
    ensures completeness { (c : Choice) → ChoosesAlone (map string_bytes words.now) c
        → AreComplete c.setting cluster.new.lanes }
    ensures bytes_written { (c : Choice) → ChoosesAlone (map string_bytes words.now) c
        → IfTold (S.left source.old) (λ text. OfFirst c.setting.schema c.setting.bits text cluster.new.dealt
        (λ commands. Writes result c.setting commands cluster.new
        (K.written sink.old) (K.written sink.new))) }

    // after a fault of the sink the source is called no more: its last call gave the line feed of the line that was dealt
    // with; where a last line has none, one call more, which gave nothing, may have come behind it
    ensures nothing_more { (c : Choice) → ChoosesAlone (map string_bytes words.now) c → result ≡ Status.WriteFault
        → ReadsNoMore (S.left source.old) (S.left source.new) (S.gave source.new) cluster.new.dealt }

    // the searches: each counts a document once at most, and at full coverage as an operation left it that is no older
    // than what was acknowledged before
    ensures searches { (c : Choice) → ChoosesAlone (map string_bytes words.now) c
        → CountOnce c.setting c.setting.schema (S.left source.old) cluster.new }

    // words that choose no such session: the one usage line is written, nothing is read, and the cluster is as it was
    ensures wrong_words { AreWrongAlone (map string_bytes words.now)
        → UsageEnd result (K.written sink.old) (K.written sink.new) }
    ensures nothing_read { AreWrongAlone (map string_bytes words.now)
        → (source.new ≡ source.old) × (cluster.new ≡ cluster.old) }

    // each answer has its cause
    ensures usage { result ≡ Status.Usage → AreWrongAlone (map string_bytes words.now)
        × Appends (K.written sink.old) (K.written sink.new) usage_text }
    ensures limit { (which : LimitKind) → result ≡ Status.Limit which
        → (c : Choice) × (ChoosesAlone (map string_bytes words.now) c
        × IfTold (S.left source.old) (λ text. OfFirst c.setting.schema c.setting.bits text cluster.new.dealt
        (PassesLimit which c.setting.schema c.setting.bits text))) }
    ensures read_fault { result ≡ Status.ReadFault
        → HasRisen S.last (S.faults source.old) (S.faults source.new) }
    ensures write_fault { result ≡ Status.WriteFault
        → HasRisen K.last (K.faults sink.old) (K.faults sink.new) }
    ensures source_calm { S.faults source.old ≤ S.faults source.new }
    ensures sink_calm { K.faults sink.old ≤ K.faults sink.new }
{
    lanes_are_durable();
    lanes_are_complete();
    hearings_follow_deeds();
    lines_are_refused_with_cause();
    lines_fall_short_with_cause();
    rested_lanes_stay_covered();
    journals_are_read();
    journals_are_shown();
    fronts_count_once();
    answers_are_of_what_is_read();
    match choose_alone(alloc, words) {
        Ok(choice) => run_lines(alloc, &choice.setting, source, sink, carriers, cluster),
        Err(WordsFault::Usage) => refuse_words(alloc, sink),
        Err(WordsFault::NoMemory) => Status::NoMemory,
    }
}

/// Writes the usage line.
pub(crate) fn refuse_words<K: Sink>(alloc: Global, sink: &mut K) -> Status
    ensures ended { UsageEnd result (K.written sink.old) (K.written sink.new) }
    ensures fault { result ≡ Status.WriteFault → HasRisen K.last (K.faults sink.old) (K.faults sink.new) }
    ensures count { K.faults sink.old ≤ K.faults sink.new }
{
    let Ok(report) = usage_report(alloc) else {
        return Status::NoMemory;
    };
    match write_all(sink, &report) {
        Ok(()) => Status::Usage,
        Err(_) => Status::WriteFault,
    }
}

/// Runs the lines of the source in new lanes, for which room is made in the cluster first, and leaves them there.
fn run_lines<S: Source, K: Sink, C: Carriers>(
    alloc: Global,
    setting: &Setting,
    source: &mut S,
    sink: &mut K,
    carriers: &mut C,
    cluster: &mut Cluster<C::One>,
) -> Status
    requires empty { IsTrue (is_empty cluster.old) }
    requires setting { IsSetting setting.now }
    ensures ended { EndsAs result setting.now setting.now.schema (C.plans carriers.old) (S.left source.old) (S.left source.new) cluster.new
        (K.written sink.old) (K.written sink.new) }
    ensures nothing_more { result ≡ Status.WriteFault
        → ReadsNoMore (S.left source.old) (S.left source.new) (S.gave source.new) cluster.new.dealt }
    ensures read_fault { result ≡ Status.ReadFault
        → HasRisen S.last (S.faults source.old) (S.faults source.new) }
    ensures write_fault { result ≡ Status.WriteFault
        → HasRisen K.last (K.faults sink.old) (K.faults sink.new) }
    ensures source_calm { S.faults source.old ≤ S.faults source.new }
    ensures sink_calm { K.faults sink.old ≤ K.faults sink.new }
{
    let Ok(mut session) = open_session(alloc, setting, carriers) else {
        return Status::NoMemory;
    };
    let status = serve_lines(alloc, setting, source, sink, &mut session);
    session.leave(cluster);
    status
}

/// Deals with the lines of the source, each in its turn, in a session that dealt with none.
fn serve_lines<S: Source, K: Sink, C: Carrier + Drop>(
    alloc: Global,
    setting: &Setting,
    source: &mut S,
    sink: &mut K,
    session: &mut Session<C>,
) -> Status
    requires new { IsUnserved setting.now session.old.cell }
    requires settled { AreSettled session.old }
    ensures ended { (plans : ℕ → List Fate) → IsKept setting.now plans [] session.old.cell
        → EndsAs result setting.now setting.now.schema plans (S.left source.old) (S.left source.new) session.new.cell
        (K.written sink.old) (K.written sink.new) }
    ensures nothing_more { result ≡ Status.WriteFault
        → ReadsNoMore (S.left source.old) (S.left source.new) (S.gave source.new) session.new.cell.dealt }
    ensures read_fault { result ≡ Status.ReadFault
        → HasRisen S.last (S.faults source.old) (S.faults source.new) }
    ensures write_fault { result ≡ Status.WriteFault
        → HasRisen K.last (K.faults sink.old) (K.faults sink.new) }
    ensures source_calm { S.faults source.old ≤ S.faults source.new }
    ensures sink_calm { K.faults sink.old ≤ K.faults sink.new }
{
    let Ok(mut reader) = LineReader::new(alloc, MOST_BYTES, MOST_LINES) else {
        return Status::NoMemory;
    };
    let mut values = ValueReader::new(alloc);
    let mut line = Vec::new(alloc);
    let mut counts = Counts {
        states: 0,
        maintains: 0,
    };
    loop {
        let step = next_command(
            alloc,
            &mut values,
            &setting.schema,
            setting.bits,
            &mut reader,
            source,
            &mut line,
        );
        let (number, command) = match step {
            Step::Command { number, command } => (number, command),
            Step::Over { status } => return status,
        };
        let counted = match counts_with(counts, &command) {
            Ok(counted) => counted,
            Err(which) => return Status::Limit { which },
        };
        match answer_line(alloc, setting, number, command, sink, session) {
            Ok(()) => counts = counted,
            Err(Stop::Fault) => return Status::WriteFault,
            Err(Stop::Memory) => return Status::NoMemory,
        }
    }
}
