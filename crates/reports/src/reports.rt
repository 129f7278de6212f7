ghost use Rattle.std.specs.Prelude.{◌≡◌, ◌∷◌, ◌++◌, [], false, IfOk, OnOk, codes, decimal};
ghost use Rattle.json.specs.Token.{begin_object, key, string, number, boolean};
ghost use Rattle.stamps.specs.Printed.{printed};
ghost use Rattle.reports.specs.ReportText.{acked_members, found_members, missing_members, condition_failed_members, nothing_members, field_fault_members, size_fault_members, result_members, bad_update_members, too_few_members, owned_elsewhere_members, cause_text, published_members, not_newer_members, too_few_up_members, too_many_out_members, count_members, planned_members, maintained_members, bad_line_members, search_members, report_text, usage_text, line_text};
ghost use Rattle.reports.specs.Writing.{Puts, result_tokens, seen_tokens, measure_tokens, search_tokens, IsWhole};

use crate::answer::Answer;
use crate::fields::begun_with;
use crate::groups::put_groups;
use arrayvec::ArrayString;
use doc_updates::UpdateFault;
use document_ids::DocId;
use documents::Document;
use feed_lines::Cause;
use json::Writer;
use query_groups::SearchAnswer;
use stamps::Stamp;
use std::alloc::Global;
use value_lists::NoMemory;

/// The room of most reports, in bytes.
const ROOM: usize = 96;

/// An object that begins.
fn begun(alloc: Global) -> Result<Writer, NoMemory>
    ensures before { IfOk result (λ out. out.before ≡ []) }
    ensures tokens { IfOk result (λ out. out.tokens ≡ begin_object ∷ []) }
{
    let mut out = Writer::new(Vec::with_capacity(alloc, ROOM)?);
    out.begin_object()?;
    Ok(out)
}

/// Writes a member that is a text.
fn put_text(out: &mut Writer, name: &str, text: &str) -> Result<(), NoMemory>
    ensures { OnOk result (Puts out.old out.new (key name.now ∷ string text.now ∷ [])) }
{
    out.key(name)?;
    out.string(text)?;
    Ok(())
}

/// Writes a member that is a count.
fn put_count(out: &mut Writer, name: &str, count: u64) -> Result<(), NoMemory>
    ensures { OnOk result (Puts out.old out.new (key name.now ∷ number (decimal count) ∷ [])) }
{
    out.key(name)?;
    out.u64(count)?;
    Ok(())
}

/// Writes the line's number and the word of its result.
fn put_result(out: &mut Writer, line: u32, word: &str) -> Result<(), NoMemory>
    ensures { OnOk result (Puts out.old out.new (result_tokens line word.now)) }
{
    put_count(out, "line", u64::from(line))?;
    put_text(out, "result", word)
}

/// The text of a stamp, in no memory of its own: ten digits, a colon and twenty digits at most.
fn stamp_text(stamp: Stamp) -> ArrayString<32>
    ensures { result.bytes ≡ printed stamp }
{
    let mut text = ArrayString::new();
    let mut digits = itoa::Buffer::new();
    text.push_str(digits.format(stamp.version));
    text.push(':');
    text.push_str(digits.format(stamp.count));
    text
}

/// Writes a member that is a stamp.
fn put_stamp(out: &mut Writer, name: &str, stamp: Stamp) -> Result<(), NoMemory>
    ensures { OnOk result (Puts out.old out.new (key name.now ∷ string (printed stamp) ∷ [])) }
{
    put_text(out, name, stamp_text(stamp).as_str())
}

/// Writes what was seen, with null for nothing.
fn put_seen(out: &mut Writer, seen: Option<Stamp>) -> Result<(), NoMemory>
    ensures { OnOk result (Puts out.old out.new (seen_tokens seen)) }
{
    match seen {
        Some(stamp) => put_stamp(out, "seen", stamp),
        None => {
            out.key("seen")?;
            out.null()?;
            Ok(())
        }
    }
}

/// Ends the object and the line.
#[tactic(auto, unfolding(crate::specs::ReportText::line_text))]
fn ended(out: Writer) -> Result<Vec<u8>, NoMemory>
    ensures { IfOk result (λ bytes. IsWhole out bytes.items) }
{
    let mut out = out;
    out.end_object()?;
    let mut bytes = out.into_inner();
    bytes.push(b'\n')?;
    Ok(bytes)
}

/// `{"line":1,"result":"acked","stamp":"1:1"}`.
#[tactic(auto, unfolding(crate::specs::ReportText::acked_members))]
fn acked_report(alloc: Global, line: u32, stamp: Stamp) -> Result<Vec<u8>, NoMemory>
    ensures { IfOk result (λ bytes. bytes.items ≡ line_text (acked_members line stamp)) }
{
    let mut out = begun(alloc)?;
    put_result(&mut out, line, "acked")?;
    put_stamp(&mut out, "stamp", stamp)?;
    ended(out)
}

/// `{"fields":{..},"id":"..","line":2,"result":"found","stamp":"1:1"}`.
#[tactic(auto, unfolding(crate::specs::ReportText::found_members))]
fn found_report(
    alloc: Global,
    line: u32,
    id: &DocId,
    document: &Document,
    stamp: Stamp,
) -> Result<Vec<u8>, NoMemory>
    ensures { IfOk result (λ bytes. bytes.items ≡ line_text (found_members line id.now document.now stamp)) }
{
    let mut out = begun_with(alloc, document)?;
    put_text(&mut out, "id", id.text())?;
    put_result(&mut out, line, "found")?;
    put_stamp(&mut out, "stamp", stamp)?;
    ended(out)
}

/// `{"line":3,"result":"missing","seen":"1:2"}`, with null where nothing was seen.
#[tactic(auto, unfolding(crate::specs::ReportText::missing_members))]
fn missing_report(alloc: Global, line: u32, seen: Option<Stamp>) -> Result<Vec<u8>, NoMemory>
    ensures { IfOk result (λ bytes. bytes.items ≡ line_text (missing_members line seen)) }
{
    let mut out = begun(alloc)?;
    put_result(&mut out, line, "missing")?;
    put_seen(&mut out, seen)?;
    ended(out)
}

/// `{"line":3,"result":"conditionfailed","seen":"1:2"}`, with null where nothing was seen.
#[tactic(auto, unfolding(crate::specs::ReportText::condition_failed_members))]
fn condition_failed_report(
    alloc: Global,
    line: u32,
    seen: Option<Stamp>,
) -> Result<Vec<u8>, NoMemory>
    ensures { IfOk result (λ bytes. bytes.items ≡ line_text (condition_failed_members line seen)) }
{
    let mut out = begun(alloc)?;
    put_result(&mut out, line, "conditionfailed")?;
    put_seen(&mut out, seen)?;
    ended(out)
}

/// `{"found":false,"line":4,"result":"acked"}`.
#[tactic(auto, unfolding(crate::specs::ReportText::nothing_members))]
fn nothing_report(alloc: Global, line: u32) -> Result<Vec<u8>, NoMemory>
    ensures { IfOk result (λ bytes. bytes.items ≡ line_text (nothing_members line)) }
{
    let mut out = begun(alloc)?;
    out.key("found")?;
    out.boolean(false)?;
    put_result(&mut out, line, "acked")?;
    ended(out)
}

/// `{"fault":"overflow","field":"year","line":2,"result":"badupdate"}`.
#[tactic(auto, unfolding(crate::specs::ReportText::field_fault_members))]
fn field_fault_report(
    alloc: Global,
    line: u32,
    word: &str,
    field: &str,
) -> Result<Vec<u8>, NoMemory>
    ensures { IfOk result (λ bytes. bytes.items ≡ line_text (field_fault_members line word.now field.now)) }
{
    let mut out = begun(alloc)?;
    put_text(&mut out, "fault", word)?;
    put_text(&mut out, "field", field)?;
    put_result(&mut out, line, "badupdate")?;
    ended(out)
}

/// `{"fault":"toolarge","line":2,"result":"badupdate","size":65537}`.
#[tactic(auto, unfolding(crate::specs::ReportText::size_fault_members))]
fn size_fault_report(alloc: Global, line: u32, size: u64) -> Result<Vec<u8>, NoMemory>
    ensures { IfOk result (λ bytes. bytes.items ≡ line_text (size_fault_members line size)) }
{
    let mut out = begun(alloc)?;
    put_text(&mut out, "fault", "toolarge")?;
    put_result(&mut out, line, "badupdate")?;
    put_count(&mut out, "size", size)?;
    ended(out)
}

/// A report of a line's number and a result alone.
#[tactic(auto, unfolding(crate::specs::ReportText::result_members))]
fn result_report(alloc: Global, line: u32, word: &str) -> Result<Vec<u8>, NoMemory>
    ensures { IfOk result (λ bytes. bytes.items ≡ line_text (result_members line word.now)) }
{
    let mut out = begun(alloc)?;
    put_result(&mut out, line, word)?;
    ended(out)
}

fn bad_update_report(alloc: Global, line: u32, fault: &UpdateFault) -> Result<Vec<u8>, NoMemory>
    ensures { IfOk result (λ bytes. bytes.items ≡ line_text (bad_update_members line fault.now)) }
{
    match fault {
        UpdateFault::ZeroDivisor { field } => {
            field_fault_report(alloc, line, "zerodivisor", field.text())
        }
        UpdateFault::Overflow { field } => {
            field_fault_report(alloc, line, "overflow", field.text())
        }
        UpdateFault::TooMany { field } => field_fault_report(alloc, line, "toomany", field.text()),
        UpdateFault::TooLarge { size } => size_fault_report(alloc, line, *size),
        UpdateFault::NoMemory => result_report(alloc, line, "nomemory"),
    }
}

/// `{"absent":1,"answered":1,"line":4,"needed":2,"result":"toofew"}`.
#[tactic(auto, unfolding(crate::specs::ReportText::too_few_members))]
fn too_few_report(
    alloc: Global,
    line: u32,
    answered: u8,
    needed: u8,
    absent: u8,
) -> Result<Vec<u8>, NoMemory>
    ensures { IfOk result (λ bytes. bytes.items ≡ line_text (too_few_members line answered needed absent)) }
{
    let mut out = begun(alloc)?;
    put_count(&mut out, "absent", u64::from(absent))?;
    put_count(&mut out, "answered", u64::from(answered))?;
    put_count(&mut out, "line", u64::from(line))?;
    put_count(&mut out, "needed", u64::from(needed))?;
    put_text(&mut out, "result", "toofew")?;
    ended(out)
}

/// `{"line":1,"owner":0,"result":"notowner","version":1}`.
#[tactic(auto, unfolding(crate::specs::ReportText::owned_elsewhere_members))]
fn owned_elsewhere_report(
    alloc: Global,
    line: u32,
    owner: u8,
    version: u32,
) -> Result<Vec<u8>, NoMemory>
    ensures { IfOk result (λ bytes. bytes.items ≡ line_text (owned_elsewhere_members line owner version)) }
{
    let mut out = begun(alloc)?;
    put_count(&mut out, "line", u64::from(line))?;
    put_count(&mut out, "owner", u64::from(owner))?;
    put_text(&mut out, "result", "notowner")?;
    put_count(&mut out, "version", u64::from(version))?;
    ended(out)
}

fn cause_text(cause: Cause) -> &'static str
    ensures { result.now ≡ cause_text cause }
{
    match cause {
        Cause::Json => "json",
        Cause::Object => "object",
        Cause::Key => "key",
        Cause::Id => "id",
        Cause::Type => "type",
        Cause::Field => "field",
        Cause::Value => "value",
        Cause::Size => "size",
        Cause::Condition => "condition",
    }
}

/// `{"cause":"value","line":5,"result":"badline"}`.
#[tactic(auto, unfolding(crate::specs::ReportText::bad_line_members))]
fn bad_line_report(alloc: Global, line: u32, cause: Cause) -> Result<Vec<u8>, NoMemory>
    ensures { IfOk result (λ bytes. bytes.items ≡ line_text (bad_line_members line cause)) }
{
    let mut out = begun(alloc)?;
    put_text(&mut out, "cause", cause_text(cause))?;
    put_result(&mut out, line, "badline")?;
    ended(out)
}

/// Writes how many documents a search found, and how many keys it covered.
fn put_measures(out: &mut Writer, found: &SearchAnswer) -> Result<(), NoMemory>
    ensures { OnOk result (Puts out.old out.new (measure_tokens found.now)) }
{
    put_count(out, "count", found.count)?;
    put_count(out, "covered", found.covered)?;
    out.key("full")?;
    out.boolean(found.full)?;
    Ok(())
}

/// Writes the result of a search, and the version that was searched.
fn put_search(out: &mut Writer, line: u32, version: u32) -> Result<(), NoMemory>
    ensures { OnOk result (Puts out.old out.new (search_tokens line version)) }
{
    put_result(out, line, "search")?;
    put_count(out, "version", u64::from(version))
}

/// `{"count":3,"covered":16,"full":false,"groups":[{"count":2,"value":2000}],"line":8,"result":"search","version":2}`.
#[tactic(auto, unfolding(crate::specs::ReportText::search_members))]
fn search_report(alloc: Global, line: u32, found: &SearchAnswer) -> Result<Vec<u8>, NoMemory>
    ensures { IfOk result (λ bytes. bytes.items ≡ line_text (search_members line found.now)) }
{
    let mut out = begun(alloc)?;
    put_measures(&mut out, found)?;
    put_groups(&mut out, alloc, found.groups.items())?;
    put_search(&mut out, line, found.version)?;
    ended(out)
}

/// `{"line":5,"result":"published","version":2}`.
#[tactic(auto, unfolding(crate::specs::ReportText::published_members))]
fn published_report(alloc: Global, line: u32, version: u32) -> Result<Vec<u8>, NoMemory>
    ensures { IfOk result (λ bytes. bytes.items ≡ line_text (published_members line version)) }
{
    let mut out = begun(alloc)?;
    put_result(&mut out, line, "published")?;
    put_count(&mut out, "version", u64::from(version))?;
    ended(out)
}

/// `{"have":1,"line":1,"result":"notnewer"}`.
#[tactic(auto, unfolding(crate::specs::ReportText::not_newer_members))]
fn not_newer_report(alloc: Global, line: u32, have: u32) -> Result<Vec<u8>, NoMemory>
    ensures { IfOk result (λ bytes. bytes.items ≡ line_text (not_newer_members line have)) }
{
    let mut out = begun(alloc)?;
    put_count(&mut out, "have", u64::from(have))?;
    put_result(&mut out, line, "notnewer")?;
    ended(out)
}

/// `{"acks":2,"line":4,"result":"toofewup","up":1}`.
#[tactic(auto, unfolding(crate::specs::ReportText::too_few_up_members))]
fn too_few_up_report(alloc: Global, line: u32, up: u8, acks: u8) -> Result<Vec<u8>, NoMemory>
    ensures { IfOk result (λ bytes. bytes.items ≡ line_text (too_few_up_members line up acks)) }
{
    let mut out = begun(alloc)?;
    put_count(&mut out, "acks", u64::from(acks))?;
    put_result(&mut out, line, "toofewup")?;
    put_count(&mut out, "up", u64::from(up))?;
    ended(out)
}

/// `{"acks":2,"line":3,"out":2,"result":"toomanyout"}`.
#[tactic(auto, unfolding(crate::specs::ReportText::too_many_out_members))]
fn too_many_out_report(alloc: Global, line: u32, out: u8, acks: u8) -> Result<Vec<u8>, NoMemory>
    ensures { IfOk result (λ bytes. bytes.items ≡ line_text (too_many_out_members line out acks)) }
{
    let mut writer = begun(alloc)?;
    put_count(&mut writer, "acks", u64::from(acks))?;
    put_count(&mut writer, "line", u64::from(line))?;
    put_count(&mut writer, "out", u64::from(out))?;
    put_text(&mut writer, "result", "toomanyout")?;
    ended(writer)
}

/// A report with one count, whose name stands between the line's number and the result, as
/// `{"line":1,"node":1,"result":"stopped"}`.
#[tactic(auto, unfolding(crate::specs::ReportText::count_members))]
fn count_report(
    alloc: Global,
    line: u32,
    name: &str,
    count: u64,
    word: &str,
) -> Result<Vec<u8>, NoMemory>
    ensures { IfOk result (λ bytes. bytes.items ≡ line_text (count_members line name.now count word.now)) }
{
    let mut out = begun(alloc)?;
    put_count(&mut out, "line", u64::from(line))?;
    put_count(&mut out, name, count)?;
    put_text(&mut out, "result", word)?;
    ended(out)
}

/// `{"line":3,"result":"planned","taken":true}`.
#[tactic(auto, unfolding(crate::specs::ReportText::planned_members))]
fn planned_report(alloc: Global, line: u32, taken: bool) -> Result<Vec<u8>, NoMemory>
    ensures { IfOk result (λ bytes. bytes.items ≡ line_text (planned_members line taken)) }
{
    let mut out = begun(alloc)?;
    put_result(&mut out, line, "planned")?;
    out.key("taken")?;
    out.boolean(taken)?;
    ended(out)
}

/// `{"blocked":0,"disturbed":0,"lanes":16,"line":1,"rested":16,"result":"maintained"}`.
#[tactic(auto, unfolding(crate::specs::ReportText::maintained_members))]
fn maintained_report(
    alloc: Global,
    line: u32,
    lanes: u8,
    rested: u8,
    blocked: u8,
    disturbed: u8,
) -> Result<Vec<u8>, NoMemory>
    ensures { IfOk result (λ bytes. bytes.items
        ≡ line_text (maintained_members line lanes rested blocked disturbed)) }
{
    let mut out = begun(alloc)?;
    put_count(&mut out, "blocked", u64::from(blocked))?;
    put_count(&mut out, "disturbed", u64::from(disturbed))?;
    put_count(&mut out, "lanes", u64::from(lanes))?;
    put_count(&mut out, "line", u64::from(line))?;
    put_count(&mut out, "rested", u64::from(rested))?;
    put_text(&mut out, "result", "maintained")?;
    ended(out)
}

/// The report of a line.
pub fn report(alloc: Global, line: u32, answer: &Answer) -> Result<Vec<u8>, NoMemory>
    ensures { IfOk result (λ bytes. bytes.items ≡ report_text line answer.now) }
{
    match answer {
        Answer::Acked { stamp } => acked_report(alloc, line, *stamp),
        Answer::Found {
            id,
            document,
            stamp,
        } => found_report(alloc, line, id, document, *stamp),
        Answer::Missing { seen } => missing_report(alloc, line, *seen),
        Answer::Nothing => nothing_report(alloc, line),
        Answer::ConditionFailed { seen } => condition_failed_report(alloc, line, *seen),
        Answer::BadUpdate { fault } => bad_update_report(alloc, line, fault),
        Answer::TooFew {
            answered,
            needed,
            absent,
        } => too_few_report(alloc, line, *answered, *needed, *absent),
        Answer::OwnedElsewhere { owner, version } => {
            owned_elsewhere_report(alloc, line, *owner, *version)
        }
        Answer::NoMemory => result_report(alloc, line, "nomemory"),
        Answer::BadLine { cause } => bad_line_report(alloc, line, *cause),
        Answer::TooLong => result_report(alloc, line, "toolong"),
        Answer::Search { answer } => search_report(alloc, line, answer),
        Answer::BadQuery { offset } => {
            count_report(alloc, line, "offset", u64::from(*offset), "badquery")
        }
        Answer::Published { version } => published_report(alloc, line, *version),
        Answer::BadState { offset } => {
            count_report(alloc, line, "offset", u64::from(*offset), "badstate")
        }
        Answer::NotNewer { have } => not_newer_report(alloc, line, *have),
        Answer::NoDistributor => result_report(alloc, line, "nodistributor"),
        Answer::TooFewUp { up, acks } => too_few_up_report(alloc, line, *up, *acks),
        Answer::TooManyOut { out, acks } => too_many_out_report(alloc, line, *out, *acks),
        Answer::Stopped { node } => count_report(alloc, line, "node", u64::from(*node), "stopped"),
        Answer::Started { node } => count_report(alloc, line, "node", u64::from(*node), "started"),
        Answer::Planned { taken } => planned_report(alloc, line, *taken),
        Answer::Barrier => result_report(alloc, line, "barrier"),
        Answer::Maintained {
            lanes,
            rested,
            blocked,
            disturbed,
        } => maintained_report(alloc, line, *lanes, *rested, *blocked, *disturbed),
    }
}

/// `{"result":"usage"}`, which answers wrong words.
#[tactic(auto, unfolding(crate::specs::ReportText::usage_text))]
pub fn usage_report(alloc: Global) -> Result<Vec<u8>, NoMemory>
    ensures { IfOk result (λ bytes. bytes.items ≡ usage_text) }
{
    let mut out = begun(alloc)?;
    put_text(&mut out, "result", "usage")?;
    ended(out)
}
