ghost use Rattle.std.specs.Prelude.{◌≡◌, IfOk, option_map};
ghost use Rattle.std.specs.Option.{option_copied};
ghost use Rattle.op_machine.specs.Judging.{document_in, stamp_in, shown_body, shown, written, goes_on, judged};

use crate::verdict::Verdict;
use doc_updates::UpdateFault;
use document_ids::DocId;
use documents::{Document, Entry, SharedEntry};
use messages::{Decided, Operation, Outcome};
use stamps::Stamp;
use std::alloc::Global;
use value_lists::{NoMemory, TryCopy};

/// The document of an entry that was seen.
fn document_in(seen: Option<&SharedEntry>) -> Option<&Document>
    ensures { option_map (λ d. d.now) result ≡ document_in (option_copied seen.entry) }
{
    match seen {
        Some(entry) => entry.entry().body.as_ref(),
        None => None,
    }
}

/// The stamp of an entry that was seen.
fn stamp_in(seen: Option<&SharedEntry>) -> Option<Stamp>
    ensures { result ≡ stamp_in (option_copied seen.entry) }
{
    match seen {
        Some(entry) => Some(entry.entry().stamp),
        None => None,
    }
}

/// What a get answers where an entry has this body.
fn shown_body(stamp: Stamp, body: &Option<Document>) -> Outcome
    ensures { result ≡ shown_body stamp body.now }
{
    match body {
        Some(_) => Outcome::Found { stamp },
        None => Outcome::Missing { seen: Some(stamp) },
    }
}

/// What a get answers by the entry that it saw.
fn shown(seen: Option<&SharedEntry>) -> Outcome
    ensures { result ≡ shown (option_copied seen.entry) }
{
    match seen {
        Some(entry) => shown_body(entry.entry().stamp, &entry.entry().body),
        None => Outcome::Missing { seen: None },
    }
}

/// The entry with this body is written.
fn writes(
    alloc: Global,
    stamp: Stamp,
    id: &DocId,
    body: Option<Document>,
) -> Result<Verdict, NoMemory>
    ensures { IfOk result (λ verdict. verdict
        ≡ Verdict.Writes (record { stamp = stamp; id = id.now; body = body })) }
{
    let id = id.copy(alloc)?;
    let entry = SharedEntry::new(alloc, Entry { stamp, id, body })?;
    Ok(Verdict::Writes { entry })
}

/// What an operation with this stamp writes.
fn written(
    alloc: Global,
    operation: &Operation,
    stamp: Stamp,
    seen: Option<&SharedEntry>,
) -> Result<Verdict, NoMemory>
    ensures { IfOk result (λ verdict. verdict ≡ written operation.now stamp (option_copied seen.entry)) }
{
    match operation.effect(alloc, document_in(seen)) {
        Ok(body) => writes(alloc, stamp, &operation.id, body),
        Err(UpdateFault::NoMemory) => Err(NoMemory),
        Err(fault) => Ok(Verdict::Ends {
            outcome: Outcome::BadUpdate { fault },
        }),
    }
}

/// What an operation that goes ahead comes to.
fn goes_on(
    alloc: Global,
    operation: &Operation,
    stamp: Option<Stamp>,
    seen: Option<&SharedEntry>,
) -> Result<Verdict, NoMemory>
    ensures { IfOk result (λ verdict. verdict ≡ goes_on operation.now stamp (option_copied seen.entry)) }
{
    match stamp {
        Some(stamp) => written(alloc, operation, stamp, seen),
        None => Ok(Verdict::Ends {
            outcome: shown(seen),
        }),
    }
}

/// What an operation comes to by the newest entry that it saw, or by none.
pub fn judged(
    alloc: Global,
    operation: &Operation,
    stamp: Option<Stamp>,
    seen: Option<&SharedEntry>,
) -> Result<Verdict, NoMemory>
    ensures { IfOk result (λ verdict. verdict ≡ judged operation.now stamp (option_copied seen.entry)) }
{
    let outcome = match operation.decide(document_in(seen)) {
        Decided::GoesAhead => return goes_on(alloc, operation, stamp, seen),
        Decided::ConditionFails => Outcome::ConditionFailed {
            seen: stamp_in(seen),
        },
        Decided::DoesNothing => Outcome::Nothing {
            seen: stamp_in(seen),
        },
    };
    Ok(Verdict::Ends { outcome })
}
