ghost use Rattle.std.specs.Prelude.{◌≡◌, ◌≢◌, Ok, Err, IfOk, IfErr, option_map};
ghost use Rattle.doc_updates.specs.declared.fault.UpdateFault.TheVariants as reason;
ghost use Rattle.messages.specs.Meaning.{makes_one, is_met, decide_plain, decide_by, decide, or_empty, updated_of, effect};

use doc_selection::Selection;
use doc_updates::{Update, UpdateFault};
use document_ids::DocId;
use documents::Document;
use std::alloc::Global;
use value_lists::{NoMemory, TryCopy};

/// What an operation does with its document.
#[derive(Drop)]
pub enum OpKind {
    /// This document is stored.
    Put(Document),
    /// The document that is there is changed.
    Update(Update),
    /// The document is removed.
    Remove,
    /// The document is shown.
    Get,
}

impl TryCopy for OpKind {
    fn copy(&self, alloc: Global) -> Result<OpKind, NoMemory> {
        match self {
            OpKind::Put(document) => Ok(OpKind::Put(document.copy(alloc)?)),
            OpKind::Update(update) => Ok(OpKind::Update(update.copy(alloc)?)),
            OpKind::Remove => Ok(OpKind::Remove),
            OpKind::Get => Ok(OpKind::Get),
        }
    }
}

/// What is asked of one document.
#[derive(Drop)]
pub struct Operation {
    pub id: DocId,
    pub kind: OpKind,
    /// Where it is there, the operation goes ahead only on a document of which it is true.
    pub condition: Option<Selection>,
    /// Whether a put or an update makes its document where there is none. A put without a condition
    /// does so in any case.
    pub create: bool,
}

/// What becomes of an operation, by the document that it sees.
#[derive(Clone, Copy, PartialEq, Eq)]
pub enum Decided {
    /// It has its effect.
    GoesAhead,
    /// Its condition isn't true of the document, or there is no document for it.
    ConditionFails,
    /// It is an update without a document to change.
    DoesNothing,
}

/// A copy of what may be a condition.
fn copy_condition(
    alloc: Global,
    condition: &Option<Selection>,
) -> Result<Option<Selection>, NoMemory>
    ensures { IfOk result (λ copy. copy ≡ condition.now) }
{
    match condition {
        Some(condition) => Ok(Some(condition.copy(alloc)?)),
        None => Ok(None),
    }
}

impl TryCopy for Operation {
    fn copy(&self, alloc: Global) -> Result<Operation, NoMemory> {
        Ok(Operation {
            id: self.id.copy(alloc)?,
            kind: self.kind.copy(alloc)?,
            condition: copy_condition(alloc, &self.condition)?,
            create: self.create,
        })
    }
}

/// A copy of the document that was seen, or the one without fields.
fn or_empty(alloc: Global, id: &DocId, seen: Option<&Document>) -> Result<Document, NoMemory>
    ensures { IfOk result (λ document. document ≡ or_empty id.now (option_map (λ d. d.now) seen.entry)) }
{
    match seen {
        Some(document) => document.copy(alloc),
        None => Ok(Document::empty(alloc, id.copy(alloc)?)),
    }
}

/// The document that an update leaves.
fn updated_of(
    alloc: Global,
    id: &DocId,
    update: &Update,
    seen: Option<&Document>,
) -> Result<Option<Document>, UpdateFault>
    ensures ok { IfOk result (λ left.
        updated_of update.now (or_empty id.now (option_map (λ d. d.now) seen.entry)) ≡ Ok left) }
    ensures fault { IfErr result (λ fault. (fault ≢ reason.NoMemory)
        → updated_of update.now (or_empty id.now (option_map (λ d. d.now) seen.entry)) ≡ Err fault) }
{
    let document = or_empty(alloc, id, seen)?;
    Ok(Some(update.apply(alloc, &document)?))
}

/// Whether an operation makes a document where there is none.
fn makes_one(kind: &OpKind, create: bool) -> bool
    ensures { result ≡ makes_one kind.now create }
{
    match kind {
        OpKind::Put(_) | OpKind::Update(_) => create,
        OpKind::Remove | OpKind::Get => false,
    }
}

/// Whether an operation meets its condition.
fn is_met(condition: &Selection, kind: &OpKind, create: bool, seen: Option<&Document>) -> bool
    ensures { result ≡ is_met condition.now kind.now create (option_map (λ d. d.now) seen.entry) }
{
    match seen {
        Some(document) => condition.holds(document),
        None => makes_one(kind, create),
    }
}

/// What becomes of an operation without a condition.
fn decide_plain(kind: &OpKind, create: bool, seen: Option<&Document>) -> Decided
    ensures { result ≡ decide_plain kind.now create (option_map (λ d. d.now) seen.entry) }
{
    match (kind, seen) {
        (OpKind::Update(_), None) if !create => Decided::DoesNothing,
        _ => Decided::GoesAhead,
    }
}

impl Operation {
    /// What becomes of the operation where it sees this document, or none.
    pub fn decide(&self, seen: Option<&Document>) -> Decided
        ensures { result ≡ decide self.now (option_map (λ d. d.now) seen.entry) }
    {
        match &self.condition {
            None => decide_plain(&self.kind, self.create, seen),
            Some(condition) => {
                if is_met(condition, &self.kind, self.create, seen) {
                    Decided::GoesAhead
                } else {
                    Decided::ConditionFails
                }
            }
        }
    }

    /// The document that the operation leaves where it saw this one, or none; a remove leaves none. An
    /// update that saw none changes the document without fields.
    pub fn effect(
        &self,
        alloc: Global,
        seen: Option<&Document>,
    ) -> Result<Option<Document>, UpdateFault>
        ensures ok { IfOk result (λ left.
            effect self.now.id self.now.kind (option_map (λ d. d.now) seen.entry) ≡ Ok left) }
        ensures fault { IfErr result (λ fault. (fault ≢ reason.NoMemory)
            → effect self.now.id self.now.kind (option_map (λ d. d.now) seen.entry) ≡ Err fault) }
    {
        match &self.kind {
            OpKind::Put(document) => Ok(Some(document.copy(alloc)?)),
            OpKind::Update(update) => updated_of(alloc, &self.id, update, seen),
            OpKind::Remove => Ok(None),
            OpKind::Get => Ok(seen_copy(alloc, seen)?),
        }
    }
}

/// A copy of the document that was seen.
fn seen_copy(alloc: Global, seen: Option<&Document>) -> Result<Option<Document>, NoMemory>
    ensures { IfOk result (λ copy. copy ≡ option_map (λ d. d.now) seen.entry) }
{
    match seen {
        Some(document) => Ok(Some(document.copy(alloc)?)),
        None => Ok(None),
    }
}
