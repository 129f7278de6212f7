ghost use Rattle.std.specs.Prelude.{◌≡◌, ◌≢◌, T, true, Some, None, Ok, Err, IfOk, IfErr, OnOk};
ghost use Rattle.std.specs.FinMap as fin;
ghost use Rattle.doc_types.specs.SchemaCodes.{name_cmp};
ghost use Rattle.doc_updates.specs.Updates.{pairs, named, one_changed, all_changed, and_then, sized, updated};
ghost use Rattle.doc_updates.specs.declared.fault.UpdateFault.TheVariants as update_reason;

use crate::change::Named;
use crate::effects::changed;
use crate::fault::{Reason, UpdateFault};
use documents::Document;
use documents::document::LARGEST;
use documents::field::name_of;
use std::alloc::Global;
use std::marker::Model;
use std::sync::Arc;
use value_lists::{NoMemory, TryCopy};

/// What a line changes of a document; copies share it.
#[derive(Drop)]
pub struct Update {
    list: Arc<Vec<Named>>,
}

impl Model for Update {
    ghost use Rattle.std.specs.Prelude.{T};
    ghost use Rattle.std.specs.Arc.{arc_value};
    ghost use Rattle.std.specs.FinMap as fin;
    ghost use Rattle.doc_types.specs.SchemaCodes.{name_cmp};
    ghost use Rattle.doc_updates.specs.Updates.{Changes, changes_code, pairs};

    ghost Value = { Changes };

    ghost coded = { changes_code };

    ghost view = { λ u. fin.from_sorted (pairs (arc_value u.list).items) };

    ghost invariant = { λ u. T (fin.is_sorted name_cmp (pairs (arc_value u.list).items)) };
}

/// A fault of a field, with its name.
fn named(alloc: Global, name: &str, why: Reason) -> UpdateFault
    ensures { result ≢ update_reason.NoMemory → result ≡ named name.now why }
{
    let Ok(field) = name_of(alloc, name) else {
        return UpdateFault::NoMemory;
    };
    match why {
        Reason::ZeroDivisor => UpdateFault::ZeroDivisor { field },
        Reason::Overflow => UpdateFault::Overflow { field },
        Reason::TooMany => UpdateFault::TooMany { field },
        Reason::NoMemory => UpdateFault::NoMemory,
    }
}

/// Changes one field of a document.
fn change_one(alloc: Global, document: &mut Document, change: &Named) -> Result<(), UpdateFault>
    ensures id { document.new.id ≡ document.old.id }
    ensures ok { OnOk result (one_changed (change.now.name, change.now.change) document.old.fields
        ≡ Ok document.new.fields) }
    ensures fault { IfErr result (λ fault. (fault ≢ update_reason.NoMemory)
        → one_changed (change.now.name, change.now.change) document.old.fields ≡ Err fault) }
{
    let name = change.name.text();
    match changed(alloc, &change.change, document.get(name)) {
        Ok(Some(value)) => {
            document.set(alloc, name, value)?;
            Ok(())
        }
        Ok(None) => {
            document.clear(name);
            Ok(())
        }
        Err(why) => Err(named(alloc, name, why)),
    }
}

/// Changes the fields of a document, one after the other.
fn change_all(alloc: Global, document: &mut Document, changes: &[Named]) -> Result<(), UpdateFault>
    ensures id { document.new.id ≡ document.old.id }
    ensures ok { OnOk result (all_changed (pairs changes.now) document.old.fields ≡ Ok document.new.fields) }
    ensures fault { IfErr result (λ fault. (fault ≢ update_reason.NoMemory)
        → all_changed (pairs changes.now) document.old.fields ≡ Err fault) }
{
    for change in changes {
        change_one(alloc, document, change)?;
    }
    Ok(())
}

/// A document that isn't too large.
fn sized(document: Document) -> Result<Document, UpdateFault>
    ensures ok { IfOk result (λ left. (left ≡ document) × (sized document.fields ≡ Ok left.fields)) }
    ensures fault { IfErr result (λ fault. sized document.fields ≡ Err fault) }
{
    let size = document.size();
    if size > LARGEST {
        return Err(UpdateFault::TooLarge { size });
    }
    Ok(document)
}

/// The document with these changes.
fn changed_by(
    alloc: Global,
    changes: &[Named],
    document: &Document,
) -> Result<Document, UpdateFault>
    ensures ok { IfOk result (λ left. (left.id ≡ document.now.id)
        × (and_then sized (all_changed (pairs changes.now) document.now.fields) ≡ Ok left.fields)) }
    ensures fault { IfErr result (λ fault. (fault ≢ update_reason.NoMemory)
        → and_then sized (all_changed (pairs changes.now) document.now.fields) ≡ Err fault) }
{
    let mut left = document.copy(alloc)?;
    change_all(alloc, &mut left, changes)?;
    sized(left)
}

impl Update {
    /// The update of these changes, in the order of their names.
    pub fn of(alloc: Global, list: Vec<Named>) -> Result<Update, NoMemory>
        requires sorted { T (fin.is_sorted name_cmp (pairs list.items)) }
        ensures { IfOk result (λ update. update ≡ fin.from_entries (pairs list.items)) }
    {
        Ok(Update {
            list: Arc::new(alloc, list)?,
        })
    }

    /// The document with this update: its fields are changed in the order of their names, and the first
    /// fault decides. A number that isn't there counts as 0, and a list as empty.
    pub fn apply(&self, alloc: Global, document: &Document) -> Result<Document, UpdateFault>
        ensures ok { IfOk result (λ left. (left.id ≡ document.now.id)
            × (updated self.now document.now.fields ≡ Ok left.fields)) }
        ensures fault { IfErr result (λ fault. (fault ≢ update_reason.NoMemory)
            → updated self.now document.now.fields ≡ Err fault) }
    {
        changed_by(alloc, &self.list, document)
    }
}

impl TryCopy for Update {
    fn copy(&self, _alloc: Global) -> Result<Update, NoMemory> {
        Ok(Update {
            list: Arc::try_clone(&self.list)?,
        })
    }
}
