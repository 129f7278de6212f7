ghost use Rattle.std.specs.Prelude.{◌≡◌, ◌==◌, ◌&&◌, ◌<◌, ℕ, List, None, bytes_eq, if◌then◌else◌, IfSome, OnOk, OnErr};
ghost use Rattle.documents.specs.Fields.{pairs};
ghost use Rattle.field_indexes.specs.Fields.{cell};
ghost use Rattle.field_indexes.specs.Told.{fields_of};
ghost use Rattle.document_indexes.specs.Entering.{AreNamed, value_of, is_named, kind_at, DoFit, ComesFrom};

use documents::SharedField;
use field_indexes::FieldIndexes;
use std::alloc::Global;
use value_lists::NoMemory;

/// A document has some fields no more.
pub fn leave_fields(indexes: &mut FieldIndexes, name: &str, fields: &[SharedField], local: u32)
    ensures cells { (n f : List ℕ) (k : ℕ) → cell (fields_of indexes.new) n f k
        ≡ (if (k == local) && is_named name.now (pairs fields.now) n f then None else cell (fields_of indexes.old) n f k) }
    ensures kinds { (n f : List ℕ) → kind_at (fields_of indexes.new) n f ≡ kind_at (fields_of indexes.old) n f }
{
    for at in 0..fields.len() {
        indexes.leave(name, fields[at].name(), local);
    }
}

/// A document without fields has these. Want of memory leaves it without.
pub fn enter_fields(
    alloc: Global,
    indexes: &mut FieldIndexes,
    name: &str,
    fields: &[SharedField],
    local: u32,
) -> Result<(), NoMemory>
    requires named { AreNamed (pairs fields.now) }
    requires fit { DoFit (fields_of indexes.old) name.now (pairs fields.now) }
    requires free { (n f : List ℕ) → cell (fields_of indexes.old) n f local ≡ None }
    ensures ok { OnOk result ((n f : List ℕ) (k : ℕ) → cell (fields_of indexes.new) n f k
        ≡ (if (k == local) && bytes_eq name.now n then value_of f (pairs fields.now) else cell (fields_of indexes.old) n f k)) }
    ensures err { OnErr result ((n f : List ℕ) (k : ℕ) → cell (fields_of indexes.new) n f k ≡ cell (fields_of indexes.old) n f k) }
    ensures kinds { (n f : List ℕ) → IfSome (fields_of indexes.new n f) (ComesFrom (fields_of indexes.old) name.now (pairs fields.now) n f) }
{
    for at in 0..fields.len() {
        let field = &fields[at];
        if let Err(fault) = indexes.enter(alloc, name, field.name(), local, field.value()) {
            leave_fields(indexes, name, &fields[..at], local);
            return Err(fault);
        }
    }
    Ok(())
}

/// A document without fields has those of a greater local id, which then has none.
pub fn move_fields(
    indexes: &mut FieldIndexes,
    name: &str,
    fields: &[SharedField],
    from: u32,
    to: u32,
)
    requires named { AreNamed (pairs fields.now) }
    requires below { to < from }
    requires free { (n f : List ℕ) → cell (fields_of indexes.old) n f to ≡ None }
    ensures cells { (n f : List ℕ) (k : ℕ) → cell (fields_of indexes.new) n f k
        ≡ (if is_named name.now (pairs fields.now) n f
        then if k == to then cell (fields_of indexes.old) n f from else (if k == from then None else cell (fields_of indexes.old) n f k)
        else cell (fields_of indexes.old) n f k) }
    ensures kinds { (n f : List ℕ) → kind_at (fields_of indexes.new) n f ≡ kind_at (fields_of indexes.old) n f }
{
    for at in 0..fields.len() {
        indexes.move_down(name, fields[at].name(), from, to);
    }
}
