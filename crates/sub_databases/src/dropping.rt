ghost use Rattle.std.specs.Prelude.{◌≡◌, IfOk};
ghost use Rattle.std.specs.FinMap as fin;
ghost use Rattle.entry_maps.specs.Entries.{in_bucket, by_id, AreSingle};
ghost use Rattle.node_rows.specs.TypedRows.{with_rows, without_in};
ghost use Rattle.view_changes.specs.Room.{AllHave};

use bucket_ids::Bucket;
use documents::SharedEntry;
use entry_maps::EntryMap;
use node_rows::NodeRows;
use value_lists::NoMemory;

/// The entries of a bucket, shared.
pub fn listed_in(entries: &EntryMap, bucket: Bucket) -> Result<Vec<SharedEntry>, NoMemory>
    ensures entries { IfOk result (λ list. fin.from_entries (by_id list.items)
        ≡ fin.retain_keys entries.now (in_bucket bucket)) }
    ensures single { IfOk result (λ list. AreSingle (by_id list.items)) }
{
    entries.within(bucket)?.listed()
}

/// The documents of a bucket go, of rows whose documents have entries: those of the bucket's entries, or by a walk over
/// all places where memory doesn't serve for their list.
pub fn drop_rows(rows: &mut NodeRows, entries: &EntryMap, bucket: Bucket)
    requires { AllHave entries.now rows.old.rows }
    ensures { rows.new ≡ with_rows (without_in bucket rows.old.rows) rows.old }
{
    match listed_in(entries, bucket) {
        Ok(list) => rows.leave_all(&list),
        Err(NoMemory) => rows.drop_in(bucket),
    }
}
