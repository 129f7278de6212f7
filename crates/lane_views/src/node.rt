ghost use Rattle.std.specs.Prelude.{◌≡◌, ◌<◌, ◌^◌, IfOk, OnOk, OnErr};
ghost use Rattle.std.specs.List.{list_any};
ghost use Rattle.bucket_ids.specs.Buckets.{IsBucket, covers};
ghost use Rattle.coverage.specs.Covering.{measure_of};
ghost use Rattle.view_changes.specs.Views.{new_node, in_regions, adopted, stopped_as, taken, activated, is_in_the_way, meets};
ghost use Rattle.view_changes.specs.Serving.{serves};
ghost use Rattle.view_changes.specs.Kept.{IsNode};
ghost use Rattle.lane_views.specs.Typed.{step};

use bucket_ids::Bucket;
use documents::SharedEntry;
use entry_maps::EntryMap;
use global_ids::key_of;
use node_rows::{NodeRows, SharedSchema};
use std::alloc::Global;
use std::marker::Model;
use value_lists::{NoMemory, TryCopy, copy_all};
use view_changes::fresh::fresh_entries;
use view_changes::regions::{are_met, have_key, have_whole, measure_of, regions_with};

/// What is seen of a node: its version, whether it is stopped, its active regions, its documents there.
#[derive(Drop)]
pub struct SeenNode {
    version: u32,
    stopped: bool,
    regions: Vec<Bucket>,
    rows: NodeRows,
}

impl Model for SeenNode {
    ghost use Rattle.lane_views.specs.Typed.{TypedNode};
    ghost use Rattle.lane_views.specs.ViewCodes.{typed_code};

    ghost Value = { TypedNode };

    ghost coded = { typed_code };

    ghost view = { λ n. record {
      types = n.rows.types;
      node = record { version = n.version; stopped = n.stopped; regions = n.regions.items; rows = n.rows.rows };
    } };
}

impl SeenNode {
    /// A node of which nothing was heard.
    pub fn new(alloc: Global, schema: &SharedSchema) -> Result<SeenNode, NoMemory>
        ensures { IfOk result (λ n. n ≡ record { types = schema.now; node = new_node }) }
    {
        Ok(SeenNode {
            version: 0,
            stopped: false,
            regions: Vec::new(alloc),
            rows: NodeRows::new(alloc, schema)?,
        })
    }

    /// Whether the node is at a version, and isn't stopped.
    pub fn serves(&self, version: u32) -> bool
        ensures { result ≡ serves version self.now.node }
    {
        self.version == version && !self.stopped
    }

    /// The newest version that the node took.
    pub fn version(&self) -> u32
        ensures { result ≡ self.now.node.version }
    {
        self.version
    }

    /// The documents.
    pub fn rows(&self) -> &NodeRows
        ensures types { result.now.types ≡ self.now.types }
        ensures rows { result.now.rows ≡ self.now.node.rows }
    {
        &self.rows
    }

    /// The sum of the measures of the regions.
    pub fn measure(&self) -> u64
        requires { measure_of self.now.node.regions < 2 ^ 64 }
        ensures { result ≡ measure_of self.now.node.regions }
    {
        measure_of(&self.regions)
    }

    /// Whether the node is at a version and has a region that meets a bucket.
    pub fn is_in_the_way(&self, version: u32, bucket: Bucket) -> bool
        ensures { result ≡ is_in_the_way version bucket self.now.node }
    {
        self.version == version && are_met(&self.regions, bucket)
    }

    /// The node stops, or runs again.
    pub fn stop(&mut self, stopped: bool)
        ensures { self.new ≡ step (λ types. stopped_as stopped) self.old }
    {
        self.stopped = stopped;
    }

    /// The node takes a version: a greater one forgets the regions and their documents.
    pub fn adopt(
        &mut self,
        alloc: Global,
        schema: &SharedSchema,
        version: u32,
    ) -> Result<(), NoMemory>
        requires { schema.now ≡ self.old.types }
        ensures ok { OnOk result (self.new ≡ step (λ types. adopted version) self.old) }
        ensures err { OnErr result (self.new ≡ self.old) }
    {
        if self.version < version {
            self.rows = NodeRows::new(alloc, schema)?;
            self.version = version;
            self.regions = Vec::new(alloc);
        }
        Ok(())
    }

    /// The node kept an entry: where it lies in a region, its document is seen there, or none.
    pub fn take(&mut self, alloc: Global, entry: &SharedEntry) -> Result<(), NoMemory>
        ensures ok { OnOk result (self.new ≡ step (λ types. taken types entry.now) self.old) }
        ensures err { OnErr result (self.new ≡ self.old) }
    {
        let key = key_of(&entry.entry().id);
        if have_key(&self.regions, key) {
            self.rows.take(alloc, key, entry)?;
        }
        Ok(())
    }

    /// A bucket is a region, with these entries; inside a region nothing changes.
    pub fn activate(
        &mut self,
        alloc: Global,
        bucket: Bucket,
        entries: &EntryMap,
    ) -> Result<(), NoMemory>
        requires { IsNode self.old.node }
        ensures ok { OnOk result (self.new ≡ step (λ types. activated types bucket entries.now) self.old) }
        ensures err { OnErr result (self.new ≡ self.old) }
    {
        if have_whole(&self.regions, bucket) {
            return Ok(());
        }
        let fresh = fresh_entries(alloc, bucket, &self.regions, entries)?;
        let regions = regions_with(alloc, bucket, &self.regions)?;
        self.rows.take_all(alloc, &fresh)?;
        self.regions = regions;
        Ok(())
    }
}

impl TryCopy for SeenNode {
    fn copy(&self, alloc: Global) -> Result<SeenNode, NoMemory> {
        Ok(SeenNode {
            version: self.version,
            stopped: self.stopped,
            regions: copy_all(alloc, &self.regions)?,
            rows: self.rows.copy(alloc)?,
        })
    }
}
