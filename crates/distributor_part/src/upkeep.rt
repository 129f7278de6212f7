ghost use Rattle.std.specs.Prelude.{◌≡◌, ℕ, ◌<◌, length, Some, IsTrue, ◌↔◌, OnOk, OnErr, IfSome, IfNone, IsSome, slice_get};
ghost use Rattle.bucket_db.specs.declared.row.Row.{Row};
ghost use Rattle.distributor_part.specs.declared.stage.Stage.TheVariants.{Before};
ghost use Rattle.distributor_part.specs.Parts.{rows_of};
ghost use Rattle.distributor_part.specs.Upkeep.{AreTargetsAt, BeginsRoundAt, IsToBeActiveAt, LacksCompleteAt, AreToBeReadyAt, SplitsRow, CanJoinAt, JoinsRows, ActivatesAt, AcceptsAt, BeginsDelete, EndsDelete};

use crate::heard::place_of;
use crate::part::DistributorPart;
use crate::stage::Stage;
use crate::targets::{targets_of, to_be_active, to_be_ready};
use bucket_db::Deleting;
use bucket_ids::Bucket;
use node_sets::NodeSet;
use value_lists::NoMemory;

impl DistributorPart {
    // ---- what a row asks for

    /// The targets of the row of a place.
    pub fn targets(&self, at: usize) -> NodeSet
        requires heard { IsSome self.now.state }
        requires place { at < length (rows_of self.now.rows) }
        ensures { AreTargetsAt self.now at result }
    {
        let (Some(state), Some(rows)) = (self.heard.state(), &self.rows) else {
            unreachable!();
        };
        let row = &rows.rows()[at];
        let kept = self.heard.order(at, row.bucket);
        targets_of(self.rules.redundancy, state, kept, row)
    }

    /// The active node of the row of a place, or else the complete member that is to be active, if there is one.
    pub fn to_be_active(&self, at: usize) -> Option<u8>
        requires heard { IsSome self.now.state }
        requires place { at < length (rows_of self.now.rows) }
        ensures some { IfSome result (IsToBeActiveAt self.now at) }
        ensures none { IfNone result (LacksCompleteAt self.now at) }
    {
        let (Some(state), Some(rows)) = (self.heard.state(), &self.rows) else {
            unreachable!();
        };
        let row = &rows.rows()[at];
        to_be_active(state, self.heard.order(at, row.bucket), row)
    }

    /// The nodes that are to be ready in the row of a place: the first ones in ideal order, be they complete or not,
    /// and the one that is to be active.
    pub fn to_be_ready(&self, at: usize) -> NodeSet
        requires heard { IsSome self.now.state }
        requires place { at < length (rows_of self.now.rows) }
        ensures { AreToBeReadyAt self.now at result }
    {
        let (Some(state), Some(rows)) = (self.heard.state(), &self.rows) else {
            unreachable!();
        };
        let row = &rows.rows()[at];
        let kept = self.heard.order(at, row.bucket);
        to_be_ready(self.rules.searchable, state, kept, row)
    }

    // ---- rounds

    /// Keeps the ideal order of the row of a place, which the round and what follows it ask for.
    fn keep_order(&mut self, at: usize)
        requires { at < length (rows_of self.old.rows) }
        ensures { self.new ≡ self.old }
    {
        let Some(rows) = &self.rows else {
            unreachable!();
        };
        self.heard.keep_order(at, rows.rows()[at].bucket);
    }

    /// Begins a round in the row of a place, whatever its marks are, and says to whom its union goes. What follows is
    /// that of any round: it is told by `round_over`, and the next step decides its end.
    pub fn begin_round(&mut self, at: usize) -> NodeSet
        requires heard { IsSome self.old.state }
        requires place { at < length (rows_of self.old.rows) }
        requires no_round { self.old.stage ≡ Before }
        ensures { (row : Row) → slice_get (rows_of self.old.rows) at ≡ Some row
            → BeginsRoundAt self.old self.new at row.bucket result }
    {
        self.keep_order(at);
        let receivers = self.targets(at);
        self.stage = Stage::Running { at, receivers };
        receivers
    }

    // ---- splits and joins

    /// Splits the row of a place: each half inherits the marks, the active node and the Delete.
    pub fn split_row(&mut self, at: usize) -> Result<(), NoMemory>
        requires place { at < length (rows_of self.old.rows) }
        requires fewer { IfSome (slice_get (rows_of self.old.rows) at) (λ row. row.bucket.bits < 58) }
        requires no_round { self.old.stage ≡ Before }
        ensures ok { OnOk result (SplitsRow self.old self.new at) }
        ensures err { OnErr result (self.new ≡ self.old) }
    {
        let Some(rows) = &mut self.rows else {
            unreachable!();
        };
        let bucket = rows.rows()[at].bucket;
        rows.split_row(at)?;
        self.heard.row_splits(at, bucket, rows.rows());
        Ok(())
    }

    /// Whether the row of a place may be joined: its sibling is a row, both have more bits than the lane's bucket and
    /// the same active node or none, and not both have a Delete.
    pub fn can_join(&self, at: usize) -> bool
        requires { at < length (rows_of self.now.rows) }
        ensures { IsTrue result ↔ CanJoinAt self.now at }
    {
        match &self.rows {
            Some(rows) => rows.can_join(at),
            None => unreachable!(),
        }
    }

    /// Joins the row of a place with its sibling: common marks stay, and the Delete of either.
    pub fn join_rows(&mut self, at: usize)
        requires place { at < length (rows_of self.old.rows) }
        requires joinable { CanJoinAt self.old at }
        requires no_round { self.old.stage ≡ Before }
        ensures { JoinsRows self.old self.new at }
    {
        let Some(rows) = &mut self.rows else {
            unreachable!();
        };
        let bucket = rows.rows()[at].bucket;
        let other = place_of(rows.rows(), bucket.sibling());
        match rows.join_rows(at) {
            Ok(()) => self
                .heard
                .rows_join(at, other, bucket.parent(), rows.rows()),
            Err(_) => unreachable!(),
        }
    }

    // ---- activations

    /// Says that a node is the active one of the row of a place, which it hasn't accepted yet.
    pub fn activate(&mut self, at: usize, node: u8)
        requires place { at < length (rows_of self.old.rows) }
        requires small { node < 32 }
        ensures { ActivatesAt self.old self.new at node }
    {
        let Some(rows) = &mut self.rows else {
            unreachable!();
        };
        rows.set_active(at, node);
    }

    /// Says that the active node of the row of a place accepted its activation.
    pub fn accept(&mut self, at: usize)
        requires { at < length (rows_of self.old.rows) }
        ensures { AcceptsAt self.old self.new at }
    {
        let Some(rows) = &mut self.rows else {
            unreachable!();
        };
        rows.set_accepted(at);
    }

    // ---- Deletes

    /// Says that the row of a place has a Delete to a node, of its bucket with this serial, that has no answer yet;
    /// the node's mark goes.
    pub fn delete_from(&mut self, at: usize, node: u8, serial: u64)
        requires place { at < length (rows_of self.old.rows) }
        requires small { node < 32 }
        ensures { BeginsDelete self.old self.new at node serial }
    {
        let Some(rows) = &mut self.rows else {
            unreachable!();
        };
        let row = rows.rows()[at];
        rows.set_marks(at, row.complete.without(node));
        rows.set_deleting(
            at,
            Some(Deleting {
                bucket: row.bucket,
                node,
                serial,
            }),
        );
    }

    /// Says that the Delete of a bucket to a node has its answer: no row has it any more.
    pub fn delete_over(&mut self, bucket: Bucket, node: u8)
        requires { IsSome self.old.rows }
        ensures { EndsDelete self.old self.new bucket node }
    {
        let Some(rows) = &mut self.rows else {
            unreachable!();
        };
        rows.end_deletes(bucket, node);
    }
}
