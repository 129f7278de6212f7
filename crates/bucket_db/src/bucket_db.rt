ghost use Rattle.std.specs.Prelude.{◌≡◌, ℕ, ◌<◌, length, true, false, map, slice_get, Some, IsTrue, ◌↔◌, IfSome, IfOk, OnOk, OnErr, IsOk};
ghost use Rattle.bucket_ids.specs.Buckets.{has_key, IsIn};
ghost use Rattle.bucket_db.specs.Rows.{AreRows, buckets_of};
ghost use Rattle.bucket_db.specs.Answers.{IsCoarsest, new_row};
ghost use Rattle.bucket_db.specs.Changes.{split_at, with_rows, with_joined, IsJoinable, IsJoined, CanJoin, at_row, without_delete};
ghost use Rattle.bucket_db.specs.declared.row.Row.{Row};

use crate::row::{Deleting, Row, new_rows};
use crate::{answers, changes, search};
use bucket_ids::Bucket;
use node_sets::NodeSet;
use std::alloc::Global;
use std::marker::Model;
use value_lists::NoMemory;

/// The rows of a lane.
#[derive(Drop)]
pub struct BucketDb {
    lane: Bucket,
    rows: Vec<Row>,
}

impl Model for BucketDb {
    ghost use Rattle.bucket_db.specs.Rows.{Rows, AreRows, buckets_of, rows_code};

    ghost Value = { Rows };

    ghost coded = { rows_code };

    ghost view = { λ d. record { lane = d.lane; rows = d.rows.items } };

    ghost invariant = { λ d. AreRows d.lane (buckets_of d.rows.items) };
}

impl BucketDb {
    /// The rows that the answers of nodes give, each without marks.
    pub fn of_answers(alloc: Global, lane: Bucket, answers: &[Bucket]) -> Result<BucketDb, NoMemory>
        ensures lane { IfOk result (λ db. db.lane ≡ lane) }
        ensures coarsest { IfOk result (λ db. IsCoarsest lane answers.now (buckets_of db.rows)) }
        ensures unmarked { IfOk result (λ db. db.rows ≡ map new_row (buckets_of db.rows)) }
    {
        let buckets = answers::buckets_of(alloc, lane, answers)?;
        let rows = new_rows(alloc, &buckets)?;
        Ok(BucketDb { lane, rows })
    }

    /// The rows, in rising bucket number.
    pub fn rows(&self) -> &[Row]
        ensures list { result.now ≡ self.now.rows }
        ensures whole { AreRows self.now.lane (buckets_of self.now.rows) }
    {
        &self.rows
    }

    /// The place of the row that a key of the lane lies in.
    #[tactic(auto, using(crate::proofs::RowLists::rises_of_rising))]
    pub fn row_of(&self, key: u64) -> usize
        requires { IsIn self.now.lane key }
        ensures within { result < length self.now.rows }
        ensures found { IfSome (slice_get self.now.rows result) (λ row. has_key row.bucket key ≡ true) }
        ensures only { (at : ℕ) (row : Row) → slice_get self.now.rows at ≡ Some row
            → has_key row.bucket key ≡ true → at ≡ result }
    {
        search::place_of(&self.rows, key)
    }

    /// Splits a row: each half inherits the marks, the active node and the Delete.
    #[tactic(auto, using(crate::proofs::RowLists::rises_of_rising))]
    pub fn split_row(&mut self, at: usize) -> Result<(), NoMemory>
        requires place { at < length self.old.rows }
        requires fewer { IfSome (slice_get self.old.rows at) (λ row. row.bucket.bits < 58) }
        ensures ok { OnOk result (self.new ≡ with_rows self.old (split_at at self.old.rows)) }
        ensures err { OnErr result (self.new ≡ self.old) }
    {
        changes::split_at(&mut self.rows, at)
    }

    /// Whether a row may be joined: its sibling is a row, both have more bits than the lane's bucket
    /// and the same active node or none, and not both have a Delete.
    #[tactic(auto, using(crate::proofs::RowLists::rises_of_rising))]
    pub fn can_join(&self, at: usize) -> bool
        requires { at < length self.now.rows }
        ensures { IsTrue result ↔ CanJoin self.now at }
    {
        let row = &self.rows[at];
        if row.bucket.bits() <= self.lane.bits() {
            return false;
        }
        let sibling = row.bucket.sibling();
        let place = search::place_of(&self.rows, sibling.low());
        changes::may_join(row, sibling, &self.rows[place])
    }

    /// Joins a row with its sibling, where that is a row too: common marks stay, and the Delete of
    /// either. It never answers `NoMemory`, since a join takes no memory; the `Result` is that of a split.
    #[tactic(auto, using(crate::proofs::RowLists::rises_of_rising))]
    pub fn join_rows(&mut self, at: usize) -> Result<(), NoMemory>
        requires place { at < length self.old.rows }
        requires joinable { CanJoin self.old at }
        ensures always { IsOk result }
        ensures joins { (row other : Row) → slice_get self.old.rows at ≡ Some row
            → IsJoinable self.old.lane self.old.rows row other
            → (joined : Row) × IsJoined row other joined
            × (self.new ≡ with_rows self.old (with_joined joined self.old.rows)) }
    {
        let sibling = self.rows[at].bucket.sibling();
        let other = search::place_of(&self.rows, sibling.low());
        changes::join_at(&mut self.rows, at, other);
        Ok(())
    }

    /// Says which nodes are complete members of a row.
    pub fn set_marks(&mut self, at: usize, complete: NodeSet)
        requires { at < length self.old.rows }
        ensures { self.new ≡ with_rows self.old
            (at_row at (λ row. record row { complete = complete }) self.old.rows) }
    {
        self.rows[at].complete = complete;
    }

    /// Says that a node is a row's active one; it hasn't accepted that yet.
    pub fn set_active(&mut self, at: usize, node: u8)
        requires { at < length self.old.rows }
        ensures { self.new ≡ with_rows self.old
            (at_row at (λ row. record row { active = Some node; accepted = false }) self.old.rows) }
    {
        let row = &mut self.rows[at];
        row.active = Some(node);
        row.accepted = false;
    }

    /// Says that a row's active node accepted its activation.
    pub fn set_accepted(&mut self, at: usize)
        requires { at < length self.old.rows }
        ensures { self.new ≡ with_rows self.old
            (at_row at (λ row. record row { accepted = true }) self.old.rows) }
    {
        self.rows[at].accepted = true;
    }

    /// Says which Delete of a row has no answer.
    pub fn set_deleting(&mut self, at: usize, deleting: Option<Deleting>)
        requires { at < length self.old.rows }
        ensures { self.new ≡ with_rows self.old
            (at_row at (λ row. record row { deleting = deleting }) self.old.rows) }
    {
        self.rows[at].deleting = deleting;
    }

    /// The Delete of a bucket to a node has its answer: no row has it any more.
    pub fn end_deletes(&mut self, bucket: Bucket, node: u8)
        ensures { self.new ≡ with_rows self.old (map (without_delete bucket node) self.old.rows) }
    {
        changes::end_deletes(&mut self.rows, bucket, node);
    }
}
