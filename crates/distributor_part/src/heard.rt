ghost use Rattle.std.specs.Prelude.{◌≡◌, ◌<◌, Some, None, IfSome};
ghost use Rattle.cluster_states.specs.declared.cluster_state.ClusterState.{ClusterState as State};
ghost use Rattle.ideal_nodes.specs.Placement.{IsIdeal};

use bucket_db::Row;
use bucket_db::row::number_of;
use bucket_ids::Bucket;
use cluster_states::ClusterState;
use ideal_nodes::{NodeList, ideal};
use std::alloc::Global;
use std::marker::Model;
use value_lists::NoMemory;

/// The ideal order of a bucket.
#[derive(Drop)]
pub struct Order {
    bucket: Bucket,
    nodes: NodeList,
}

/// The state that was heard last, if one was; a contract sees it alone. Beside it stand the ideal orders under it that
/// were asked for, by the places of their rows: each costs a digest a node, and a row's is asked for in each round and
/// as the row is settled. An order that stands at the place of another row is passed over, and made again.
#[derive(Drop)]
pub struct Heard {
    state: Option<ClusterState>,
    orders: Vec<Option<Order>>,
}

impl Model for Heard {
    ghost use Rattle.std.specs.Prelude.{Option};
    ghost use Rattle.std.specs.List.{AllByRecursion};
    ghost use Rattle.cluster_states.specs.declared.cluster_state.ClusterState.{ClusterState};
    ghost use Rattle.distributor_part.specs.Orders.{IsOrder};

    ghost Value = { Option ClusterState };

    ghost view = { λ h. h.state };

    ghost invariant = { λ h. AllByRecursion (IsOrder h.state) h.orders.items };
}

/// Where the row of a bucket stands, if it is one.
pub fn place_of(rows: &[Row], bucket: Bucket) -> usize {
    let number = number_of(bucket);
    rows.partition_point(|row: &Row| number_of(row.bucket) < number)
}

impl Heard {
    /// No state.
    pub fn none(alloc: Global) -> Heard
        ensures { result ≡ None }
    {
        Heard {
            state: None,
            orders: Vec::new(alloc),
        }
    }

    /// A state is heard.
    pub fn hear(&mut self, state: &ClusterState)
        ensures { self.new ≡ Some state.now }
    {
        self.state = Some(*state);
        self.orders.clear();
    }

    /// The state, if one was heard.
    pub fn state(&self) -> &Option<ClusterState>
        ensures { result.now ≡ self.now }
    {
        &self.state
    }

    /// The ideal order of the row of a place, if it is kept.
    pub fn order(&self, at: usize, bucket: Bucket) -> Option<&NodeList>
        ensures { IfSome result (λ list. (state : State) → self.now ≡ Some state → IsIdeal bucket state list.now) }
    {
        match self.orders.get(at) {
            Some(Some(order)) if order.bucket == bucket => Some(&order.nodes),
            _ => None,
        }
    }

    /// Keeps the ideal order of the row of a place, if there is room for one.
    pub fn keep_order(&mut self, at: usize, bucket: Bucket)
        ensures { self.new ≡ self.old }
    {
        let Some(state) = self.state else {
            return;
        };
        if self.orders.len() <= at || self.order(at, bucket).is_some() {
            return;
        }
        self.orders[at] = Some(Order {
            bucket,
            nodes: ideal(bucket, &state),
        });
    }

    /// Makes room for the orders of so many rows, if there is none yet.
    pub fn make_places(&mut self, rows: usize) -> Result<(), NoMemory>
        ensures { self.new ≡ self.old }
    {
        self.orders.reserve(rows)?;
        for _ in self.orders.len()..rows {
            self.orders.push(None)?;
        }
        Ok(())
    }

    /// The row of a place went.
    fn row_goes(&mut self, at: usize)
        ensures { self.new ≡ self.old }
    {
        if at < self.orders.len() {
            self.orders.remove(at);
        }
    }

    /// A row came at a place. Where memory wants there is no room for its order.
    fn row_comes(&mut self, at: usize)
        ensures { self.new ≡ self.old }
    {
        if at <= self.orders.len() {
            let _ = self.orders.insert(at, None);
        }
    }

    /// The row of a place was split; these are the rows now.
    pub fn row_splits(&mut self, at: usize, bucket: Bucket, rows: &[Row])
        requires { bucket.bits < 58 }
        ensures { self.new ≡ self.old }
    {
        let (first, second) = bucket.children();
        self.row_goes(at);
        self.row_comes(place_of(rows, first));
        self.row_comes(place_of(rows, second));
    }
    /// The rows of two places were joined; these are the rows now, and this one's is the bucket of both.
    pub fn rows_join(&mut self, at: usize, other: usize, joined: Bucket, rows: &[Row])
        ensures { self.new ≡ self.old }
    {
        self.row_goes(at.max(other));
        self.row_goes(at.min(other));
        self.row_comes(place_of(rows, joined));
    }
}
