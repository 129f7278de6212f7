ghost use Rattle.std.specs.Prelude.{◌≡◌, ◌≢◌, ◌≤◌, ◌<◌, ◌%◌, ℕ, true, false, length, replicate, slice_index_or};
ghost use Rattle.node_sets.specs.Members.{has_node};
ghost use Rattle.cluster_states.specs.ClusterStates.{IsState, first_state, group_of};
ghost use Rattle.cluster_states.specs.MarkTests.{is_up, counts};
ghost use Rattle.cluster_states.specs.Scanning.{marks_of, with_mark};
ghost use Rattle.cluster_states.specs.declared.marks.Mark.TheVariants.{Up, Down, Retired};
ghost use Rattle.cluster_states.specs.declared.places.Role.TheVariants.{Distributor};

use crate::marks::{Mark, Marks};
use crate::places::Role;
use node_sets::NodeSet;
use std::marker::Model;

/// Which distributors and storage nodes there are under a version, 1 to 32 of each, how each is marked,
/// and in how many groups, 1 to 8, the storage nodes lie, as in the racks of a hall.
#[derive(Clone, Copy, Debug, PartialEq, Eq)]
pub struct ClusterState {
    version: u32,
    distributors: Marks,
    nodes: Marks,
    groups: u8,
}

impl Model for ClusterState {
    ghost use Rattle.cluster_states.specs.ClusterStates.{State, IsState};

    ghost Value = { State };

    ghost view = { λ s.
        record { version = s.version; distributors = s.distributors; nodes = s.nodes; groups = s.groups } };

    ghost invariant = { λ s.
        IsState (record {
          version = s.version;
          distributors = s.distributors;
          nodes = s.nodes;
          groups = s.groups;
        }) };

    ghost inverse = { λ s.
        record { version = s.version; distributors = s.distributors; nodes = s.nodes; groups = s.groups } };
}

impl Default for ClusterState {
    /// Version 0 with one distributor and one storage node, both up, in one group.
    fn default() -> ClusterState
        ensures { result ≡ first_state }
    {
        ClusterState {
            version: 0,
            distributors: Marks::all_up(1),
            nodes: Marks::all_up(1),
            groups: 1,
        }
    }
}

impl ClusterState {
    /// The version; takes no memory, as no call here but `print` does.
    pub fn version(&self) -> u32
        ensures value { result ≡ self.now.version }
        ensures valid { IsState self.now }
    {
        self.version
    }

    /// How many groups the storage nodes lie in, 1 to 8.
    pub fn groups(&self) -> u8
        ensures { result ≡ self.now.groups }
    {
        self.groups
    }

    /// The group of a storage node: its number modulo that of the groups.
    pub fn group_of(&self, node: u8) -> u8
        ensures { result ≡ group_of self.now node }
    {
        node % self.groups
    }

    /// Whether a distributor is up; none is from the count on.
    pub fn distributor_up(&self, number: u8) -> bool
        ensures { result ≡ is_up (slice_index_or self.now.distributors number Down) }
    {
        self.distributors.at(number).is_up()
    }

    /// How a storage node is marked; from the count on it is down.
    pub fn storage(&self, number: u8) -> Mark
        ensures { result ≡ slice_index_or self.now.nodes number Down }
    {
        self.nodes.at(number)
    }

    /// The storage nodes that serve: those that are up or retired.
    pub fn serving(&self) -> NodeSet
        ensures { (n : ℕ) → has_node result n ≡ counts true (slice_index_or self.now.nodes n Down) }
    {
        self.nodes.set(true)
    }

    /// The storage nodes that are up and not retired.
    pub fn nodes_up(&self) -> NodeSet
        ensures { (n : ℕ) → has_node result n ≡ counts false (slice_index_or self.now.nodes n Down) }
    {
        self.nodes.set(false)
    }

    /// The distributors that are up.
    pub fn distributors_up(&self) -> NodeSet
        ensures { (n : ℕ) → has_node result n ≡ counts false (slice_index_or self.now.distributors n Down) }
    {
        self.distributors.set(false)
    }

    /// The marks of a role.
    pub(crate) fn marks_of(&self, role: Role) -> Marks
        ensures { result ≡ marks_of role self.now }
    {
        match role {
            Role::Distributor => self.distributors,
            Role::Storage => self.nodes,
        }
    }

    /// The state with another version.
    pub(crate) fn with_version(self, version: u32) -> ClusterState
        ensures { result
            ≡ record {
              version = version;
              distributors = self.distributors;
              nodes = self.nodes;
              groups = self.groups;
            } }
    {
        ClusterState { version, ..self }
    }

    /// The state with so many distributors, all up.
    pub(crate) fn with_distributors(self, count: u8) -> ClusterState
        requires some { 1 ≤ count }
        requires few { count ≤ 32 }
        ensures { result
            ≡ record {
              version = self.version;
              distributors = replicate count Up;
              nodes = self.nodes;
              groups = self.groups;
            } }
    {
        ClusterState {
            distributors: Marks::all_up(count),
            ..self
        }
    }

    /// The state with so many storage nodes, all up.
    pub(crate) fn with_nodes(self, count: u8) -> ClusterState
        requires some { 1 ≤ count }
        requires few { count ≤ 32 }
        ensures { result
            ≡ record {
              version = self.version;
              distributors = self.distributors;
              nodes = replicate count Up;
              groups = self.groups;
            } }
    {
        ClusterState {
            nodes: Marks::all_up(count),
            ..self
        }
    }

    /// The state with so many groups.
    pub(crate) fn with_groups(self, groups: u8) -> ClusterState
        requires some { 1 ≤ groups }
        requires few { groups ≤ 8 }
        ensures { result
            ≡ record {
              version = self.version;
              distributors = self.distributors;
              nodes = self.nodes;
              groups = groups;
            } }
    {
        ClusterState { groups, ..self }
    }

    /// The state with another mark for a number; no distributor is retired.
    pub(crate) fn with_mark(self, role: Role, number: u8, mark: Mark) -> ClusterState
        requires { role ≡ Distributor → mark ≢ Retired }
        ensures { result ≡ with_mark self role number mark }
    {
        match role {
            Role::Distributor => ClusterState {
                distributors: self.distributors.with(number, mark),
                ..self
            },
            Role::Storage => ClusterState {
                nodes: self.nodes.with(number, mark),
                ..self
            },
        }
    }
}
