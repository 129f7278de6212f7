ghost use Rattle.std.specs.Prelude.{◌≡◌, ◌++◌, [], ◌∷◌, ℕ, length, ◌<◌, Some, None, IfErr, IfNone, OnOk, OnErr};
ghost use Rattle.std.specs.List.{find};
ghost use Rattle.node_sets.specs.Members.{has_node};
ghost use Rattle.cluster_states.specs.Publishing.{Told, version_is, newest_of, is_known, publish_fault, older_fault, out_of};

use crate::cluster_state::ClusterState;
use crate::places::Role;
use arrayvec::ArrayVec;
use node_sets::NodeSet;
use node_sets::laws::sets_are_their_members;
use std::marker::Model;
use thiserror::Error;

/// Why a state isn't published; the first of these that holds.
#[derive(Clone, Copy, Debug, PartialEq, Eq, Error)]
pub enum PublishFault {
    /// The version isn't greater than that of the newest state.
    #[error("not newer than {have}")]
    NotNewer { have: u32 },
    /// No distributor is up.
    #[error("no distributor is up")]
    NoDistributor,
    /// Fewer storage nodes are up and not retired than a write needs.
    #[error("{up} up and {acks} needed")]
    TooFewUp { up: u8, acks: u8 },
    /// So many nodes that served under a published state don't serve, that a write may be on them alone.
    #[error("{out} out with {acks} acknowledgements")]
    TooManyOut { out: u8, acks: u8 },
    /// There is no room for a state more.
    #[error("too many states")]
    TooManyStates,
}

/// The states that were published, at most 65.
#[derive(Drop)]
pub struct States {
    acks: u8,
    states: ArrayVec<ClusterState, 65>,
    known: NodeSet,
}

impl Model for States {
    ghost use Rattle.cluster_states.specs.Publishing.{Told, IsHistory};

    ghost Value = { Told };

    ghost view = { λ s. record { acks = s.acks; states = s.states.items } };

    ghost invariant = { λ s. IsHistory s.states.items s.known };
}

impl States {
    /// No state yet; `acks` is how many nodes take a write before it is acknowledged.
    pub fn new(acks: u8) -> States
        ensures { result ≡ record { acks = acks; states = [] } }
    {
        States {
            acks,
            states: ArrayVec::new(),
            known: NodeSet::none(),
        }
    }

    /// The state that was published last.
    pub fn newest(&self) -> Option<ClusterState>
        ensures { result ≡ newest_of self.now.states }
    {
        self.states.last().copied()
    }

    /// The state that was published with this version.
    pub fn at(&self, version: u32) -> Option<ClusterState>
        ensures { result ≡ find (version_is version) self.now.states }
    {
        self.states
            .iter()
            .find(|state| state.version() == version)
            .copied()
    }

    /// The storage nodes that served under any state that was published.
    pub fn known(&self) -> NodeSet
        ensures { (n : ℕ) → has_node result n ≡ is_known self.now.states n }
    {
        self.known
    }

    /// Publishes a state, or says why not.
    pub fn publish(&mut self, state: &ClusterState) -> Result<(), PublishFault>
        ensures cause { IfErr result (λ fault. publish_fault self.old state.now ≡ Some fault) }
        ensures err { OnErr result (self.new ≡ self.old) }
        ensures none { OnOk result (publish_fault self.old state.now ≡ None) }
        ensures ok { OnOk result
            (self.new ≡ record { acks = self.old.acks; states = self.old.states ++ state.now ∷ [] }) }
    {
        if let Some(fault) = self.fault(state) {
            return Err(fault);
        }
        self.states.push(*state);
        self.known = self.known.union(state.serving());
        Ok(())
    }

    /// Why a state isn't published, the first cause that holds.
    fn fault(&self, state: &ClusterState) -> Option<PublishFault>
        ensures value { result ≡ publish_fault self.now state.now }
        ensures room { IfNone result (length self.now.states < 65) }
    {
        if let Some(fault) = older_fault(self.newest(), state) {
            return Some(fault);
        }
        if state.marks_of(Role::Distributor).up() == 0 {
            return Some(PublishFault::NoDistributor);
        }
        let (up, acks) = (state.marks_of(Role::Storage).up(), self.acks);
        if up < acks {
            return Some(PublishFault::TooFewUp { up, acks });
        }
        let out = self.count_out(state);
        if acks <= out {
            return Some(PublishFault::TooManyOut { out, acks });
        }
        if self.states.len() == 65 {
            return Some(PublishFault::TooManyStates);
        }
        None
    }

    /// How many known nodes don't serve under a state.
    fn count_out(&self, state: &ClusterState) -> u8
        ensures { result ≡ out_of self.now.states state.now }
    {
        sets_are_their_members();
        self.known.difference(state.serving()).len_below(32)
    }
}

/// That a state isn't newer than the newest.
fn older_fault(newest: Option<ClusterState>, state: &ClusterState) -> Option<PublishFault>
    ensures { result ≡ older_fault newest state.now }
{
    match newest {
        Some(newest) => {
            let have = newest.version();
            if state.version() <= have {
                Some(PublishFault::NotNewer { have })
            } else {
                None
            }
        }
        None => None,
    }
}
