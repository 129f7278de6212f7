use cluster_states::ClusterState;

/// The owner of the lane that makes a pass, and the state under which it does.
#[derive(Clone, Copy)]
pub struct Owner {
    pub distributor: u8,
    pub state: ClusterState,
}
