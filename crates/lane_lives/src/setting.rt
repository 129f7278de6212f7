use cluster_states::ClusterState;
use distributor_part::Rules;
use doc_types::Schema;

/// What a session is set to.
#[derive(Drop)]
pub struct Setting {
    /// How many low bits of a key tell the lanes apart, 1 to 6.
    pub bits: u8,
    /// What every lane is set up with.
    pub rules: Rules,
    /// The cluster state that is published first.
    pub initial: ClusterState,
    /// Which types of documents it has.
    pub schema: Schema,
}
