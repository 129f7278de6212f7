ghost use Rattle.std.specs.Prelude.{◌≡◌, ℕ, IfOk};
ghost use Rattle.global_ids.specs.Keys.{key_of};
ghost use Rattle.op_machine.specs.Judging.{looks, looks_by};
ghost use Rattle.op_machine.specs.Outcomes.{read_body};

use bucket_ids::Bucket;
use global_ids::laws::keys_locate;
use messages::{Body, OpKind, Operation, Origin, SharedOperation};
use node_sets::NodeSet;
use stamps::Stamp;
use std::alloc::Global;
use value_lists::{NoMemory, TryCopy};

/// An operation that is prepared: what it is, and to whom it goes.
#[derive(Drop)]
pub struct Plan {
    /// What each message of the operation has.
    pub origin: Origin,
    pub operation: SharedOperation,
    /// The stamp that was drawn; none exactly for a get.
    pub stamp: Option<Stamp>,
    /// The row's complete members.
    pub recipients: NodeSet,
    /// The row's active node, if one is decided.
    pub active: Option<u8>,
    /// How many recipients have to answer.
    pub acks: u8,
}

/// Whether an operation of this kind looks at its document, condition or not.
fn kind_looks(kind: &OpKind) -> bool
    ensures { result ≡ looks_by kind.now }
{
    match kind {
        OpKind::Get | OpKind::Update(_) => true,
        OpKind::Put(_) | OpKind::Remove => false,
    }
}

/// Whether an operation looks at its document before it does anything: a get, an update and whatever
/// has a condition.
pub fn looks(operation: &Operation) -> bool
    ensures { result ≡ looks operation.now }
{
    operation.condition.is_some() || kind_looks(&operation.kind)
}

/// The Read of an operation's document, whose key is beside it.
pub fn read_body(alloc: Global, key: u64, operation: &Operation) -> Result<Body, NoMemory>
    requires { key ≡ key_of operation.now.id }
    ensures { IfOk result (λ body. body ≡ read_body operation.now.id) }
{
    keys_locate();
    Ok(Body::Read {
        bucket: Bucket::new(58, key),
        only: Some(operation.id.copy(alloc)?),
    })
}
