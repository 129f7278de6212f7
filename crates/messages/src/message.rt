ghost use Rattle.std.specs.Prelude.{◌≡◌};
ghost use Rattle.messages.specs.Noting.{message_of};

use crate::body::Body;
use std::alloc::Global;
use value_lists::{NoMemory, TryCopy};

/// What a distributor sends to a node.
#[derive(Drop)]
pub struct Message {
    /// The version of the cluster state under which it is sent.
    pub version: u32,
    pub lane: u8,
    /// The distributor.
    pub sender: u8,
    /// The node.
    pub receiver: u8,
    pub body: Body,
}

impl Message {
    /// The version of the cluster state under which the message was sent.
    pub fn version(&self) -> u32
        ensures { result ≡ self.now.version }
    {
        self.version
    }
}

impl TryCopy for Message {
    /// Ids, documents and entries are shared.
    fn copy(&self, alloc: Global) -> Result<Message, NoMemory> {
        Ok(Message {
            version: self.version,
            lane: self.lane,
            sender: self.sender,
            receiver: self.receiver,
            body: self.body.copy(alloc)?,
        })
    }
}

/// What a distributor puts into each message that it sends in a lane under a version.
#[derive(Clone, Copy, PartialEq, Eq)]
pub struct Origin {
    pub version: u32,
    pub lane: u8,
    pub sender: u8,
}

impl Origin {
    /// The message of this origin to a node.
    pub fn message(self, receiver: u8, body: Body) -> Message
        ensures { result ≡ message_of self receiver body }
    {
        Message {
            version: self.version,
            lane: self.lane,
            sender: self.sender,
            receiver,
            body,
        }
    }
}
