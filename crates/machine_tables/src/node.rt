//! One node that is told messages.

ghost use Rattle.node_model.specs.Takes.{IsInside};

use crate::changes::told;
use crate::table::{done, shown};
use crate::texts::{halves, short};
use crate::versions::schema;
use crate::words::read_body;
use document_ids::DocId;
use messages::{Body, Message};
use node_rows::SharedSchema;
use service_layer::{NodePart, Taken};
use std::alloc::Global;

/// The node, if memory served.
#[derive(Drop)]
pub struct Node {
    node: Option<NodePart>,
}

/// A node that took no message.
pub fn new_node(alloc: Global) -> Option<NodePart> {
    let schema = SharedSchema::new(alloc, schema(alloc)?).ok()?;
    NodePart::new(alloc, &schema).ok()
}

/// Takes a message where a serial is left to be drawn.
pub fn take(node: &mut NodePart, version: u32, body: Body) -> Option<Taken>
    requires { IsInside body }
{
    if node.last_serial() == u64::MAX {
        return None;
    }
    let message = Message {
        version,
        lane: 0,
        sender: 0,
        receiver: 0,
        body,
    };
    Some(node.take(&message))
}

impl Node {
    pub fn new(alloc: Global) -> Node {
        Node {
            node: new_node(alloc),
        }
    }

    /// Begins with another node.
    fn begin(&mut self, alloc: Global) -> bool {
        self.node = new_node(alloc);
        self.node.is_some()
    }

    /// What the node makes of a message of a version.
    fn tell(&mut self, alloc: Global, version: &str, words: &str) -> Option<Taken> {
        let version = short(version, 0)?;
        let (verb, rest) = halves(words);
        match read_body(alloc, verb, rest) {
            Some(body) => take(self.node.as_mut()?, version, body),
            None => None,
        }
    }

    /// The reply to a message of a version, as a journal keeps it.
    fn noted(&mut self, alloc: Global, version: &str, words: &str) -> Option<String> {
        match self.tell(alloc, version, words) {
            Some(taken) => shown(alloc, &taken.noted),
            None => None,
        }
    }

    /// The changes that the node tells of a message of a version.
    fn changes(&mut self, alloc: Global, words: &str) -> Option<String> {
        let (version, words) = halves(words);
        match self.tell(alloc, version, words) {
            Some(taken) => told(alloc, taken.changes),
            None => None,
        }
    }

    /// In which of its parts a document is.
    fn place(&self, alloc: Global, id: &str) -> Option<String> {
        let id = DocId::parse(alloc, id).ok()?;
        shown(alloc, &self.node.as_ref()?.parts().place(&id))
    }

    /// What comes of a line: a version and a message, `changes` before these, or a question about the node itself.
    pub fn say(&mut self, alloc: Global, verb: &str, rest: &str) -> Option<String> {
        match verb {
            "begin" => done(alloc, self.begin(alloc)),
            "changes" => self.changes(alloc, rest),
            "entries" => shown(alloc, &self.node.as_ref()?.entries()),
            "serial" => shown(alloc, &self.node.as_ref()?.last_serial()),
            "version" => shown(alloc, &self.node.as_ref()?.version()),
            "regions" => shown(alloc, &self.node.as_ref()?.regions()),
            "place" => self.place(alloc, rest),
            version => self.noted(alloc, version, rest),
        }
    }
}
